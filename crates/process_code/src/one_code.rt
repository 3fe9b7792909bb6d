// What holds of all codes of a process.

ghost use Rattle.process_code.specs.OneCode.{CodesReadAlike, CodesCompareAlike, CodesStepAlike};

/// Codes of one process are one: what stands at a position is the same in each, so a state of one code is a state of every other and does the same there, with
/// the same steps, and the end of a run tells the same. States of two codes do the same exactly where they stand at one point, if no two statements of the process
/// stand at one place; and where they do the same, a step over the same values does the same from both.
///
/// It does nothing when it runs.
pub fn codes_are_one()
    ensures read { CodesReadAlike }
    ensures compare { CodesCompareAlike }
    ensures step { CodesStepAlike }
{}
