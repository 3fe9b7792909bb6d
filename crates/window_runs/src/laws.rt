// What holds of the ends of a window's runs.

ghost use Rattle.window_runs.specs.RunLaws.{EndsJoin, EndsAscend, EndsStand, EndsLead, EndsPart, EndsAppend, EndsBetween};

/// The ends of the runs of some phases, and of others behind them, with the phases of these numbered on, are those of all the phases. The phases of such ends ascend.
/// The last run of a process leaves it where all its runs in the phases lead, in a state of each code of it. The ends in the first of the phases are the ends of the
/// runs of these; what a process's runs append is what the definitions say; and between the ends in the first phases and those in more are the ends in the phases
/// between.
///
/// It does nothing when it runs.
pub fn ends_go_on()
    ensures join { EndsJoin }
    ensures ascend { EndsAscend }
    ensures stand { EndsStand }
    ensures lead { EndsLead }
    ensures part { EndsPart }
    ensures append { EndsAppend }
    ensures between { EndsBetween }
{}
