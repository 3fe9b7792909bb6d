// A run in the midst of a phase.

/// How many runs of a process ended in the phase of a number, counted from 0; of the present run how many steps were taken, none where the process is in no run, and whether it goes as the good machine's
/// run of that number so far.
#[derive(Clone, Copy, PartialEq, Eq, Debug)]
pub struct RunSoFar {
    pub phase: u32,
    pub number: u32,
    pub taken: u32,
    pub follows: bool,
}
