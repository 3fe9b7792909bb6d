// The good machine's phase beside a block.

use run_numbers::RunNumbers;
use window_runs::PhaseRuns;

/// What the good machine tells of the phase of a block of another machine: its runs there, how many runs of each process ended before in that machine, and the number of the phase in its slot, counted from 0.
#[derive(Clone, Copy)]
pub struct GoodPhase<'a> {
    pub goods: PhaseRuns<'a>,
    pub numbers: RunNumbers<'a>,
    pub phase: u32,
}
