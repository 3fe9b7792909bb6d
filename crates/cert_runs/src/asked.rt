// What a run of a certificate has to show.

use kept_samples::Sample;
use vf_base::{Pair, WatchBit};

/// What a run has to show besides that its lines are followed.
#[derive(Clone, Copy)]
pub enum Asked<'a> {
    /// A verdict is claimed: the watched bits at each of the strobes up to the run's bound, a time in steps.
    Samples {
        bound: u64,
        watched: &'a [WatchBit],
        strobes: &'a [u64],
    },
    /// A race of this run is claimed: two conflicting accesses, by what they print, in the phase of a time, in steps, and of a number, from 1 on.
    Conflict {
        time: u64,
        phase: u32,
        first: &'a [u8],
        second: &'a [u8],
    },
    /// A race of the other run is claimed: this run has no lines and no bound.
    Nothing,
}

/// What a run shows that is through to its bound.
#[derive(Drop)]
pub enum Shown {
    /// The watched bits at the strobes up to the bound, one sample a strobe, in their order.
    Samples(Vec<Sample>),
    /// The first two accesses of the phase that print so and conflict, if there are such.
    Conflict(Option<Pair>),
    Nothing,
}
