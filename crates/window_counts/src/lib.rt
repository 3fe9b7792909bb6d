//! How many values a window of the good first run has at each moment (events and their values by IEEE 1364-2001, clause 5).
//!
//! `window_counts` has no body: its contract is the law that before each event of a window, and behind the last one, there is one value for each object of the
//! design, and that so it is after any number of slots of the good first run. It is what a copy that is laid over a window's values asks of them.
#![tactic(auto)]

ghost use Rattle.window_counts.specs.WindowCounts.{SlotsKeepCount, MomentsKeepCount};

/// There is one value for each object of the design after each number of slots of the good first run, and at each moment of a window of it.
pub fn window_counts()
    ensures slots { SlotsKeepCount }
    ensures moments { MomentsKeepCount }
{}
