//! The process runs of a window by process: the n-th run of a process in a phase, and where each process stands after all of them (phases by IEEE 1364-2001, clause 5;
//! processes by clause 9).
//!
//! A window's runs stand in one list, in the order in which they end, with the window's phases numbered through from 1. `number_from` numbers the phases of a slot's
//! runs on from those before it. `RunIndex::refill` makes an index of such a list, which tells of each process the phases and the places of its own runs; `run` finds by
//! it the n-th run of a process in a phase, by binary search, `last` its last one, and `last_through` the last one in the first phases. `states_after` tells where each
//! process stands after all the runs, and `updates_after` what nonblocking updates it has pending then (clause 9.2.2); `pending_through` tells the same of one process after the
//! first phases. `runs_between` gives the runs of some phases in a row; `PhaseRuns` has those of one phase, with what each of their steps did, and `SlotRuns` those of a slot's
//! phases.
#![tactic(auto)]

mod index;
mod latest;
mod laws;
mod numbers;
mod parts;
mod phase;
mod slot;
mod states;
mod updates;

pub use index::RunIndex;
pub use laws::ends_go_on;
pub use numbers::number_from;
pub use parts::runs_between;
pub use phase::PhaseRuns;
pub use slot::SlotRuns;
pub use states::{standing_after, states_after};
pub use updates::updates_after;
