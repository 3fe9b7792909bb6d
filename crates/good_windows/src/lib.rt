//! The good machine's first run, taken window by window (slots by IEEE 1364-2001, clause 5).
//!
//! A `GoodRun` is the good machine of a setup beside the trace of its first run. Each `next_window` runs the machine through the slots of one more window, and gives
//! that window, with its blocks and its wakes. Its main contract: a window begins where the last one ended, so no slot of the good first run is left out and none comes
//! twice; it ends with the slot that fills it, or where the run has its race, comes to a slot that is hyperactive, or is through its plan's end. Where no slot is left
//! it says so, and where the next slot is hyperactive it tells that slot's time. The first slot is a window of its own: before it nothing is kept of a fault, so one that doesn't
//! come through it in lockstep is run through it whole, from the start.
#![tactic(auto)]

mod fill;
mod next;
mod run;
mod slot;
mod stage;

pub use next::NextWindow;
pub use run::GoodRun;
