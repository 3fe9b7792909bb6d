//! The good first run as it is pushed, with its blocks and its wakes beside the trace (slots, phases and events by IEEE 1364-2001, clause 5).
//!
//! Faults in lockstep need of a window, beside its trace, where its blocks begin (`window_blocks`) and whose waits its events end (`window_wakes`). A `RunTrace` gathers all
//! three from the log of slot after slot, and `RunTrace::close_window` gives the slots since the last close as one `RunWindow`. Its main contract: the trace's window, the
//! blocks and the wakes of a `RunWindow` are of the same slots of the good first run, those since the last close.
#![tactic(auto)]

mod trace;
mod window;

pub use trace::RunTrace;
pub use window::RunWindow;
