//! The runs of a phase, taken one after another (processes by IEEE 1364-2001, clause 9; nonblocking updates by clause 9.2.2).
//!
//! A window tells by process and phase where each run left its process, and what it appended to the pending updates. `take_runs` lets each process stand where its next runs
//! in a phase leave it, with what they append; `place_behind` finds the first run of a process among the slot's. Main contract: `AreRunsTaken`, by which each process stands
//! where the definitions say its runs end, has pending what they append, and all others stand as they stood.
#![tactic(auto)]

mod runs;

pub use runs::{place_behind, take_runs};
