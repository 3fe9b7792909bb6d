//! Whether events of a window read or write an object between two of its moments (events and their accesses by IEEE 1364-2001, clause 5).
//!
//! A window of the good run numbers its events through, and its tables tell which of them read or write an object. `is_touched`, `is_written` and `is_read` ask of the moments from
//! one to before another whether some event does; they pass over spans of moments that the caller leaves out. `stretches_are_told` says what their answers mean for a stretch of a phase,
//! and `pairs_are_told` for the stretches that a faulty machine in lockstep takes as the good one does, between blocks of its own. Each answer costs a few searches, and no
//! look at the events.
#![tactic(auto)]

ghost use Rattle.window_tests.specs.Stretches.{StretchesAreTold, PairsAreTold};

mod spans;
mod tests;

pub use lockstep_slots::slots_in_lockstep;
pub use spans::{NoSpans, Spans};
pub use tests::{is_read, is_touched, is_written};
pub use window_places::places_in_windows;

/// What no moment of a stretch passes tells what its events don't do to an object; and one that reads it tells of a read.
pub fn stretches_are_told()
    ensures { StretchesAreTold }
{
    lockstep_race::reads_are_told();
}

/// The same of the stretches among pairs of blocks, and how they are parts of these.
pub fn pairs_are_told()
    ensures { PairsAreTold }
{}
