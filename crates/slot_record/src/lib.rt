//! The record of a slot as it is run: its present phase as its events happen, the log of the phases that ended, and the first race of these (IEEE 1364-2001,
//! clause 5).
//!
//! Who runs a machine notes each event with what it did. Contracts say, for every machine and all events noted so far, that a `PhaseRecord` stands for the phase
//! with one event more: its log, its causes and its actors are those of the definition; `conflict` answers the phase's least pair of conflicting accesses. A
//! `SlotRecord` stands for the slot's phases so far: each note adds an event to the present phase, `end_phase` logs it and keeps its race where no phase before had
//! one, and `race` answers the first race.
#![tactic(auto)]

mod phase;
mod record;

pub use phase::PhaseRecord;
pub use record::SlotRecord;
