//! What the writes of a phase reach (continuous assignments, gates and combinational blocks by IEEE 1364-2001, clauses 6 and 7).
//!
//! A net piece that nothing written in a phase reaches holds the same value all through it. `reach_all` finds what some objects reach, as those that own blocks of a faulty machine wrote;
//! `reach_between` finds what the good machine's writes between two moments of a slot reach, and `reach_phase` those of a phase. Main contract: all that one of them reaches is
//! among what was found (`AreReached`, `MomentsAreReached`); more may be.
#![tactic(auto)]

mod reach;

pub use lockstep_notes::{
    Spans, is_read, is_written, object_count, pairs_are_told, places_in_windows,
};
pub use reach::{reach_all, reach_between, reach_phase};
