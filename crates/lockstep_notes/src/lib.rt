//! The notes of a phase in lockstep (phases and accesses by IEEE 1364-2001, clause 5).
//!
//! While a faulty machine goes through a phase in lockstep, its own blocks are noted (`race_notes`): `note_block` notes one, beside which a window tells the good machine's
//! block. Main contract: notes are marks (`marks_of`), and those behind a block take in what both machines' blocks do, as the race filter asks for it; and the notes stay
//! those of the phase's pairs of blocks (`NotesTell`), over stretches too that both machines take (`notes_go_on`). An access of an own block has its like where it is a read
//! of an object that the good machine's block reads, or begins a wait that the good machine's process is in behind its block, in which it took a step.
#![tactic(auto)]

mod block;
mod likes;
mod standing;

pub use block::{note_block, notes_go_on};
pub use likes::object_count;
pub use standing::Standing;
pub use window_tests::{
    Spans, is_read, is_written, pairs_are_told, places_in_windows, slots_in_lockstep,
};
