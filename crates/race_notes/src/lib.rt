//! What blocks of a faulty machine's own access in a phase, noted object by object (accesses by IEEE 1364-2001, clause 5).
//!
//! A faulty machine in lockstep takes most blocks as the good machine does, and some as blocks of its own. `RaceNotes` keeps of the present phase's own blocks what the
//! question whether the phase has a race needs: of each object whether they read or wrote it, how often, from which block on, and whether all their accesses are such as
//! the good machine's blocks beside them have; and which objects the blocks of either machine wrote. Main contract: `note` adds a block, and what is noted is of just the
//! blocks that were noted since `clear`. A note costs as much as the block has accesses, and clearing as much as the objects that were noted. Whether an access has its
//! like in the good machine's block the caller tells by a closure.
#![tactic(auto)]

mod access;
mod note;
mod notes;
mod spans;

pub use note::{ObjectNote, OwnSpan};
pub use notes::RaceNotes;
