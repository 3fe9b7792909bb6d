//! What a block of the first order is, and what is told of it (IEEE 1364-2001, clause 5).
//!
//! A block is a stretch of the first order from one moment between runs to the next such moment: no node has work, and no process is in the midst of a run. So it is a
//! step of one lane with the work on nodes behind it, or a run of one process with the runs nested in it. `BlockTold` tells a block event by event; `specs/Tells` says
//! what that has to be: just what the laws on two machines beside one another ask of a block, which are all its accesses, what it changed, and which later steps of
//! processes may have their causes in it. `note_step` keeps who is in the midst of a run: the first order takes the least ready process, so a run is nested in that of
//! a greater process.
#![tactic(auto)]

mod notes;
mod running;
mod told;

pub use running::note_step;
pub use told::BlockTold;
