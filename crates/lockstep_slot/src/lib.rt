//! Faulty machines through one slot in lockstep with the good one (slots, phases and blocks by IEEE 1364-2001, clause 5).
//!
//! `enter_slot` makes of a fault's copy what goes on of it within a slot, and `all_through_slot` takes all faults that entered a slot of a window through it, side by side: the
//! room goes once from phase to phase (`lockstep_phase`); turns lead from one to the next, and by each the own nonblocking updates that are due go into lanes as the good
//! machine's do. Main contract: of each fault that still goes behind the slot, the copy stands in lockstep there; the others left lockstep, and are to be run whole through the
//! slot, from the copies that they entered with. The counter rises by at most the process steps that the faults took themselves, which each fault keeps in `tried`: these are own steps of the
//! faulty machine's slot.
#![tactic(auto)]

mod enter;
mod slot;

pub use enter::{enter_slot, rests};
pub use lockstep_phase::{
    FaultBeside, FaultInSlot, LockstepRoom, LockstepWindow, NextTouches, first_slot_goes_on,
};
pub use slot::all_through_slot;
