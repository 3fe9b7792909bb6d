//! A fault at the slots of a window in lockstep with the good machine (strobes by the plan; slots by IEEE 1364-2001, clause 5).
//!
//! Of most faults little differs, and what differs goes the good machine's way: then a slot needn't be run whole. `enter` says what becomes of a fault at a slot: slots that
//! touch nothing of its copy are passed over; else it enters the slot, if its copy may go in lockstep, after the strobes before the slot's time have seen the good machine's
//! values with the copy's over them. The slot itself is gone through beside other faults (`lockstep_slot`); `leave_slot` takes up the fault behind it, with the strobes at the
//! slot's time, and `leave_first` behind the first slot of the run, before which no strobe comes. A fault whose samples are kept isn't ended by strobes: those before the slot
//! are only counted as it enters, and are seen as it leaves, with the copy that it had. The main contract: the fault stands as a fault of a shard does, behind the slots over which
//! it was passed or through which it came, and behind the slot before which its grading ended; where the slot has to be run whole, it is as it was.
//! Behind the last slot of the good first run its grading ends with the strobes up to the plan's end; a slot that is the good machine's stop isn't gone through in lockstep.
//! `slots_take_own` says that the steps that a fault took itself in a slot that it entered, however far it went there, are at most its own steps there.
#![tactic(auto)]

mod before;
mod behind;
mod entered;
mod first;
mod last;
mod pass;
mod reached;
mod steps;

pub use before::enter;
pub use behind::leave_slot;
pub use entered::{Entered, Entering};
pub use first::leave_first;
pub use last::end_of_lockstep;
pub use lockstep_due::{
    FaultAt, Machine, ShardFault, WindowStrobes, begin_each, begin_fault, comes_to, count_behind,
    empty_log, listed_fault, new_fault, new_room, run_whole, searches_begin, strobes_of,
};
pub use lockstep_slot::{
    FaultBeside, FaultInSlot, LockstepRoom, LockstepWindow, NextTouches, all_through_slot,
    enter_slot, rests,
};
pub use reached::Reached;
pub use steps::slots_take_own;
