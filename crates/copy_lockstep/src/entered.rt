// What becomes of a fault at a slot.

use crate::reached::Reached;
use lockstep_slot::FaultInSlot;

/// A fault that enters a slot in lockstep: what goes on of it there, how many of the plan's strobes come before the slot, and the time, in steps, of the first possible
/// detection among them, if they judged the fault and there was one.
#[derive(Drop)]
pub struct Entering {
    pub one: FaultInSlot,
    pub passed: usize,
    pub possible: Option<u64>,
}

/// What becomes of a fault at a slot: it is passed over slots that touch nothing of its copy, its grading ended before the slot's time, the slot has to be run whole, or it
/// enters the slot in lockstep.
#[derive(Drop)]
pub enum Entered {
    Passed(Reached),
    Ended,
    Whole,
    On(Entering),
}
