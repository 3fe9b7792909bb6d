// A fault beside others.

use slot_laws::FaultInSlot;
use v_design::Fault;

/// A fault that goes through a slot beside others: what goes on of it, the moment of the window up to which events leave alone what is kept of it, and whether it still goes in
/// lockstep.
#[derive(Drop)]
pub struct FaultBeside {
    pub fault: Fault,
    pub one: FaultInSlot,
    pub until: u32,
    pub goes: bool,
}
