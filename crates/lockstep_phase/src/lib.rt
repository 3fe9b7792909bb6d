//! The faulty machines of a shard through one phase in lockstep with the good one (phases and blocks by IEEE 1364-2001, clause 5).
//!
//! `all_through_phase` takes faults through a phase of a slot of a window, beside one another over one room of the good machine. Blocks that leave alone what is kept of each fault are
//! passed over at once, as the window's indexes tell; where a block may touch what is kept of some, these faulty machines take blocks of their own, one after the other, before the
//! room goes over the good machine's; behind the last block the race filter is asked of each. Main contract: a fault that still goes in lockstep then is at the phase's end with
//! the room, and the phase has no race in its faulty machine.
#![tactic(auto)]

mod filter;
mod own;
mod pass;
mod phase;

pub use lockstep_turn::{
    FaultBeside, FaultInSlot, LockstepRoom, LockstepWindow, NextTouches, begin_slot,
    first_slot_goes_on, kept_ends, lanes_tell_turns, own_steps_go_on, slots_are_counted, stand_at,
    steps_go_on, take_turn, turn_each,
};
pub use phase::all_through_phase;
