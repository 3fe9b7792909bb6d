//! The good machine's state at a moment, and what its last block did, shown part by part (slots by IEEE 1364-2001, clause 5).
//!
//! What goes in lockstep asks for the good machine's state by traits. `ShownMoment` is such a state, lent by whoever has it: what objects hold, where processes stand, and what
//! these have pending and in their lanes. `ShownBlock` is what the block before it did. Main contract: a state that the parts are of is shown, to each of the traits.
#![tactic(auto)]

mod shown;

pub use lockstep_compare::{Processes, comparisons_tell, keep_all_writes, keep_values};
pub use lockstep_exchange::{
    LockstepCopy, begin_slot, kept_ends, lanes_tell_turns, put_in, take_out, turn_writes,
};
pub use shown::{ShownBlock, ShownMoment};
