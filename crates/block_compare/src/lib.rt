//! Blocks of both machines compared (blocks by IEEE 1364-2001, clause 5).
//!
//! Where a faulty machine in lockstep takes a block of its own beside the good machine's, both are compared behind it. `compare_block` asks whether both step and wake the
//! same processes, and step the same lane, and whether these processes do the same behind the blocks; and it keeps of what either block changed the own values and the own
//! updates that aren't the good machine's. Main contract: where it answers that lockstep goes on, what is kept then is what both machines differ in behind the blocks.
#![tactic(auto)]

mod alike;
mod compare;

pub use compare::compare_block;
pub use lockstep_room::{Counts, bring, follow, stand};
pub use moment_shown::{
    LockstepCopy, ShownBlock, ShownMoment, begin_slot, comparisons_tell, kept_ends,
    lanes_tell_turns, put_in, take_out, turn_writes,
};
pub use runner_writes::Runner;
