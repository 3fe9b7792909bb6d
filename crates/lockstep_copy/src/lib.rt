//! What is kept of a faulty machine in lockstep within a slot (slots by IEEE 1364-2001, clause 5; nonblocking updates by clause 9.2.2).
//!
//! In lockstep a faulty machine differs in values, and in what some processes have yet to write: their pending updates and those in their lanes. A `LockstepCopy` begins
//! with the copy that was kept before the slot. `keep_value` and `keep_writes` compare an own value, or what a process has yet to write, with the good machine's, and keep
//! it just where it isn't the same; `turn_writes` does what a turn does to it. Main contract: what is kept then, as the laws on lockstep see it, is what each call says, and
//! nothing else has changed; at the slot's end it is the copy behind the slot.
#![tactic(auto)]

mod keep;
mod laws;
mod own;
mod same;
mod turn;

pub use keep::{keep_value, keep_writes};
pub use laws::{kept_ends, lanes_tell_turns};
pub use own::{LockstepCopy, begin_slot};
pub use turn::turn_writes;
