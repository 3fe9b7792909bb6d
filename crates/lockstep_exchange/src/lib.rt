//! A machine becomes a faulty one in lockstep with the good one, and the good one again (slots by IEEE 1364-2001, clause 5; nonblocking updates by clause 9.2.2).
//!
//! In lockstep a faulty machine's state is the good one's with own values and own updates. A runner in the good state becomes the faulty machine by `put_in`, runs a block,
//! and becomes the good one again by `take_out`; both touch what is kept alone, and of updates those of the processes that act in the block: no event sees what others have yet to
//! write (`unseen_writes`). The good state is shown part by part (`ShownState`). Main contract: behind `put_in` the runner is the faulty machine, in a state that has all values of
//! its own, and the updates of those processes; and behind `take_out` it is the good machine in the state that is shown: all that is asked is that the states are one but for the
//! objects of which a value is kept.
#![tactic(auto)]

mod put;
mod shown;
mod take;

pub use block_events::Runner;
pub use lockstep_copy::{LockstepCopy, begin_slot, kept_ends, lanes_tell_turns, turn_writes};
pub use put::put_in;
pub use shown::ShownState;
pub use take::take_out;
