//! Strobes between the slots of a window, slot by slot (strobes by the plan; slots by IEEE 1364-2001, clause 5).
//!
//! A fault that leaves lockstep at a slot of a window is run through this slot alone. `strobes_of_slot` makes what it is graded beside there: the good machine's samples at
//! the strobes behind the slot before, up to the slot's time. Its main contract: they are those of a window that has this slot alone, and behind them so many strobes passed
//! as come up to the slot's time. `strobes_by` counts the plan's strobes up to a time, `strobes_before` those up to the slot before one.
//!
//! A fault that goes in lockstep needs no machine at strobes: `see_to` grades it at those up to a time by the good machine's values before a slot, with its copy's over them.
//! Its main contract: behind so many strobes the grading goes on as the answer tells, or ends at the time of the first hard detection. Strobes between two slots all see the
//! same bits, so they are compared once, and only where the copy keeps a watched object's value: `copy_pass::is_unseen` says that it keeps none.
#![tactic(auto)]

mod before;
mod bits;
mod count;
mod seen;
mod slot;

pub use before::strobes_before;
pub use count::strobes_by;
pub use lockstep_shards::{
    Machine, ShardFault, WindowStrobes, begin_fault, copies_go_in_lockstep, empty_log, is_unseen,
    new_fault, new_room, next_touched, pass_over, resume_fault, runs_take_steps, searches_begin,
    shards_go_in_lockstep, strobes_after, strobes_of,
};
pub use seen::{Judged, Seen, judge_to, see_to};
pub use slot::strobes_of_slot;
