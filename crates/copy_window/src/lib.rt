//! Takes a fault through a window of the good first run, beside the good machine (slots by IEEE 1364-2001, clause 5).
//!
//! Between two windows a fault of which nothing was found is kept by what its faulty machine's state has otherwise than the good one's, by the time of the last slot
//! that the machine ran, and by what the strobes said so far. `begin_fault` starts its faulty machine before the first slot; `resume_fault` puts the faulty machine's
//! state into a machine again. Both run it through the window's slots, up to a given one. The main contract: the fault stands as a fault of a shard does behind these
//! slots: either its grading ended, with its grade, or the copy that is kept is the faulty machine's state there, and keeps nothing that is the good machine's; and the
//! counter rose by at most the own steps of the faulty machine's slots between. `end_behind` is how a window's end ends a grading that goes on.
#![tactic(auto)]

mod begin;
mod fault;
mod grade;
mod resume;
mod settle;

pub use begin::begin_fault;
pub use fault::{ShardFault, new_fault};
pub use fault_grade::empty_log;
pub use grade::end_behind;
pub use graded_steps::runs_take_steps;
pub use resume::{new_room, resume_fault};
pub use window_strobes::{WindowStrobes, good_bits, strobes_after, strobes_of};
