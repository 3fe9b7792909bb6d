//! A fault passes over the first slots of a window of the good first run that touch nothing of its copy (slots by IEEE 1364-2001, clause 5).
//!
//! Of most faults little is kept between two windows, and what is kept is often left alone by all events of a window, or of its first slots. Then the faulty machine makes
//! the good machine's slots, and needn't be run. `pass_over` finds that out by a few searches in the window's indexes. Its main contract: behind the slots that it answers
//! the fault stands as a fault of a shard does, with the copy that it had; with none of them it is as it was. It passes over slots with copies that keep values alone, and
//! none of a watched object, so that no strobe shows anything new. Behind the last window the strobes so far, or the good machine's race, end the fault's grading.
#![tactic(auto)]

mod alone;
mod pass;
mod seen;

pub use copy_skip::{next_touched, searches_begin};
pub use copy_window::{
    ShardFault, WindowStrobes, begin_fault, empty_log, good_bits, new_fault, new_room,
    resume_fault, runs_take_steps, strobes_after, strobes_of,
};
pub use pass::pass_over;
pub use run_stands::{Machine, states_stand};
pub use seen::{is_unseen, keeps_value};
