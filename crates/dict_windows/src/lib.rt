//! What is kept of the full grades of the faults that stand for their classes, beside the good first run window by window (slots by IEEE 1364-2001, clause 5).
//!
//! `keep_faults` runs the good machine once, a window at a time, and takes the shards of these faults through each window, on the calling thread (`kept_shard`); what the plan's
//! strobes see of the good machine is put together window by window. Its main contract: it tells the time of the good machine's loop exactly where that loops before a race of its
//! own; else it gives the good machine's samples before its race, says whether there is one, and gives of each of the faults, in list order, what is kept of its full grade. The
//! counter rises by no more than the process steps of the good first run and the own steps of all faults, each through the end of its full grade, or to the plan's end.
#![tactic(auto)]

mod faults;
mod good;
mod keep;
mod outcome;
mod windows;

pub use keep::keep_faults;
pub use outcome::{Gathered, Outcome};
