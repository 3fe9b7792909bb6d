//! Grades a fault through a window of the good first run, by its faulty machine (slots and the order of events by IEEE 1364-2001, clause 5).
//!
//! A faulty machine stands somewhere in its first run, beside the good one. `run_to` runs it through its slots up to a time, and `grade_through` does so from strobe
//! to strobe, with the good machine's samples of the window, and to the window's end. The main contract: either the machine stands at the window's end and the
//! fault's grading goes on there, or it ended by then and this is the fault's grade. Each slot is run beside the good machine's slot of the same time, whose runs it follows, and
//! beside the steps that the faulty machine took before in lockstep (`RunBeside`): the counter rises by at most the own steps of these slots, with those counted
//! (`own_steps_rise` adds up such bounds).
#![tactic(auto)]

mod beside;
mod rises;
mod run;
mod strobes;

pub use beside::RunBeside;
pub use rises::own_steps_rise;
pub use run::{machines_stand, run_to};
pub use strobes::grade_through;
