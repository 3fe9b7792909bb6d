//! How many runs of a process ended in a phase of one machine, told by another machine's numbers (process runs by IEEE 1364-2001, clause 9; phases by clause 5).
//!
//! A faulty machine beside the good one ends as many runs of each process in a phase as that, but for a few, which are listed (`RunApart`): so no table of its own is kept. `RunNumbers` has the
//! good machine's numbers beside such a list, and `number` tells the faulty machine's of one process. `list_run` lists one run more; a run of the one machine and one of the other, of one process, cancel.
#![tactic(auto)]

mod numbers;

pub use numbers::{RunApart, RunNumbers, list_run};
