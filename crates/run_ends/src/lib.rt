//! The ends of the process runs of a slot, as a machine notes them and a trace keeps them (IEEE 1364-2001, clauses 5 and 9).
//!
//! A run of a process goes from where it became ready to where it waits, sleeps, is postponed or is done. `AreRunEnds` says that a list has the end of each run of a
//! slot's phases, in the order in which the runs end: its phase, numbered from 1, its process, where that stands then, what the run appended and wrote, and each of its
//! steps: its line, what it did and read, and what the process did before it. The function here does nothing when it runs; its contract is the law.
#![tactic(auto)]

ghost use Rattle.run_ends.specs.RunEnds.{RunEndsAreFixed};

/// The ends of a slot's runs are one list: two lists of them tell the same, place by place.
pub fn run_ends_are_fixed()
    ensures { RunEndsAreFixed }
{}
