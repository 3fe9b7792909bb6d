//! Where the processes of a machine stand at each moment of its runs (IEEE 1364-2001, clauses 5 and 9).
//!
//! A table of processes may be put into any state in which each process waits for entries of its body alone, wakes later, and has no update that was due before. So it is
//! at the start of a run; events and turns leave it so. `moments_stand` does nothing when it runs; its contract is the law.
#![tactic(auto)]

ghost use Rattle.moments_stand.specs.Standing.{MomentsStand};

/// Each process may stand where it does, at each moment of a run.
pub fn moments_stand()
    ensures { MomentsStand }
{}
