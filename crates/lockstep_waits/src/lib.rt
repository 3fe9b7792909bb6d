//! The waits of a run are those of the texts of its processes (IEEE 1364-2001, clause 9.7: event controls and `wait`).
//!
//! What a phase accesses besides reads and writes are entries of waits: those that begin, end or are held. Each of them is on an object that an event control of some process
//! names, or the condition of one of its waits (`only_texts_wait`). `AwaitedObjects` has a flag for each object of a design that says whether there is such a text. And a process
//! that waits behind a block in which it took a step began that wait in the block (`waits_are_begun`). The functions that aren't of the table do nothing when they run;
//! their contracts are the laws.
#![tactic(auto)]

mod awaited;

ghost use Rattle.lockstep_waits.specs.Begun.{LastWaitsAreBegun, LastWaitsAreLike};
ghost use Rattle.lockstep_waits.specs.Texts.{OnlyTextsWait, WaitsGoOn};

pub use awaited::AwaitedObjects;

/// Each access of a wait is on an object on which some process may wait, from each state of a run on.
pub fn only_texts_wait()
    ensures accesses { OnlyTextsWait }
    ensures runs { WaitsGoOn }
{
    wait_index::waits_stay();
}

/// The wait that a process is in behind events among which it took a step began among them.
pub fn waits_are_begun()
    ensures begun { LastWaitsAreBegun }
    ensures like { LastWaitsAreLike }
{}
