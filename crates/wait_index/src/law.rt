// What the index is for.

ghost use Rattle.wait_index.specs.Waits.{WaitsStay};

/// In every run each process waits, and may wait yet, on objects of its body alone; a change of an object wakes no process but those that may wait on it.
#[tactic(auto, using(crate::specs::WaitLaws::waits_stay))]
pub fn waits_stay()
    ensures { WaitsStay }
{}
