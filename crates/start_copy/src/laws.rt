// What follows from what a copy keeps at the start.

ghost use Rattle.start_copy.specs.Start.{StartsInLockstep};

/// A copy that keeps what the faulty machine has otherwise than the good one at the start stands for its state there, and in lockstep with the good machine. The function does nothing when it
/// runs; its contract is the law.
pub fn starts_in_lockstep()
    ensures { StartsInLockstep }
{}
