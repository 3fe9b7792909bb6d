// What is kept within a slot, over turns and at the slot's end.

ghost use Rattle.lockstep_copy.specs.Laws.{LanesTellTurns, KeptEnds};

/// What a turn does to own updates is told by the good process's lane behind it.
///
/// It does nothing when it runs.
pub fn lanes_tell_turns()
    ensures { LanesTellTurns }
{}

/// What is kept where a slot ends is the copy behind it.
///
/// It does nothing when it runs.
pub fn kept_ends()
    ensures { KeptEnds }
{}
