//! Slots of a faulty machine in lockstep with the good one's (slots and phases by IEEE 1364-2001, clause 5).
//!
//! In lockstep what the faulty machine has otherwise are values, and what some processes have yet to write. A place in the good slot stands between two of its blocks: there
//! it is known with what the faulty machine stands, and by which blocks it came there. Blocks that leave what is kept alone are passed over; of others each machine takes
//! its own, and they are compared; a phase has no race by what its own blocks do; turns begin the next phase of both; and where the good slot ends the faulty one does, and
//! is fine. Whoever goes so through the good slot needs nothing of the faulty one but its own blocks. Each function here does nothing when it runs; its contract is the law.
#![tactic(auto)]

ghost use Rattle.lockstep_slots.specs.Pairs.{NoMarksLeaveNone};
ghost use Rattle.lockstep_slots.specs.Standing.{SlotsInLockstep};
ghost use Rattle.lockstep_slots.specs.Told.{ToldBlocksRun};

/// Where nothing is marked, nothing is left open of a phase.
pub fn no_marks()
    ensures { NoMarksLeaveNone }
{
    block_filter::blocks_suffice();
}

/// A slot of both machines from its beginning to its end.
pub fn slots_in_lockstep()
    ensures { SlotsInLockstep }
{
    lockstep_index::index_tells_free();
    lockstep_index::writes_pass();
    lockstep_laws::phases_fit();
    lockstep_laws::lockstep_is_beside();
    lockstep_laws::lockstep_goes_on();
    lockstep_laws::nothing_becomes_same();
    phase_blocks::blocks_are_told();
    phase_order::phases_follow();
    block_causes::causes();
    block_filter::blocks();
    block_filter::blocks_suffice();
    machine_laws::stretches_go_on();
    copy_laws::moves();
}

/// A block of each machine, by the sets of what it writes, steps and wakes.
pub fn told_blocks_run()
    ensures { ToldBlocksRun }
{
    slots_in_lockstep();
    lockstep_laws::phases_fit();
    lockstep_laws::lockstep_blocks();
    block_changes::events_are_told();
}
