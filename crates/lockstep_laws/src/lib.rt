//! A faulty machine in lockstep with the good one within a slot (IEEE 1364-2001, clause 5).
//!
//! In lockstep the faulty state is the good one but for values and for what pending updates write: each process does the same in both, its updates are due at the same
//! times, and as many are in its lane. So both take the same next event and the same turns, and hold the same entries where a phase begins. Events of the good machine
//! that touch no difference are the faulty machine's too, and leave the differences; behind events that each machine took for itself only what changed has to be looked
//! at; and where the good slot ends the faulty one does. Between slots differences in values, and in updates that are due at the good ones' times, lead into lockstep,
//! and are what it leaves. Each function here does nothing when it runs; its contract is the law.
#![tactic(auto)]

ghost use Rattle.lockstep_laws.specs.Phases.{PhasesFit};
ghost use Rattle.lockstep_laws.specs.Lockstep.{LockstepIsBeside, LockstepHolds};
ghost use Rattle.lockstep_laws.specs.Turning.{LockstepTurns};
ghost use Rattle.lockstep_laws.specs.Passing.{LockstepPasses};
ghost use Rattle.lockstep_laws.specs.Blocks.{LockstepBlocks, LockstepRests, ChangesAddUp};
ghost use Rattle.lockstep_laws.specs.Slots.{LockstepEnds, LockstepBegins, LockstepStops, NothingBecomesSame};
ghost use Rattle.lockstep_laws.specs.Moments.{LockstepGoesOn};

/// A state within a phase that began as the laws ask has a part for each part of the design, each value as wide as its object, and settled nets where no node has work.
pub fn phases_fit()
    ensures { PhasesFit }
{}

/// States in lockstep stand side by side, so that the first order takes one next event in both, and a phase that begins in them holds the same entries.
pub fn lockstep_is_beside()
    ensures beside { LockstepIsBeside }
    ensures held { LockstepHolds }
{
    copy_laws::untouched();
    copy_laws::moves();
}

/// In lockstep no event is possible in the faulty machine where none is in the good one, both come to the same turn, and any turn leaves them in lockstep.
pub fn lockstep_turns()
    ensures { LockstepTurns }
{
    lockstep_is_beside();
}

/// In lockstep the faulty machine takes what the good one's first order takes without touching a difference: each event does alike, and the differences stay.
pub fn lockstep_passes()
    ensures { LockstepPasses }
{
    phases_fit();
    lockstep_is_beside();
    copy_laws::untouched();
    copy_laws::free_events();
    copy_laws::quiet_phases();
    copy_laws::moves();
    order_laws::nodes_rest();
}

/// Behind events that each machine took for itself both are in lockstep where what they changed is, whatever else there is; where no node has work behind them, nothing
/// has to be known of nodes. What several events change adds up.
pub fn lockstep_blocks()
    ensures blocks { LockstepBlocks }
    ensures rests { LockstepRests }
    ensures changes { ChangesAddUp }
{
    copy_laws::moves();
    copy_laws::own_runs();
}

/// Where the good slot ends in lockstep the faulty one does, is not hyperactive, and is fine where none of its phases has a race.
pub fn lockstep_ends()
    ensures { LockstepEnds }
{
    lockstep_turns();
    machine_laws::slot_ends();
}

/// From differences between slots in values, and in updates that are due at the good ones' times, both machines begin their next slots in lockstep; and at a slot's end
/// what is kept in lockstep are such differences.
pub fn lockstep_stands()
    ensures begins { LockstepBegins }
    ensures stops { LockstepStops }
{
    lockstep_is_beside();
    copy_laws::rests();
}

/// Where nothing that is kept is the good machine's, nothing becomes so but where the differences are set anew.
pub fn nothing_becomes_same()
    ensures { NothingBecomesSame }
{}

/// Moment by moment of a slot of each machine: lockstep begins with the slots, passes over events that touch no difference, stands behind events that each machine took
/// for itself and behind turns, and both slots end in it.
pub fn lockstep_goes_on()
    ensures { LockstepGoesOn }
{
    lockstep_is_beside();
    lockstep_turns();
    lockstep_passes();
    lockstep_blocks();
    lockstep_ends();
    machine_laws::slot_goes_on();
    machine_laws::stretches_go_on();
    machine_laws::slot_ends();
}
