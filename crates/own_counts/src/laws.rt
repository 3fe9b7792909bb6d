// Counters of own steps.

ghost use Rattle.own_counts.specs.Counts.{OwnStepsCount};
ghost use Rattle.own_counts.specs.Joins.{OwnStepsJoin};
ghost use Rattle.own_counts.specs.Slots.{OwnStepsOfPhases, OwnStepsOfSlots, NumbersGoOn};

/// What each event of a phase makes of a counter of own steps, and that it stays below them.
///
/// It does nothing when it runs.
pub fn own_steps_count()
    ensures { OwnStepsCount }
{
    copy_laws::own_runs();
}

/// Bounds by own steps of phases, slots and stretches of slots join, one behind the other.
///
/// It does nothing when it runs.
pub fn own_steps_join()
    ensures { OwnStepsJoin }
{}

/// A counter of own steps as a phase and a slot go on, by whole stretches of events: none of the phase's runs is followed, so each ticks as an own one or not at all.
///
/// It does nothing when it runs.
pub fn own_steps_of_slots()
    ensures phases { OwnStepsOfPhases }
    ensures slots { OwnStepsOfSlots }
{
    own_steps_count();
    own_steps_join();
}

/// How many runs of each process ended in a phase of the faulty machine, beside those of the good machine's.
///
/// It does nothing when it runs.
pub fn run_numbers_go_on()
    ensures { NumbersGoOn }
{
    phase_blocks::blocks_are_told();
}
