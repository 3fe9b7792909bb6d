//! Own steps of a slot, kept one by one (slots and phases by IEEE 1364-2001, clause 5; steps by clause 9).
//!
//! A faulty machine that goes in lockstep keeps the steps that it took itself (`good_runs::TriedStep`): specs/Slots says which these are of a slot so far, and that they are at most the own steps of
//! the whole slot (`tried_steps_go_on`). Where lockstep is left, the slot is run again from its beginning, by the same first order: so these steps come again, in the same order, and needn't be taken
//! a second time. specs/Again says what stands in such a second run, and `second_runs` what each event makes of it: a step at the place of the next one that was kept is that one, and what ticks
//! besides counts as own with them.
#![tactic(auto)]

ghost use Rattle.own_slots.specs.Again.{SecondRuns};
ghost use Rattle.own_slots.specs.Slots.{TriedStepsGoOn};

/// The steps that a faulty machine took itself, as a slot goes on.
///
/// It does nothing when it runs.
pub fn tried_steps_go_on()
    ensures { TriedStepsGoOn }
{
    own_counts::own_steps_count();
    own_counts::own_steps_of_slots();
}

/// A slot that is run again, event by event.
///
/// It does nothing when it runs.
pub fn second_runs()
    ensures { SecondRuns }
{
    copy_laws::own_runs();
    own_counts::own_steps_count();
    own_counts::own_steps_of_slots();
    machine_laws::slot_goes_on();
}
