//! Slots of the good machine that are the faulty machine's slots (slots by IEEE 1364-2001, clause 5).
//!
//! A copy of a faulty machine is, between two slots, the good machine's state with some differences. Where no event of the good machine touches one of these, and each
//! process of which the copy keeps something sleeps on in both machines, the faulty machine makes the good machine's slots: they are fine, and leave the differences as
//! they are. So a copy passes over such slots, however many they are, for nothing; `quiet_slots_pass` is that law. `strobes_see` says what the strobes in between see
//! of the faulty machine: the good values with the own ones. Each function here does nothing when it runs; its contract is the law.
#![tactic(auto)]

ghost use Rattle.quiet_slots.specs.FirstSlots.{FirstSlotsStand};
ghost use Rattle.quiet_slots.specs.Quiet.{QuietSlotsPass};
ghost use Rattle.quiet_slots.specs.Strobes.{StrobesSeeCopies};

/// How the slots of a first run begin and end: each begins as the laws of its phases ask, and at the end of one that isn't hyperactive nothing is left to do before
/// time moves on.
pub fn first_slots_stand()
    ensures { FirstSlotsStand }
{
    order_laws::slots();
    order_laws::nets();
    order_laws::first_run_goes_on();
    machine_laws::slot_goes_on();
    machine_laws::stretches_go_on();
}

/// Slots of the good machine in which nothing touches what differs in a faulty machine are the faulty machine's slots.
pub fn quiet_slots_pass()
    ensures { QuietSlotsPass }
{
    first_slots_stand();
    copy_laws::untouched();
    copy_laws::free_events();
    copy_laws::quiet_phases();
    copy_laws::moves();
    copy_laws::turns();
    copy_laws::rests();
    copy_laws::own_runs();
    order_laws::nodes_rest();
    order_laws::first_run_goes_on();
    machine_laws::slot_goes_on();
    machine_laws::stretches_go_on();
    machine_laws::slot_ends();
    beside_laws::runs_go_on();
    beside_laws::runs_stand();
}

/// What the strobes see of a faulty machine whose state is the good one's with differences.
pub fn strobes_see()
    ensures { StrobesSeeCopies }
{
    beside_laws::runs_stand();
}
