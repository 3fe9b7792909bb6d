//! The process steps of a slot as it goes on (steps by IEEE 1364-2001, clause 9; slots by clause 5).
//!
//! Whoever takes the events of a slot in any parts, and ticks a counter for some of its process steps, wants to know that these are no more than the slot has.
//! `slot_steps_go_on` says how many process steps a slot has at each of its moments: events add theirs, a turn adds none, at each moment
//! they are at most those of the whole slot, also with further events that go one step beyond the most that a slot has, and at the end they are all. The function does nothing
//! when it runs; its contract is the law.
#![tactic(auto)]

ghost use Rattle.slot_steps.specs.Laws.{SlotStepsGoOn};

/// The process steps of a slot from moment to moment.
pub fn slot_steps_go_on()
    ensures { SlotStepsGoOn }
{
    machine_laws::stretches_go_on();
}
