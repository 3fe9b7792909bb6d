//! What is known of a faulty machine's slots that are run beside a window of the good first run (slots by IEEE 1364-2001, clause 5; steps by clause 9).
//!
//! Between two slots of a window a faulty machine may have any number of slots of its own. Each is run beside the good machine's slot of the same time, if that has one: a window tells
//! which (`good_trace::WindowSlots`). In the slot behind which lockstep was left, the faulty machine took steps already; `MayTry` of specs/Tried says what is known of these. `slots_are_known`
//! is the law: up to the time to which faults are graded in the window each slot of the good machine is told, and what was taken counts within its stretch. The function does nothing
//! when it runs; its contract is the law.
#![tactic(auto)]

ghost use Rattle.window_beside.specs.Known.{SlotsAreKnown};

/// What a window tells of the good machine's slots beside those of a faulty machine, and the steps that were taken in one of these.
pub fn slots_are_known()
    ensures { SlotsAreKnown }
{
    order_laws::first_run_goes_on();
    beside_laws::good_run_goes_on();
    machine_laws::slot_goes_on();
    own_counts::own_steps_count();
    own_slots::tried_steps_go_on();
}
