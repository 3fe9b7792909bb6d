// The own steps of the slot that a fault entered in lockstep.

ghost use Rattle.copy_lockstep.specs.Steps.{SlotsTakeOwn};

/// The steps that a fault took itself in a slot that it entered in lockstep, whether it came through or left it, are at most its own steps there. The function does nothing when it
/// runs; its contract is the law.
pub fn slots_take_own()
    ensures { SlotsTakeOwn }
{
    order_laws::first_run_goes_on();
    beside_laws::good_run_goes_on();
    beside_laws::gradings_go_on();
    beside_laws::runs_go_on();
    beside_laws::windows_end();
    own_gradings::own_steps_rise();
    own_slots::tried_steps_go_on();
    lockstep_due::runs_take_steps();
    lockstep_due::copies_go_in_lockstep();
    lockstep_due::shards_go_in_lockstep();
}
