//! A copy of a faulty machine from slot to slot in lockstep with the good one (slots by IEEE 1364-2001, clause 5).
//!
//! Between two slots a copy keeps values, and updates that are due at the good ones' times. Up to the next good slot it stays as it is; then both machines begin their slots
//! at one time, in lockstep, or neither has one; and where these end in lockstep, what is kept is the copy behind them. The slots themselves are those of `lockstep_slots`.
//! `copies_go_in_lockstep` does nothing when it runs; its contract is the law.
#![tactic(auto)]

ghost use Rattle.lockstep_copies.specs.Copies.{CopiesGoInLockstep};

/// A copy from slot to slot.
pub fn copies_go_in_lockstep()
    ensures { CopiesGoInLockstep }
{
    lockstep_slots::slots_in_lockstep();
    lockstep_laws::lockstep_stands();
    lockstep_laws::nothing_becomes_same();
    quiet_slots::first_slots_stand();
    beside_laws::runs_go_on();
    beside_laws::runs_stand();
    beside_laws::good_run_goes_on();
    order_laws::first_run_goes_on();
}
