//! Where a first run stands between its slots (slots by IEEE 1364-2001, clause 5).
//!
//! A machine may be put into a state between two slots of its first run. `states_stand` is the law that the state of a first run at each time up to which the run doesn't
//! stop is such a state: no event and no turn within a slot is possible there, each process waits for entries of its body alone and wakes later, and the next slot begins as
//! the laws of its phases ask. The function does nothing when it runs; its contract is the law.
#![tactic(auto)]

ghost use Rattle.run_stands.specs.Standing.{StatesStandBetween};

pub use machine::Machine;

/// The state of a first run between two of its slots is one into which a machine may be put.
pub fn states_stand()
    ensures { StatesStandBetween }
{
    order_laws::first_run_goes_on();
    quiet_slots::first_slots_stand();
    beside_laws::runs_go_on();
    beside_laws::runs_stand();
    copy_laws::own_runs();
}
