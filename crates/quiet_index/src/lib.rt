//! What an index of the good machine's events has to tell, so that slots touch no copy (slots by IEEE 1364-2001, clause 5).
//!
//! A copy keeps what of a faulty machine isn't the good one's. `index_tells_quiet` is the law that slots of the good machine touch nothing of a copy that keeps values alone
//! where each of their events leaves it alone: none reads or writes an object that differs, or the fault's variable, and none evaluates the fault's node or a node that
//! reads such an object. That is told by indexes of the events by object and by node. `copies_pass_over` says what follows, by the numbers of the slots: up to the slot before which all leave the copy
//! alone, the faulty machine goes on with the good one, and its differences stay. Each function here does nothing when it runs; its contract is the law.
#![tactic(auto)]

ghost use Rattle.quiet_index.specs.Indexed.{IndexTellsQuiet};
ghost use Rattle.quiet_index.specs.PassOver.{CopiesPassOver};

/// Slots whose events leave a copy alone touch nothing that differs.
pub fn index_tells_quiet()
    ensures { IndexTellsQuiet }
{
    copy_laws::free_events();
    order_laws::nodes_rest();
    order_laws::settling_ends();
    quiet_slots::first_slots_stand();
    beside_laws::runs_stand();
}

/// A copy that keeps values alone is passed over slots whose events leave it alone: up to the next slot the faulty machine doesn't stop, and at each time its state is
/// the good one's with the same differences.
pub fn copies_pass_over()
    ensures { CopiesPassOver }
{
    order_laws::first_run_goes_on();
    quiet_slots::quiet_slots_pass();
    index_tells_quiet();
}
