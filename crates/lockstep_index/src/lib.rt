//! What an index of the good machine's events has to tell, so that a faulty machine in lockstep takes them too (IEEE 1364-2001, clause 5).
//!
//! A faulty machine in lockstep that differs in values alone takes the events of the good machine that touch none of these (`lockstep_laws`). `index_tells_free` is the law
//! that this can be told by indexes of the events by object and by node, from any moment on at which no node has work: none reads or writes an object that differs, or the
//! fault's variable, and none evaluates the fault's node or a node that reads such an object. The function does nothing when it runs; its contract is the law.
#![tactic(auto)]

ghost use Rattle.lockstep_index.specs.Alone.{IndexTellsFree};
ghost use Rattle.lockstep_index.specs.Writes.{WritesPass};

/// Events whose index shows that they leave own values alone touch no difference.
pub fn index_tells_free()
    ensures { IndexTellsFree }
{
    copy_laws::free_events();
    order_laws::nodes_rest();
    order_laws::settling_ends();
    lockstep_laws::phases_fit();
    lockstep_laws::lockstep_is_beside();
}

/// Events that touch no own value pass also where the faulty machine has other updates yet to write, as long as the processes of these take no step.
pub fn writes_pass()
    ensures { WritesPass }
{
    copy_laws::untouched();
    copy_laws::free_events();
    copy_laws::quiet_phases();
    copy_laws::moves();
    order_laws::nodes_rest();
    lockstep_laws::phases_fit();
    lockstep_laws::lockstep_is_beside();
}
