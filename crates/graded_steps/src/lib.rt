//! How many process steps a first run takes up to where it stands, and which slots are ahead of it (steps by IEEE 1364-2001, clause 9; slots by clause 5).
//!
//! Between two windows a fault stands behind some slots of its faulty machine's first run. `runs_take_steps` says which slots are ahead of a run that stands at a time, and how many
//! steps lie between two such places; `slots_lie_between` which slots of the run lie between two times. Each function here does nothing when it runs; its contract is the law.
#![tactic(auto)]

ghost use Rattle.graded_steps.specs.Ahead.{RunsTakeSteps};
ghost use Rattle.graded_steps.specs.Between.{SlotsLieBetween};

/// A first run slot by slot: which slots are ahead where it stands, and how many process steps lie between there and the start.
pub fn runs_take_steps()
    ensures { RunsTakeSteps }
{
    order_laws::first_run_goes_on();
}

/// Between where a first run stands and the time of its next slot lies this slot alone, and up to an earlier time none.
pub fn slots_lie_between()
    ensures { SlotsLieBetween }
{}
