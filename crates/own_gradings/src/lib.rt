//! The own steps of a plan's faults, as numbers (steps by IEEE 1364-2001, clause 9; slots by clause 5).
//!
//! Whether a run of a faulty machine is the good machine's is a fact that no test decides (`v_design.specs.OwnSteps`): of each run it is one or the other, but clauses that add up what
//! many faults take want numbers. `OwnStepsOf` has them, for each listed fault up to behind each slot of the good first run. The main contract of `own_steps_rise`: these numbers rise
//! from slot to slot by what the runs in between count, they stay behind the end of a fault's grading, and a bound that holds of any such numbers holds. It does nothing when it runs.
#![tactic(auto)]

ghost use Rattle.own_gradings.specs.Laws.{OwnStepsRise};

/// The own steps of faults from slot to slot of the good first run.
pub fn own_steps_rise()
    ensures { OwnStepsRise }
{
    beside_laws::good_run_goes_on();
}
