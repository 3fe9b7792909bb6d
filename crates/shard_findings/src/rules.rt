// The rules that a setup's design and plan keep.

ghost use Rattle.v_design.specs.WellFormed.{KeepsRules, IsPlan};

use good_trace::Setup;
use v_design::World;

/// The design and the plan of a setup keep the rules of all designs and plans. It does nothing when it runs.
pub fn rules_hold<N: World>(setup: &Setup<'_, N>)
    ensures { KeepsRules N.design × IsPlan N.plan }
{
    let _design = setup.design();
    let _plan = setup.plan();
}
