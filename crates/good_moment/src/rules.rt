// The rules that a setup's design keeps.

ghost use Rattle.v_design.specs.WellFormed.{KeepsRules};

use good_trace::Setup;
use v_design::World;

/// The design keeps its rules.
///
/// It does nothing when it runs.
pub(crate) fn keeps_rules<N: World>(setup: &Setup<'_, N>)
    ensures { KeepsRules N.design }
{
    let _design = setup.design();
}
