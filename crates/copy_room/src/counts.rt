// How many parts a design has.

ghost use Rattle.std.specs.Prelude.{◌≡◌, length};
ghost use Rattle.run_ends.specs.RunEnds.{AreCodesOf};
ghost use Rattle.v_design.specs.WellFormed.{KeepsRules};

use good_trace::Setup;
use v_design::World;

/// How many objects and how many processes a design has.
#[derive(Clone, Copy, Debug)]
pub(crate) struct Counts {
    pub(crate) objects: u32,
    pub(crate) processes: u32,
}

/// Those of a setup's design, which keeps its rules.
pub(crate) fn counts_of<N: World>(setup: &Setup<'_, N>) -> Counts
    ensures objects { result.objects ≡ length N.design.objects }
    ensures processes { result.processes ≡ length N.design.processes }
    ensures rules { KeepsRules N.design }
    ensures codes { AreCodesOf N.design setup.now.codes }
{
    let _codes = setup.codes();
    let design = setup.design();
    Counts {
        objects: design.objects.as_slice().len() as u32,
        processes: design.processes.as_slice().len() as u32,
    }
}
