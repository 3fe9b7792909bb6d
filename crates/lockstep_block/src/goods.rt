// The good machine's runs of the present phase.

ghost use Rattle.std.specs.Prelude.{◌+◌, ◌<◌};
ghost use Rattle.lockstep_block.specs.Runs.{IsGoodPhase, IsPlaceShown};
ghost use Rattle.good_moment.specs.moment_laws.Places.{IsShownAt};
ghost use Rattle.lockstep_steps.specs.lockstep_slots.Places.{Place};

use faulty_block::GoodPhase;
use good_moment::GoodMoment;
use good_trace::TraceWindow;
use run_numbers::{RunApart, RunNumbers};
use v_design::World;

/// The good machine's runs of the phase that a moment is in, with the numbers of those that ended in the faulty machine, beside which some runs ended in one machine alone.
pub(crate) fn good_phase<'a, N: World>(
    window: &'a TraceWindow<N>,
    before: &'a GoodMoment<N>,
    apart: &'a [RunApart],
) -> GoodPhase<'a>
    requires shown { IsPlaceShown N.design N.plan window.now.before window.now.through before.now }
    requires slot { window.now.before + before.now.slot < window.now.through }
    ensures { (place : Place) → IsShownAt N.design N.plan place before.now → IsGoodPhase N.design place before.now apart.now result }
{
    // The window has the phase, and so a number for the next one.
    let _phases = window.phases();
    let slot = before.slot();
    let first = window.phases_before(slot);
    let phase = before.phase();
    let ran = before.standing().ran.as_slice();
    GoodPhase {
        goods: window.phase_runs(phase + 1),
        numbers: RunNumbers { ran, apart },
        phase: phase - first,
    }
}
