// What comes next of the good first run.

ghost use Rattle.std.specs.Prelude.{◌≡◌, ℕ, IfOk, OnOk};
ghost use Rattle.run_trace.specs.Windows.{AreBeside};
ghost use Rattle.good_windows.specs.Next.{GivesNext};
ghost use Rattle.good_windows.specs.Stages.{IsLast};
ghost use Rattle.good_windows.specs.Puts.{IsGathered};

use crate::fill::Filled;
use crate::stage::{Stage, ending};
use run_trace::{RunTrace, RunWindow};
use v_design::World;
use vf_base::NoMemory;

/// What comes next of the good first run of the world `N`: a window; nothing, since all its slots stand in windows; or a slot that is hyperactive and begins at this
/// time, in steps, after which the run doesn't go on.
#[derive(Drop)]
pub enum NextWindow<N: World> {
    Window(RunWindow<N>),
    Over,
    Loops(u64),
}

/// What comes next where no slot was put into the trace.
fn last_by<N: World>(stage: Stage) -> NextWindow<N>
    ensures { (number : ℕ) → IsLast N.design N.plan number stage → GivesNext N.design N.plan number result number }
{
    match stage {
        Stage::Looped(time) => NextWindow::Loops(time),
        _ => NextWindow::Over,
    }
}

/// What comes next, by the slots that were put into the trace. The memory of a window that is done with is used again, if one is given.
///
/// # Errors
///
/// Want of memory.
pub(crate) fn give<'s, 'd, N: World>(
    run: &mut RunTrace<'s, 'd, N>,
    filled: Filled,
    used: Option<RunWindow<N>>,
) -> Result<NextWindow<N>, NoMemory>
    requires gathered { IsGathered N.design N.plan run.old.trace filled }
    requires beside { AreBeside run.old }
    ensures next { IfOk result (λ next. GivesNext N.design N.plan run.old.trace.closed next run.old.trace.pushed) }
    ensures closed { OnOk result (run.new.trace ≡ record run.old.trace { closed = run.old.trace.pushed }) }
    ensures beside { OnOk result (AreBeside run.new) }
{
    if filled.some {
        let window = run.close_window(ending(filled.stage), used)?;
        return Ok(NextWindow::Window(window));
    }
    Ok(last_by(filled.stage))
}
