// The runs that ended in a block of both machines.

ghost use Rattle.std.specs.Prelude.{◌≡◌, ◌+◌, ◌<◌, ◌++◌, List, [], map, true, OnOk};
ghost use Rattle.vf_base.specs.Base.{process_number};
ghost use Rattle.v_design.specs.Designs.{good_machine};
ghost use Rattle.v_design.specs.States.{Event};
ghost use Rattle.run_ends.specs.RunEnds.{enders_in};
ghost use Rattle.window_runs.specs.RunsByProcess.{run_process};
ghost use Rattle.good_moment.specs.moment_laws.Places.{IsShownAt};
ghost use Rattle.lockstep_steps.specs.lockstep_slots.Places.{Place, behind_events, state_there};
ghost use Rattle.lockstep_block.specs.Runs.{ArePlacesShown, NotesEnded};

use good_moment::GoodMoment;
use good_trace::TraceWindow;
use process_code::RunEnd;
use run_numbers::{RunApart, list_run};
use v_design::World;
use vf_base::{NoMemory, ProcId};

/// The good machine's runs that ended between two moments of a phase, in the order in which they ended.
pub(crate) fn good_ended<'a, N: World>(
    window: &'a TraceWindow<N>,
    before: &GoodMoment<N>,
    behind: &GoodMoment<N>,
) -> &'a [RunEnd]
    requires shown { ArePlacesShown N.design N.plan window.now.before window.now.through before.now behind.now }
    requires slot { window.now.before + before.now.slot < window.now.through }
    ensures { (place : Place) (block rest : List Event) → IsShownAt N.design N.plan place before.now → place.left ≡ block ++ rest →
        IsShownAt N.design N.plan (behind_events block rest place) behind.now → map run_process result.now ≡ enders_in (good_machine N.design) (state_there (good_machine N.design) place) block }
{
    let slot = before.slot();
    let runs = window.runs_in(slot);
    let from = before.runs();
    let to = behind.runs();
    if to <= from {
        return &runs[..0];
    }
    let ended = &runs[from..to];
    ended
}

/// Whether runs of the same processes ended, in the same order.
fn ended_alike(own: &[ProcId], good: &[RunEnd]) -> bool
    ensures { result ≡ true → map process_number own.now ≡ map run_process good.now }
{
    if own.len() != good.len() {
        return false;
    }
    'runs: for place in 0..own.len() {
        if own[place] != good[place].process {
            return false;
        }
    }
    true
}

/// Lists each of some runs that the faulty machine ended.
fn list_own(apart: &mut Vec<RunApart>, own: &[ProcId]) -> Result<(), NoMemory>
    ensures { OnOk result (NotesEnded apart.old.items apart.new.items (map process_number own.now) []) }
{
    'runs: for process in own {
        let run = RunApart {
            process: *process,
            own: true,
        };
        list_run(apart, run)?;
    }
    Ok(())
}

/// Lists each of some runs that the good machine ended.
fn list_good(apart: &mut Vec<RunApart>, good: &[RunEnd]) -> Result<(), NoMemory>
    ensures { OnOk result (NotesEnded apart.old.items apart.new.items [] (map run_process good.now)) }
{
    'runs: for end in good {
        let run = RunApart {
            process: end.process,
            own: false,
        };
        list_run(apart, run)?;
    }
    Ok(())
}

/// Notes which runs ended in a block of the faulty machine, and which in the good machine's beside it. Nearly always these are the same, and nothing is listed.
///
/// # Errors
///
/// Want of memory.
pub(crate) fn note_ended(
    apart: &mut Vec<RunApart>,
    own: &[ProcId],
    good: &[RunEnd],
) -> Result<(), NoMemory>
    ensures { OnOk result (NotesEnded apart.old.items apart.new.items (map process_number own.now) (map run_process good.now)) }
{
    if ended_alike(own, good) {
        return Ok(());
    }
    list_own(apart, own)?;
    list_good(apart, good)?;
    Ok(())
}
