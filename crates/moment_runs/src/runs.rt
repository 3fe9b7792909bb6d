// The runs of a phase, taken one after another.

ghost use Rattle.std.specs.Prelude.{◌≡◌, ◌+◌, ◌++◌, ◌<◌, ◌≤◌, [], ◌∷◌, ℕ, All, List, Some, false, true, drop, map, length, slice_get, OnOk};
ghost use Rattle.vf_base.specs.Base.{process_number};
ghost use Rattle.vf_base.specs.Lists.{has};
ghost use Rattle.v_design.specs.Grades.{Phase};
ghost use Rattle.run_ends.specs.RunEnds.{AreCodesOf};
ghost use Rattle.between_slots.specs.Between.{window_phases};
ghost use Rattle.window_runs.specs.RunsByProcess.{run_process};
ghost use Rattle.moment_parts.specs.StatesKept.{AreStatesOf};
ghost use Rattle.moment_runs.specs.Taken.{processes_of, StandEach, AreRunsTaken, HaveRuns, HaveFewRuns};

use good_trace::TraceWindow;
use moment_parts::Standing;
use process_code::{Code, RunEnd};
use v_design::World;
use vf_base::{NoMemory, ProcId};

/// The place behind the first run of a process among some, from a place on. There is one.
pub fn place_behind(runs: &[RunEnd], from: usize, process: ProcId) -> usize
    requires there { has (map run_process (drop from runs.now)) (process_number process) ≡ true }
    ensures within { result ≤ length runs.now }
    ensures first { (others rest : List ℕ) → map run_process (drop from runs.now) ≡ others ++ process_number process ∷ rest → has others (process_number process) ≡ false →
        result ≡ from + length others + 1 }
{
    'runs: for place in from..runs.len() {
        if runs[place].process.0 == process.0 {
            return place + 1;
        }
    }
    unreachable!()
}

/// Takes the next run of a process in a phase of a window, whose number counts from 1.
fn take_run<N: World>(
    window: &TraceWindow<N>,
    codes: &[Code<'_>],
    phase: u32,
    process: ProcId,
    standing: &mut Standing,
) -> Result<(), NoMemory>
    requires codes { AreCodesOf N.design codes.now }
    requires process { process_number process < length N.design.processes }
    requires phase { (1 ≤ phase) × (phase ≤ length (window_phases N.design N.plan window.now.before window.now.through)) }
    requires each { StandEach N.design (processes_of standing.old) }
    requires states { AreStatesOf N.design standing.old.states.items }
    requires there { (before : ℕ) (one : Phase) → phase ≡ before + 1 → slice_get (window_phases N.design N.plan window.now.before window.now.through) before ≡ Some one →
        HaveRuns N.design one (process_number process ∷ []) (processes_of standing.old) × HaveFewRuns N.design one }
    ensures taken { OnOk result ((before : ℕ) (one : Phase) → phase ≡ before + 1 →
        slice_get (window_phases N.design N.plan window.now.before window.now.through) before ≡ Some one →
        AreRunsTaken N.design one (process_number process ∷ []) (processes_of standing.old) (processes_of standing.new)) }
    ensures lanes { OnOk result (standing.new.lanes ≡ standing.old.lanes) }
{
    let place = process.0 as usize;
    let number = standing.ran[place];
    let run = window.run(process, phase, number).unwrap();
    standing.states[place].copy_from(&run.state)?;
    standing.later[place].extend_from_slice(run.later.as_slice())?;
    standing.ran[place] = number + 1;
    let _codes = codes.len();
    Ok(())
}

/// Takes the next runs of the processes of some runs in a phase of a window, whose number counts from 1, in order, and lists these processes.
///
/// # Errors
///
/// Want of memory.
pub fn take_runs<N: World>(
    window: &TraceWindow<N>,
    codes: &[Code<'_>],
    phase: u32,
    runs: &[RunEnd],
    standing: &mut Standing,
    acted: &mut Vec<ProcId>,
) -> Result<(), NoMemory>
    requires codes { AreCodesOf N.design codes.now }
    requires processes { All (λ process. process < length N.design.processes) (map run_process runs.now) }
    requires phase { (1 ≤ phase) × (phase ≤ length (window_phases N.design N.plan window.now.before window.now.through)) }
    requires each { StandEach N.design (processes_of standing.old) }
    requires states { AreStatesOf N.design standing.old.states.items }
    requires there { (before : ℕ) (one : Phase) → phase ≡ before + 1 → slice_get (window_phases N.design N.plan window.now.before window.now.through) before ≡ Some one →
        HaveRuns N.design one (map run_process runs.now) (processes_of standing.old) × HaveFewRuns N.design one }
    ensures taken { OnOk result ((before : ℕ) (one : Phase) → phase ≡ before + 1 →
        slice_get (window_phases N.design N.plan window.now.before window.now.through) before ≡ Some one →
        AreRunsTaken N.design one (map run_process runs.now) (processes_of standing.old) (processes_of standing.new)) }
    ensures lanes { OnOk result (standing.new.lanes ≡ standing.old.lanes) }
    ensures acted { OnOk result (map process_number acted.new.items ≡ map process_number acted.old.items ++ map run_process runs.now) }
{
    'runs: for run in runs {
        take_run(window, codes, phase, run.process, standing)?;
        acted.push(run.process)?;
    }
    Ok(())
}
