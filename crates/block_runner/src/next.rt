// The next step of a process, as the good machine's run of its number tells it.

ghost use Rattle.std.specs.Prelude.{◌≡◌, ◌+◌, ◌<◌, ◌^◌, ℕ, IsTrue, List, [], Some, false, length, slice_get, IfSome};
ghost use Rattle.vf_base.specs.Base.{process_number};
ghost use Rattle.v_design.specs.OwnSteps.{ProcessRun};
ghost use Rattle.v_design.specs.WellFormed.{KeepsRules};
ghost use Rattle.copy_overlay.specs.Statuses.{AllCount};
ghost use Rattle.known_steps.specs.Beside.{FollowsSoFar, IsInRun, TellsRunHere, run_behind};
ghost use Rattle.block_events.specs.Runners.{IsWhole, machine_of, state_of};
ghost use Rattle.block_runner.specs.Beside.{TellsBeside};
ghost use Rattle.block_runner.specs.Next.{IsAtRun, IsBesideRun, MayBeAtRun, MayBeBeside, TellsNext, FollowsAt};

use crate::goods::GoodPhase;
use crate::rows::RunBeside;
use block_events::Runner;
use known_steps::{KnownStep, known_step};
use process_code::RunEnd;
use vf_base::ProcId;

/// Whether a process stands where a run of the good machine begins.
fn begins_as(runner: &Runner, process: ProcId, found: &RunEnd) -> bool
    requires whole { IsWhole runner.now }
    requires number { process_number process < length (state_of runner.now).processes }
    requires rules { KeepsRules (machine_of runner.now).design }
    ensures yes { IsTrue result → (good run : ProcessRun) → TellsRunHere (machine_of runner.now) (state_of runner.now) (process_number process) good found.now →
        IsInRun (machine_of runner.now) (state_of runner.now) (process_number process) run → run.steps ≡ [] → FollowsSoFar (Some good) run }
    ensures no { result ≡ false → (good run : ProcessRun) → TellsRunHere (machine_of runner.now) (state_of runner.now) (process_number process) good found.now →
        IsInRun (machine_of runner.now) (state_of runner.now) (process_number process) run → run.steps ≡ [] →
        AllCount (Some good) (run_behind (machine_of runner.now) (state_of runner.now) (process_number process) run) }
{
    known_steps::known_steps_go_on();
    let steps = found.steps.as_slice();
    if steps.is_empty() {
        return false;
    }
    runner.stands_at(process, &steps[0].state)
}

/// Whether the run with a process's next step goes as a run of the good machine so far.
fn goes_as(runner: &Runner, process: ProcId, found: &RunEnd, place: u64) -> bool
    requires whole { IsWhole runner.now }
    requires number { process_number process < length (state_of runner.now).processes }
    requires rules { KeepsRules (machine_of runner.now).design }
    ensures yes { IsTrue result → (good run : ProcessRun) → IsBesideRun (machine_of runner.now) (state_of runner.now) (process_number process) good found.now place run → FollowsSoFar (Some good) run }
    ensures no { result ≡ false → (good run : ProcessRun) → IsBesideRun (machine_of runner.now) (state_of runner.now) (process_number process) good found.now place run →
        AllCount (Some good) (run_behind (machine_of runner.now) (state_of runner.now) (process_number process) run) }
{
    if place > 0 {
        return true;
    }
    begins_as(runner, process, found)
}

/// The step that a process takes next, where its run goes as this one of the good machine and reads now what that read.
fn known_in<'g>(
    runner: &Runner,
    process: ProcId,
    found: &'g RunEnd,
    place: u64,
) -> Option<KnownStep<'g>>
    requires whole { IsWhole runner.now }
    requires number { process_number process < length (state_of runner.now).processes }
    requires rules { KeepsRules (machine_of runner.now).design }
    requires may { MayBeBeside (machine_of runner.now) (state_of runner.now) (process_number process) found.now place }
    ensures { (good run : ProcessRun) → IsBesideRun (machine_of runner.now) (state_of runner.now) (process_number process) good found.now place run →
        TellsNext (machine_of runner.now) (state_of runner.now) (process_number process) (Some good) run result }
{
    known_steps::known_steps_go_on();
    runner.reads_are_there();
    if !goes_as(runner, process, found, place) {
        return None;
    }
    known_step(found, place as usize, runner)
}

/// The place of the next step in its run, where that may go as the good machine's: none where all its steps are own.
fn place_in(going: &Option<RunBeside>) -> Option<u64>
    ensures { FollowsAt going.now result }
{
    match going {
        None => Some(0),
        Some(run) => { if run.follows { Some(run.taken) } else { None } }
    }
}

/// The step that a process takes next, where the good machine's run of the same number goes as its own, and reads now what that read. The run of the process goes on so, or begins.
pub fn next_known<'g>(
    runner: &Runner,
    goods: &GoodPhase<'g>,
    process: ProcId,
    number: u64,
    going: &Option<RunBeside>,
) -> Option<KnownStep<'g>>
    requires whole { IsWhole runner.now }
    requires process { process_number process < length (state_of runner.now).processes }
    requires rules { KeepsRules (machine_of runner.now).design }
    requires few { number < 2 ^ 32 }
    requires may { MayBeAtRun (machine_of runner.now) (state_of runner.now) (process_number process) number goods.now going.now }
    ensures { (runs : ℕ → List ProcessRun) (numbers : ℕ → ℕ) (run : ProcessRun) → TellsBeside (machine_of runner.now) (state_of runner.now) runs numbers goods.now →
        IsAtRun (machine_of runner.now) (state_of runner.now) (process_number process) (slice_get (runs (process_number process)) number) going.now run →
        TellsNext (machine_of runner.now) (state_of runner.now) (process_number process) (slice_get (runs (process_number process)) number) run result }
{
    known_steps::known_steps_go_on();
    runner.has_code(process);
    let Some(place) = place_in(going) else {
        return None;
    };
    let Some(found) = goods.goods.run(process, number as u32) else {
        return None;
    };
    known_in(runner, process, found, place)
}
