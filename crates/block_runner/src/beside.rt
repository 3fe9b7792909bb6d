// A step of a process, beside the good machine's run.

ghost use Rattle.std.specs.Prelude.{◌≡◌, ◌≤◌, ◌<◌, ◌^◌, ℕ, List, [], Some, None, is_some, length, map, set, slice_get, IfOk, IfSome, OnOk};
ghost use Rattle.vf_base.specs.Base.{process_number};
ghost use Rattle.v_design.specs.OwnSteps.{ProcessRun};
ghost use Rattle.v_design.specs.WellFormed.{KeepsRules};
ghost use Rattle.race_laws.specs.Writes.{WritesAreOf};
ghost use Rattle.machine_laws.specs.SlotLoop.{NoNodeWorks, first_lane, first_ready};
ghost use Rattle.block_events.specs.Going.{StepsOn};
ghost use Rattle.block_events.specs.Runners.{IsWhole, machine_of, state_of};
ghost use Rattle.block_runner.specs.Beside.{TellsBeside, fresh, row_at, taken_of};
ghost use Rattle.block_runner.specs.Next.{IsAtRun, MayBeAtRun, MayStepBeside, TookBeside, StepsBeside, TriesOne, TriesSo, ended_behind, row_behind};

use crate::goods::GoodPhase;
use crate::next::next_known;
use crate::rows::{ProcessBeside, ProcessesBeside, RunBeside};
use block_events::Runner;
use block_told::BlockTold;
use good_runs::TriedStep;
use std::alloc::Global;
use std::sync::ledger::Ledger;
use vf_base::{NoMemory, ProcId, Steps};

/// What is kept of a block beside the good machine's phase: which runs go on, and go as those of the good machine; and of each run that ended in the block its process, in order.
#[derive(Drop)]
pub struct Beside {
    pub(crate) processes: ProcessesBeside,
    pub ended: Vec<ProcId>,
}

/// Where a step stands in its phase: the phase's number in the slot, that of its run, and how many steps of the run come before it.
#[derive(Clone, Copy)]
struct StepPlace {
    phase: u32,
    number: u64,
    taken: u64,
}

/// A step that was taken: the line of its statement, and whether it is the good machine's.
#[derive(Clone, Copy)]
struct Took {
    line: u32,
    follows: bool,
}

/// How many steps of the run with the next step were taken.
fn taken_of(going: &Option<RunBeside>) -> u64
    ensures { result ≡ taken_of going.now }
{
    match going {
        None => 0,
        Some(run) => run.taken,
    }
}

/// What is kept of a process behind its step, after which it is ready or not.
fn row_behind(row: &ProcessBeside, follows: bool, ready: bool) -> ProcessBeside
    requires ended { row.now.ended < 2 ^ 63 }
    requires taken { taken_of row.now.going < 2 ^ 63 }
    ensures { result ≡ row_behind row.now follows ready }
{
    if ready {
        let taken = taken_of(&row.going) + 1;
        return ProcessBeside {
            ended: row.ended,
            going: Some(RunBeside { taken, follows }),
        };
    }
    ProcessBeside {
        ended: row.ended + 1,
        going: None,
    }
}

impl Beside {
    /// Nothing is kept.
    pub fn new(alloc: Global) -> Beside
        ensures ended { result.ended.items ≡ [] }
        ensures rows { (process : ℕ) → row_at result.processes process ≡ fresh }
    {
        Beside {
            processes: ProcessesBeside::new(alloc),
            ended: Vec::new(alloc),
        }
    }

    /// Of so many processes nothing is kept any more.
    pub(crate) fn clear(&mut self, count: usize) -> Result<(), NoMemory>
        ensures ended { OnOk result (self.new.ended.items ≡ []) }
        ensures there { OnOk result (count ≤ length self.new.processes) }
        ensures rows { OnOk result ((process : ℕ) → row_at self.new.processes process ≡ fresh) }
    {
        self.ended.clear();
        self.processes.clear(count)?;
        Ok(())
    }

    /// Keeps what comes of a step of a process, of which this was kept.
    fn keep(
        &mut self,
        process: ProcId,
        row: &ProcessBeside,
        follows: bool,
        ready: bool,
    ) -> Result<(), NoMemory>
        requires there { process_number process < length self.old.processes }
        requires ended { row.now.ended < 2 ^ 63 }
        requires taken { taken_of row.now.going < 2 ^ 63 }
        ensures rows { OnOk result (self.new.processes ≡ set self.old.processes (process_number process) (row_behind row.now follows ready)) }
        ensures ended { OnOk result (self.new.ended.items ≡ ended_behind self.old.ended.items process ready) }
    {
        let behind = row_behind(row, follows, ready);
        self.processes.put(process, behind)?;
        if ready {
            return Ok(());
        }
        self.ended.push(process)?;
        Ok(())
    }
}

/// The least ready process takes a step itself, which is put to those that were tried; `steps` ticks once. It answers the line.
fn try_step<L: Ledger>(
    runner: &mut Runner,
    told: &mut BlockTold,
    process: ProcId,
    place: StepPlace,
    tried: &mut Vec<TriedStep>,
    steps: &mut Steps<L>,
) -> Result<u32, NoMemory>
    requires whole { IsWhole runner.old }
    requires nodes { NoNodeWorks (state_of runner.old) }
    requires lanes { first_lane (state_of runner.old) ≡ None }
    requires ready { first_ready (state_of runner.old) ≡ Some (process_number process) }
    requires time { (state_of runner.old).time ≤ 2 ^ 63 }
    requires room { told.old.steps < 2 ^ 63 }
    requires rules { KeepsRules (machine_of runner.old).design }
    requires writes { WritesAreOf (machine_of runner.old).design (state_of runner.old) }
    ensures goes { OnOk result (StepsOn (process_number process) runner.old runner.new told.old told.new) }
    ensures tries { OnOk result (TriesOne (machine_of runner.old) (state_of runner.old) (process_number process) place.phase place.number place.taken tried.old.items tried.new.items steps.old steps.new) }
{
    let step = runner.take_step(process, told, steps)?;
    let line = step.line;
    tried.push(TriedStep {
        phase: place.phase,
        process,
        number: place.number,
        taken: place.taken,
        line,
        act: step.act,
        state: step.state,
    })?;
    Ok(line)
}

/// The least ready process takes a step: as the good machine's run of its number, where its own goes as that and reads now what that read, or else itself.
fn take_next<L: Ledger>(
    runner: &mut Runner,
    told: &mut BlockTold,
    process: ProcId,
    goods: &GoodPhase<'_>,
    going: &Option<RunBeside>,
    place: StepPlace,
    tried: &mut Vec<TriedStep>,
    steps: &mut Steps<L>,
) -> Result<Took, NoMemory>
    requires whole { IsWhole runner.old }
    requires nodes { NoNodeWorks (state_of runner.old) }
    requires lanes { first_lane (state_of runner.old) ≡ None }
    requires ready { first_ready (state_of runner.old) ≡ Some (process_number process) }
    requires time { (state_of runner.old).time ≤ 2 ^ 63 }
    requires room { told.old.steps < 2 ^ 63 }
    requires rules { KeepsRules (machine_of runner.old).design }
    requires writes { WritesAreOf (machine_of runner.old).design (state_of runner.old) }
    requires number { process_number process < length (state_of runner.old).processes }
    requires few { place.number < 2 ^ 32 }
    requires may { MayBeAtRun (machine_of runner.old) (state_of runner.old) (process_number process) place.number goods.now going.now }
    ensures goes { OnOk result (StepsOn (process_number process) runner.old runner.new told.old told.new) }
    ensures took { IfOk result (λ took. (runs : ℕ → List ProcessRun) (numbers : ℕ → ℕ) (run : ProcessRun) → TellsBeside (machine_of runner.old) (state_of runner.old) runs numbers goods.now →
        IsAtRun (machine_of runner.old) (state_of runner.old) (process_number process) (slice_get (runs (process_number process)) place.number) going.now run →
        TookBeside (machine_of runner.old) (state_of runner.old) (process_number process) (slice_get (runs (process_number process)) place.number) run took.follows) }
    ensures tries { IfOk result (λ took. TriesSo (machine_of runner.old) (state_of runner.old) (process_number process) place.phase place.number place.taken tried.old.items tried.new.items steps.old steps.new
        took.follows) }
{
    match next_known(runner, goods, process, place.number, going) {
        Some(step) => {
            let line = runner.follow_step(process, told, step.line, step.act, step.next)?;
            Ok(Took {
                line,
                follows: true,
            })
        }
        None => {
            let line = try_step(runner, told, process, place, tried, steps)?;
            Ok(Took {
                line,
                follows: false,
            })
        }
    }
}

/// The least ready process takes a step, where no node has work and no lane has an update: as the good machine's run of its number, where its own goes as that and reads now what that read; else itself, and then
/// the step is put to `tried` and `steps` ticks once. It answers the line of the step's statement.
///
/// # Errors
///
/// Want of memory.
pub fn step_beside<L: Ledger>(
    runner: &mut Runner,
    told: &mut BlockTold,
    process: ProcId,
    goods: &GoodPhase<'_>,
    beside: &mut Beside,
    tried: &mut Vec<TriedStep>,
    steps: &mut Steps<L>,
) -> Result<u32, NoMemory>
    requires whole { IsWhole runner.old }
    requires nodes { NoNodeWorks (state_of runner.old) }
    requires lanes { first_lane (state_of runner.old) ≡ None }
    requires ready { first_ready (state_of runner.old) ≡ Some (process_number process) }
    requires time { (state_of runner.old).time ≤ 2 ^ 63 }
    requires room { told.old.steps < 2 ^ 63 }
    requires rules { KeepsRules (machine_of runner.old).design }
    requires writes { WritesAreOf (machine_of runner.old).design (state_of runner.old) }
    requires there { process_number process < length beside.old.processes }
    requires ended { (row_at beside.old.processes (process_number process)).ended < 2 ^ 63 }
    requires taken { taken_of (row_at beside.old.processes (process_number process)).going < 2 ^ 63 }
    requires may { MayStepBeside (machine_of runner.old) (state_of runner.old) (process_number process) goods.now (row_at beside.old.processes (process_number process)) }
    ensures goes { OnOk result (StepsOn (process_number process) runner.old runner.new told.old told.new) }
    ensures beside { OnOk result (StepsBeside (machine_of runner.old) (state_of runner.old) (state_of runner.new) process goods.now beside.old.processes beside.new.processes beside.old.ended.items beside.new.ended.items tried.old.items
        tried.new.items steps.old steps.new) }
{
    let row = beside.processes.row(process);
    let number = u64::from(goods.numbers.number(process)) + row.ended;
    let place = StepPlace {
        phase: goods.phase,
        number,
        taken: taken_of(&row.going),
    };
    let took = take_next(
        runner, told, process, goods, &row.going, place, tried, steps,
    )?;
    let ready = runner.is_ready(process);
    beside.keep(process, &row, took.follows, ready)?;
    Ok(took.line)
}
