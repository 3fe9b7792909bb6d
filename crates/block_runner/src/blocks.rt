// Blocks.

ghost use Rattle.std.specs.Prelude.{◌≡◌, ◌≤◌, ◌+◌, ◌^◌, ℕ, [], Some, None, drop, length, IfOk, IsSome, OnOk};
ghost use Rattle.vf_base.specs.Base.{process_number};
ghost use Rattle.v_design.specs.WellFormed.{KeepsRules};
ghost use Rattle.race_laws.specs.Writes.{WritesAreOf};
ghost use Rattle.machine_laws.specs.SlotLoop.{NoNodeWorks, first_lane, first_ready};
ghost use Rattle.block_events.specs.Runners.{IsWhole, machine_of, state_of};
ghost use Rattle.block_told.specs.Tells.{IsUntold};
ghost use Rattle.block_runner.specs.Beside.{AreFew, MayGoBeside, fresh, row_at};
ghost use Rattle.block_runner.specs.Ends.{GoesOn, LaneRan, RanBeside, TicksTried};

use crate::beside::{Beside, step_beside};
use crate::goods::GoodPhase;
use block_events::Runner;
use block_told::BlockTold;
use good_runs::TriedStep;
use std::sync::ledger::Ledger;
use vf_base::{NoMemory, ProcId, Steps};

/// How the run of a block ended: no process event was possible, the block was run to its end, or it was given up.
#[derive(Clone, Copy, PartialEq, Eq, Debug)]
pub enum BlockEnd {
    Idle,
    Ran,
    GivenUp,
}

/// Runs a block that the least lane begins.
fn lane_block(
    runner: &mut Runner,
    process: ProcId,
    told: &mut BlockTold,
) -> Result<BlockEnd, NoMemory>
    requires whole { IsWhole runner.old }
    requires nodes { NoNodeWorks (state_of runner.old) }
    requires lanes { first_lane (state_of runner.old) ≡ Some (process_number process) }
    requires told { IsUntold told.old }
    requires rules { KeepsRules (machine_of runner.old).design }
    requires writes { WritesAreOf (machine_of runner.old).design (state_of runner.old) }
    ensures goes { IfOk result (λ end. (most : ℕ) → LaneRan (machine_of runner.old) (state_of runner.old) (process_number process) most end runner.new told.new) }
    ensures one { IfOk result (λ end. told.new.steps ≡ 1) }
{
    let line = runner.take_lane(process, told)?;
    if runner.settle(told, process, line)? {
        return Ok(BlockEnd::Ran);
    }
    Ok(BlockEnd::GivenUp)
}

/// Runs a block that the least ready process begins.
fn run_of<L: Ledger>(
    runner: &mut Runner,
    told: &mut BlockTold,
    most: u32,
    goods: &GoodPhase<'_>,
    beside: &mut Beside,
    tried: &mut Vec<TriedStep>,
    steps: &mut Steps<L>,
) -> Result<BlockEnd, NoMemory>
    requires whole { IsWhole runner.old }
    requires nodes { NoNodeWorks (state_of runner.old) }
    requires lanes { first_lane (state_of runner.old) ≡ None }
    requires ready { IsSome (first_ready (state_of runner.old)) }
    requires time { (state_of runner.old).time ≤ 2 ^ 63 }
    requires told { IsUntold told.old }
    requires rules { KeepsRules (machine_of runner.old).design }
    requires writes { WritesAreOf (machine_of runner.old).design (state_of runner.old) }
    requires goods { MayGoBeside (machine_of runner.old) (state_of runner.old) goods.now }
    requires few { AreFew (machine_of runner.old) goods.now most }
    requires there { length (machine_of runner.old).design.processes ≤ length beside.old.processes }
    requires fresh { (process : ℕ) → row_at beside.old.processes process ≡ fresh }
    requires ended { beside.old.ended.items ≡ [] }
    ensures own { IfOk result (λ end. RanBeside (machine_of runner.old) (state_of runner.old) most goods.now end runner.new told.new beside.new.ended.items
        (drop (length tried.old.items) tried.new.items)) }
    ensures few { IfOk result (λ end. told.new.steps ≤ most + 1) }
    ensures tried { OnOk result (TicksTried tried.old.items tried.new.items steps.old steps.new) }
{
    race_laws::writes_stay();
    present_runs::present_runs_lead();
    runner.begin_block();
    'runs: for taken in 0..u64::from(most) + 1 {
        let Some(process) = runner.first_ready() else {
            unreachable!();
        };
        let line = step_beside(runner, told, process, goods, beside, tried, steps)?;
        if !runner.settle(told, process, line)? {
            return Ok(BlockEnd::GivenUp);
        }
        if !runner.is_in_run() {
            return Ok(BlockEnd::Ran);
        }
    }
    Ok(BlockEnd::GivenUp)
}

/// Runs the next block, from a moment between runs; `told` tells it, whatever it told before. Where no process event is possible nothing happens. A block that takes more
/// than so many process and lane steps, or 2^64 - 1 events, is given up; one that a lane begins has one step. A process whose run goes as the good machine's of its number in the phase, and whose next step reads what that
/// one read, is brought on as that was; each other process step is taken itself, is put to `tried`, and `steps` ticks once for it. `beside` lists the process of each run that ended in the block, whatever it listed before.
/// Each process is still to write objects of the design alone; what comes of that stays so with the events of the block (`race_laws::writes_stay`).
///
/// # Errors
///
/// Want of memory; the runner is then not to be used again.
pub fn run_block<L: Ledger>(
    runner: &mut Runner,
    told: &mut BlockTold,
    most: u32,
    goods: &GoodPhase<'_>,
    beside: &mut Beside,
    tried: &mut Vec<TriedStep>,
    steps: &mut Steps<L>,
) -> Result<BlockEnd, NoMemory>
    requires whole { IsWhole runner.old }
    requires nodes { NoNodeWorks (state_of runner.old) }
    requires time { (state_of runner.old).time ≤ 2 ^ 63 }
    requires rules { KeepsRules (machine_of runner.old).design }
    requires writes { WritesAreOf (machine_of runner.old).design (state_of runner.old) }
    requires goods { MayGoBeside (machine_of runner.old) (state_of runner.old) goods.now }
    requires few { AreFew (machine_of runner.old) goods.now most }
    ensures goes { IfOk result (λ end. GoesOn (machine_of runner.old) (state_of runner.old) most end runner.new told.new) }
    ensures few { IfOk result (λ end. told.new.steps ≤ most + 1) }
    ensures one { IfOk result (λ end. IsSome (first_lane (state_of runner.old)) → told.new.steps ≡ 1) }
    ensures own { IfOk result (λ end. RanBeside (machine_of runner.old) (state_of runner.old) most goods.now end runner.new told.new beside.new.ended.items
        (drop (length tried.old.items) tried.new.items)) }
    ensures tried { OnOk result (TicksTried tried.old.items tried.new.items steps.old steps.new) }
{
    told.clear();
    beside.clear(runner.processes())?;
    if let Some(process) = runner.first_lane() {
        let lane = lane_block(runner, process, told)?;
        return Ok(lane);
    }
    if runner.first_ready().is_none() {
        return Ok(BlockEnd::Idle);
    }
    let end = run_of(runner, told, most, goods, beside, tried, steps)?;
    Ok(end)
}
