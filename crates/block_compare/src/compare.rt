// Blocks of both machines compared.

ghost use Rattle.std.specs.Prelude.{◌≡◌, ◌<◌, true, IfOk, ℕ};
ghost use Rattle.vf_base.specs.Lists.{has};
ghost use Rattle.runner_writes.specs.block_events.Runners.{IsWhole, machine_of, state_of};
ghost use Rattle.moment_shown.specs.lockstep_compare.Among.{AreWritesKeptAmong};
ghost use Rattle.moment_shown.specs.lockstep_exchange.Putting.{lane_numbers};
ghost use Rattle.v_design.specs.States.{State};
ghost use Rattle.moment_shown.specs.Shown.{Shows};
ghost use Rattle.block_compare.specs.Comparing.{Compares, MayCompare};

use crate::alike::go_alike;
use block_told::BlockTold;
use lockstep_room::Counts;
use moment_shown::{
    LockstepCopy, Processes, ShownBlock, ShownMoment, keep_all_writes, keep_values,
};
use runner_writes::{Runner, RunnerWrites};
use std::alloc::Global;
use vf_base::{NoMemory, ProcId};

/// Of the process whose lane took a step, if one did, the faulty machine's updates are kept where they aren't the good one's. The answer is whether it goes on in lockstep.
fn keep_lane<G: Processes, F: Processes>(
    alloc: Global,
    own: &mut LockstepCopy,
    good: &G,
    faulty: &F,
    lane: Option<ProcId>,
) -> Result<bool, NoMemory>
    requires good { (process : ℕ) → has (lane_numbers lane) process ≡ true → process < G.count good.now }
    requires faulty { (process : ℕ) → has (lane_numbers lane) process ≡ true → process < F.count faulty.now }
    ensures { IfOk result (λ goes. goes ≡ true → AreWritesKeptAmong (G.writes good.now) (F.writes faulty.now) (lane_numbers lane) own.old own.new) }
{
    let Some(process) = lane else {
        return Ok(true);
    };
    keep_all_writes(alloc, own, good, faulty, &[process])
}

/// Of what the blocks of both machines changed, own values and own updates are kept where they aren't the good machine's, which is shown behind its block. The runner is the faulty machine behind
/// its own, which is told. The answer is whether lockstep goes on: both blocks step and wake the same processes, which do the same behind them, and what these have yet to write is
/// due at the same times, and as many in each lane. The fault, and the states that are kept, stay. Else nothing is known of what is kept.
///
/// # Errors
///
/// Want of memory. What is kept isn't to be used again then.
pub fn compare_block(
    alloc: Global,
    runner: &Runner,
    good: &ShownMoment,
    block: &ShownBlock,
    told: &BlockTold,
    counts: Counts,
    own: &mut LockstepCopy,
) -> Result<bool, NoMemory>
    requires whole { IsWhole runner.now }
    requires compare { MayCompare (machine_of runner.now) good.now block.now counts }
    ensures compares { IfOk result (λ goes. goes ≡ true → (state : State) → Shows good.now state →
        Compares state (state_of runner.now) block.now told.now own.old own.new) }
    ensures fault { IfOk result (λ goes. goes ≡ true → own.new.copy.fault ≡ own.old.copy.fault) }
    ensures states { IfOk result (λ goes. goes ≡ true → own.new.copy.states ≡ own.old.copy.states) }
{
    if !go_alike(runner, good, block, told, counts) {
        return Ok(false);
    }
    let faulty = RunnerWrites::new(runner);
    if !keep_all_writes(alloc, own, good, &faulty, block.acted)? {
        return Ok(false);
    }
    if !keep_lane(alloc, own, good, &faulty, block.lane)? {
        return Ok(false);
    }
    keep_values(own, good, runner, block.changed)?;
    keep_values(own, good, runner, told.changed.as_slice())?;
    Ok(true)
}
