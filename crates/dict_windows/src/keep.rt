// What is kept of the faults behind all windows.

ghost use Rattle.std.specs.Prelude.{◌≡◌, true, IfOk};
ghost use Rattle.fault_shards.specs.Shards.{AreShardsOf, representatives_of};
ghost use Rattle.dict_windows.specs.Outcomes.{IsOutcome, OutcomeTicks};

use crate::faults::{begin_shards, kept_of};
use crate::good::nothing_seen;
use crate::outcome::{Gathered, Outcome};
use crate::windows::{Ahead, Beside, go_through};
use fault_shards::Shards;
use good_trace::Setup;
use good_windows::GoodRun;
use kept_shard::ShardRoom;
use std::alloc::Global;
use std::sync::ledger::Ledger;
use v_design::World;
use vf_base::{NoMemory, Steps};

/// What is kept of all faults, where the good machine's run stands before its first slot.
fn keep_in<'d, N: World, L: Ledger>(
    alloc: Global,
    setup: &Setup<'d, N>,
    shards: &Shards,
    ahead: &mut Ahead<'_, 'd, N>,
    room: &mut ShardRoom<'d, N>,
    steps: &mut Steps<L>,
) -> Result<Outcome, NoMemory>
    requires shards { AreShardsOf N.design N.plan.faults shards.now }
    requires none { (ahead.old.run.gone ≡ 0) × (ahead.old.run.ran ≡ 0) }
    requires usable { ahead.old.run.usable ≡ true }
    ensures outcome { IfOk result (IsOutcome N.design N.plan (representatives_of shards.now)) }
    ensures ticks { IfOk result (OutcomeTicks N.design N.plan (representatives_of shards.now) steps.old steps.new) }
{
    own_gradings::own_steps_rise();
    let own = begin_shards(alloc, setup, shards)?;
    let good = nothing_seen(alloc, setup);
    let mut beside = Beside { good, shards: own };
    let loops = go_through(alloc, setup, ahead, &mut beside, room, steps)?;
    if let Some(time) = loops {
        return Ok(Outcome::GoodLoop(time));
    }
    let Beside { good, shards } = beside;
    let faults = kept_of(alloc, shards)?;
    Ok(Outcome::Made(Gathered {
        good: good.samples,
        raced: good.raced,
        faults,
    }))
}

/// Lets go of what went ahead of the shards.
fn let_go<N: World>(_ahead: Ahead<'_, '_, N>) {}

/// What is kept of the full grade of each fault that stands for its class, beside the good machine's samples; or the time, in steps, at which the good machine is hyperactive before
/// a race of its own. `steps` ticks once for each process step of the good machine, and at most once for each own step of a
/// faulty one.
///
/// # Errors
///
/// Want of memory.
pub fn keep_faults<N: World, L: Ledger>(
    alloc: Global,
    setup: &Setup<'_, N>,
    shards: &Shards,
    steps: &mut Steps<L>,
) -> Result<Outcome, NoMemory>
    requires { AreShardsOf N.design N.plan.faults shards.now }
    ensures outcome { IfOk result (IsOutcome N.design N.plan (representatives_of shards.now)) }
    ensures ticks { IfOk result (OutcomeTicks N.design N.plan (representatives_of shards.now) steps.old steps.new) }
{
    let run = GoodRun::new(alloc, setup)?;
    let mut ahead = Ahead { run, used: None };
    let mut room = ShardRoom::new(alloc);
    let outcome = keep_in(alloc, setup, shards, &mut ahead, &mut room, steps);
    let_go(ahead);
    outcome
}
