// The shards of the faults that stand for their classes.

ghost use Rattle.std.specs.Prelude.{◌≡◌, ◌++◌, ◌<◌, ◌≤◌, IfOk, OnOk, length, sum_by};
ghost use Rattle.copy_laws.specs.Windows.{good_slots};
ghost use Rattle.fault_shards.specs.Cuts.{shard, shard_count};
ghost use Rattle.fault_shards.specs.Shards.{AreShardsOf, representatives_of};
ghost use Rattle.own_gradings.specs.Numbers.{OwnStepsOf, RisesOwn};
ghost use Rattle.kept_shard.specs.Keeping.{full_steps_at, kept_steps_of, numbers_of};
ghost use Rattle.dict_windows.specs.Faults.{AreWhole, HaveGone, all_steps, faults_in};

use fault_shards::Shards;
use good_trace::Setup;
use kept_samples::Kept;
use kept_shard::{KeptShard, ShardRoom};
use run_trace::RunWindow;
use std::alloc::Global;
use std::sync::ledger::Ledger;
use v_design::World;
use vf_base::{NoMemory, Steps};

/// The shard of a number, before the first slot.
fn begin_shard<N: World>(
    alloc: Global,
    setup: &Setup<'_, N>,
    shards: &Shards,
    number: u32,
) -> Result<KeptShard<N>, NoMemory>
    requires shards { AreShardsOf N.design N.plan.faults shards.now }
    requires number { number < shard_count (length (representatives_of shards.now)) }
    ensures gone { IfOk result (λ own. own.gone ≡ 0) }
    ensures faults { IfOk result (λ own. numbers_of own.kept ≡ shard number (representatives_of shards.now)) }
{
    fault_shards::shards_cover();
    let faults = shards.shard(number);
    let own = KeptShard::<N>::new(alloc, setup, faults)?;
    Ok(own)
}

/// The shards of the faults that stand for their classes, before the first slot.
pub(crate) fn begin_shards<N: World>(
    alloc: Global,
    setup: &Setup<'_, N>,
    shards: &Shards,
) -> Result<Vec<KeptShard<N>>, NoMemory>
    requires { AreShardsOf N.design N.plan.faults shards.now }
    ensures gone { IfOk result (λ own. HaveGone 0 own.items) }
    ensures faults { IfOk result (λ own. faults_in own.items ≡ representatives_of shards.now) }
{
    fault_shards::shards_suffice();
    let mut own = Vec::new(alloc);
    'numbers: for number in 0..shards.count() {
        let next = begin_shard(alloc, setup, shards, number)?;
        own.push(next)?;
    }
    Ok(own)
}

/// Takes shards through the next window of the good first run, one after another.
pub(crate) fn advance_all<'d, N: World, L: Ledger>(
    alloc: Global,
    setup: &Setup<'d, N>,
    window: &RunWindow<N>,
    shards: &mut Vec<KeptShard<N>>,
    room: &mut ShardRoom<'d, N>,
    steps: &mut Steps<L>,
) -> Result<(), NoMemory>
    requires { HaveGone window.now.before shards.old.items }
    ensures gone { OnOk result (HaveGone window.now.through shards.new.items) }
    ensures faults { OnOk result (faults_in shards.new.items ≡ faults_in shards.old.items) }
    ensures ticks { OnOk result (RisesOwn N.design N.plan (λ tally. all_steps tally shards.old.items) (λ tally. all_steps tally shards.new.items) steps.old steps.new) }
{
    'shards: for place in 0..shards.len() {
        let own = &mut shards[place];
        own.advance(alloc, setup, window, room, steps)?;
    }
    Ok(())
}

/// Puts what is kept of the faults of a shard, which has gone through all slots, behind others.
fn push_kept<N: World>(shard: KeptShard<N>, kept: &mut Vec<Kept>) -> Result<(), NoMemory>
    requires { shard.gone ≡ length (good_slots N.design N.plan) }
    ensures faults { OnOk result (numbers_of kept.new.items ≡ numbers_of kept.old.items ++ numbers_of shard.kept) }
    ensures whole { OnOk result (AreWhole N.design N.plan kept.old.items → AreWhole N.design N.plan kept.new.items) }
    ensures steps { OnOk result ((tally : OwnStepsOf N.design N.plan) → kept_steps_of tally shard ≤ sum_by (full_steps_at tally) (numbers_of shard.kept)) }
{
    shard.stands();
    let mut own = shard.into_kept();
    kept.append(&mut own)?;
    Ok(())
}

/// What is kept of the faults of all shards, which have gone through all slots, in order.
pub(crate) fn kept_of<N: World>(
    alloc: Global,
    shards: Vec<KeptShard<N>>,
) -> Result<Vec<Kept>, NoMemory>
    requires { HaveGone (length (good_slots N.design N.plan)) shards.items }
    ensures faults { IfOk result (λ kept. numbers_of kept.items ≡ faults_in shards.items) }
    ensures whole { IfOk result (λ kept. AreWhole N.design N.plan kept.items) }
    ensures steps { IfOk result (λ _. (tally : OwnStepsOf N.design N.plan) → all_steps tally shards.items ≤ sum_by (full_steps_at tally) (faults_in shards.items)) }
{
    let mut kept = Vec::new(alloc);
    'shards: for shard in shards {
        push_kept(shard, &mut kept)?;
    }
    Ok(kept)
}
