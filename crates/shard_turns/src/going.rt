// Shards of a worker in a round: those that have gone through its window, and those that go through it next.

ghost use Rattle.std.specs.Prelude.{◌≡◌, ◌+◌, ◌∷◌, ◌++◌, [], OnOk};
ghost use Rattle.own_gradings.specs.Numbers.{RisesOwn};
ghost use Rattle.fault_shards.specs.Shards.{representatives_of};
ghost use Rattle.shard_turns.specs.Claims.{IsClaimed};
ghost use Rattle.shard_turns.specs.Turns.{HasDone};
ghost use Rattle.shard_turns.specs.Going.{AreGoing, going_numbers, going_steps};
ghost use Rattle.copy_shard.specs.Shards.{shard_steps};

use crate::round::Round;
use crate::turn::found_behind;
use copy_shard::{ClaimedShard, Shard, ShardRoom, advance_together};
use std::alloc::Global;
use std::sync::ledger::Ledger;
use v_design::World;
use vf_base::{NoMemory, Steps};

/// Shards of a worker in a round, in order: those that have gone through its window, and behind them those that go through it together next.
#[derive(Drop)]
pub(crate) struct Going<N: World> {
    pub(crate) done: Vec<ClaimedShard<N>>,
    pub(crate) going: Vec<ClaimedShard<N>>,
}

/// Takes those that go next through the round's window, side by side.
pub(crate) fn go_together<'d, N: World, G, L: Ledger>(
    alloc: Global,
    round: &Round<'_, 'd, N, G>,
    own: &mut Going<N>,
    room: &mut ShardRoom<'d, N>,
    steps: &mut Steps<L>,
) -> Result<(), NoMemory>
    requires { AreGoing (representatives_of round.now.shards.now) round.now.window.now.before round.now.window.now.through own.old }
    ensures going { OnOk result (AreGoing (representatives_of round.now.shards.now) round.now.window.now.before round.now.window.now.through own.new) }
    ensures none { OnOk result (own.new.going.items ≡ []) }
    ensures numbers { OnOk result (going_numbers own.new ≡ going_numbers own.old) }
    ensures ticks { OnOk result (RisesOwn N.design N.plan (λ tally. going_steps tally own.old) (λ tally. going_steps tally own.new) steps.old steps.new) }
{
    advance_together(
        alloc,
        round.setup,
        round.window,
        &mut own.going,
        room,
        steps,
    )?;
    own.done.append(&mut own.going)?;
    Ok(())
}

/// Keeps a shard that was found behind the round's window in place of a worker's own one, behind those that go through the window before.
pub(crate) fn keep_found<'d, N: World, G, L: Ledger>(
    alloc: Global,
    round: &Round<'_, 'd, N, G>,
    own: &mut Going<N>,
    claimed: ClaimedShard<N>,
    other: Shard<N>,
    room: &mut ShardRoom<'d, N>,
    steps: &mut Steps<L>,
) -> Result<(), NoMemory>
    requires going { AreGoing (representatives_of round.now.shards.now) round.now.window.now.before round.now.window.now.through own.old }
    requires claimed { IsClaimed (representatives_of round.now.shards.now) round.now.window.now.before claimed }
    requires done { HasDone round.now.window.now.through claimed.shard other }
    ensures going { OnOk result (AreGoing (representatives_of round.now.shards.now) round.now.window.now.before round.now.window.now.through own.new) }
    ensures numbers { OnOk result (going_numbers own.new ≡ going_numbers own.old ++ claimed.number ∷ []) }
    ensures ticks { OnOk result (RisesOwn N.design N.plan (λ tally. going_steps tally own.old + shard_steps tally claimed.shard) (λ tally. going_steps tally own.new) steps.old steps.new) }
{
    found_behind(round.setup, round.window, &claimed.shard, &other);
    go_together(alloc, round, own, room, steps)?;
    own.done.push(ClaimedShard {
        number: claimed.number,
        shard: other,
    })?;
    Ok(())
}
