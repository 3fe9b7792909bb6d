// The first round of a worker, which claims shards until none is left.

ghost use Rattle.std.specs.Prelude.{◌≡◌, ◌+◌, ◌<◌, ◌≤◌, length, IfOk};
ghost use Rattle.shard_turns.specs.copy_shard.Shards.{places_of, shard_steps};
ghost use Rattle.own_gradings.specs.Numbers.{OwnStepsOf};
ghost use Rattle.fault_shards.specs.Cuts.{shard, shard_count};
ghost use Rattle.fault_shards.specs.Shards.{representatives_of};
ghost use Rattle.shard_claims.specs.Workers.{IsPlaceOf, IsNewSeat, HasClaimed, claimed_steps};

use shard_turns::{ClaimedShard, Round, Shard, ShardRoom};
use std::alloc::Global;
use std::sync::ledger::Ledger;
use v_design::World;
use verdict_words::Seat;
use vf_base::{Gate, NoMemory, Steps};

/// Makes the shard of a number, and takes it through the first window.
fn begin_shard<'d, N: World, G, L: Ledger>(
    alloc: Global,
    round: &Round<'_, 'd, N, G>,
    number: u32,
    room: &mut ShardRoom<'d, N>,
    steps: &mut Steps<L>,
) -> Result<Shard<N>, NoMemory>
    requires place { IsPlaceOf N.design N.plan round.now.shards.now round.now.board.now }
    requires number { number < shard_count (length (representatives_of round.now.shards.now)) }
    requires first { round.now.window.now.before ≡ 0 }
    ensures faults { IfOk result (λ own. places_of own.faults ≡ shard number (representatives_of round.now.shards.now)) }
    ensures gone { IfOk result (λ own. own.gone ≡ round.now.window.now.through) }
    ensures ticks { IfOk result (λ own. (tally : OwnStepsOf N.design N.plan) → steps.new ≤ steps.old + shard_steps tally own) }
{
    fault_shards::shards_cover();
    let faults = round.shards.shard(number);
    let mut own = Shard::new(alloc, round.setup, faults)?;
    own.advance(alloc, round.setup, round.window, room, steps)?;
    Ok(own)
}

/// Claims shards until none is left, and takes each through the first window.
///
/// # Errors
///
/// Want of memory. The worker claims no more then.
pub(crate) fn claim_all<'d, N: World, G: Gate, L: Ledger>(
    alloc: Global,
    round: &Round<'_, 'd, N, G>,
    worker: u32,
    seat: Seat<N>,
    room: &mut ShardRoom<'d, N>,
    steps: &mut Steps<L>,
) -> Result<(Seat<N>, Vec<ClaimedShard<N>>), NoMemory>
    requires place { IsPlaceOf N.design N.plan round.now.shards.now round.now.board.now }
    requires first { round.now.window.now.before ≡ 0 }
    requires new { IsNewSeat round.now.board.now seat }
    ensures claimed { IfOk result (λ claimed. HasClaimed (representatives_of round.now.shards.now) round.now.board.now round.now.window.now.through claimed.0 claimed.1.items) }
    ensures ticks { IfOk result (λ claimed. (tally : OwnStepsOf N.design N.plan) → steps.new ≤ steps.old + claimed_steps tally claimed.1.items) }
{
    let mut seat = seat;
    let mut shards = Vec::new(alloc);
    'claims: loop {
        let (next, claim) = round.board.claim(seat);
        seat = next;
        let Some(number) = claim else {
            return Ok((seat, shards));
        };
        round.gate.turn(worker, number);
        let shard = begin_shard(alloc, round, number, room, steps)?;
        shards.push(ClaimedShard { number, shard })?;
    }
}
