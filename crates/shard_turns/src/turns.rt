// The turns of a worker's own shards in a round.

ghost use Rattle.std.specs.Prelude.{◌≡◌, ◌+◌, ◌∷◌, ◌++◌, ◌<◌, ◌≤◌, [], IfOk, length};
ghost use Rattle.std.specs.List.{All};
ghost use Rattle.own_gradings.specs.Numbers.{RisesOwn};
ghost use Rattle.fault_shards.specs.Shards.{representatives_of};
ghost use Rattle.copy_shard.specs.Shards.{shard_steps};
ghost use Rattle.copy_shard.specs.Together.{claimed_steps};
ghost use Rattle.shard_turns.specs.Backups.{IsBackupSeat, StaysSeat};
ghost use Rattle.shard_turns.specs.Claims.{AreBackupsOf, IsClaimed, numbers_of};
ghost use Rattle.shard_turns.specs.Going.{AreGoing, going_numbers, going_steps};

use crate::backups::BackupSeat;
use crate::going::{Going, go_together, keep_found};
use crate::round::Round;
use crate::turn::behind_window;
use copy_shard::{ClaimedShard, ShardRoom};
use std::alloc::Global;
use std::sync::ledger::Ledger;
use v_design::World;
use vf_base::{Gate, NoMemory, Steps};

/// So many shards go through a window together at least, if there are as many: each such group costs one walk through the good machine's states.
const TOGETHER: usize = 8;

/// How many of so many shards make the next group: half of them, so that other workers may take copies of the others meanwhile.
fn group_of(left: usize) -> usize
    requires { 0 < left }
    ensures some { 0 < result }
    ensures within { result ≤ left }
{
    let half = left - left / 2;
    if half < TOGETHER {
        return left.min(TOGETHER);
    }
    half
}

/// A shard's turn: what lies in the slot of its number is taken out, the gate is called, and the shard that was found is kept, where it has gone through the window; else the
/// worker's own one is one of those that go next.
fn take_turn<'d, N: World, G: Gate, L: Ledger>(
    alloc: Global,
    round: &Round<'_, 'd, N, G>,
    worker: u32,
    seat: BackupSeat<N>,
    own: &mut Going<N>,
    claimed: ClaimedShard<N>,
    room: &mut ShardRoom<'d, N>,
    steps: &mut Steps<L>,
) -> Result<BackupSeat<N>, NoMemory>
    requires backups { AreBackupsOf round.now.shards.now round.now.backups.now }
    requires own { IsBackupSeat round.now.backups.now seat }
    requires going { AreGoing (representatives_of round.now.shards.now) round.now.window.now.before round.now.window.now.through own.old }
    requires claimed { IsClaimed (representatives_of round.now.shards.now) round.now.window.now.before claimed }
    ensures seat { IfOk result (StaysSeat round.now.backups.now seat) }
    ensures going { IfOk result (λ _. AreGoing (representatives_of round.now.shards.now) round.now.window.now.before round.now.window.now.through own.new) }
    ensures numbers { IfOk result (λ _. going_numbers own.new ≡ going_numbers own.old ++ claimed.number ∷ []) }
    ensures ticks { IfOk result (λ _. RisesOwn N.design N.plan (λ tally. going_steps tally own.old + shard_steps tally claimed.shard) (λ tally. going_steps tally own.new) steps.old steps.new) }
{
    let (seat, found) = round.backups.take(seat, claimed.number);
    round.gate.turn(worker, claimed.number);
    match behind_window(round.window, &claimed.shard, found) {
        None => {
            own.going.push(claimed)?;
            Ok(seat)
        }
        Some(other) => {
            keep_found(alloc, round, own, claimed, other, room, steps)?;
            Ok(seat)
        }
    }
}

/// The turns of some shards, behind those that have gone through the window.
fn take_group<'d, N: World, G: Gate, L: Ledger>(
    alloc: Global,
    round: &Round<'_, 'd, N, G>,
    worker: u32,
    seat: BackupSeat<N>,
    done: Vec<ClaimedShard<N>>,
    group: Vec<ClaimedShard<N>>,
    room: &mut ShardRoom<'d, N>,
    steps: &mut Steps<L>,
) -> Result<(BackupSeat<N>, Vec<ClaimedShard<N>>), NoMemory>
    requires backups { AreBackupsOf round.now.shards.now round.now.backups.now }
    requires own { IsBackupSeat round.now.backups.now seat }
    requires done { All (IsClaimed (representatives_of round.now.shards.now) round.now.window.now.through) done.items }
    requires each { All (IsClaimed (representatives_of round.now.shards.now) round.now.window.now.before) group.items }
    ensures seat { IfOk result (λ after. StaysSeat round.now.backups.now seat after.0) }
    ensures through { IfOk result (λ after. All (IsClaimed (representatives_of round.now.shards.now) round.now.window.now.through) after.1.items) }
    ensures numbers { IfOk result (λ after. numbers_of after.1.items ≡ numbers_of done.items ++ numbers_of group.items) }
    ensures ticks { IfOk result (λ after. RisesOwn N.design N.plan (λ tally. claimed_steps tally done.items + claimed_steps tally group.items) (λ tally. claimed_steps tally after.1.items)
        steps.old steps.new) }
{
    let mut seat = seat;
    let mut own = Going {
        done,
        going: Vec::new(alloc),
    };
    'group: for claimed in group {
        seat = take_turn(alloc, round, worker, seat, &mut own, claimed, room, steps)?;
    }
    go_together(alloc, round, &mut own, room, steps)?;
    let Going { done, going: _ } = own;
    Ok((seat, done))
}

/// The turns of a worker's shards in a round behind the first one, in order: each goes through the round's window, or a copy that another worker took through it is kept in its
/// place. The gate is called before each turn. `steps` ticks at most once for each own step of the faulty machines in between.
///
/// # Errors
///
/// Want of memory. The shards are gone then.
pub fn take_turns<'d, N: World, G: Gate, L: Ledger>(
    alloc: Global,
    round: &Round<'_, 'd, N, G>,
    worker: u32,
    seat: BackupSeat<N>,
    shards: Vec<ClaimedShard<N>>,
    room: &mut ShardRoom<'d, N>,
    steps: &mut Steps<L>,
) -> Result<(BackupSeat<N>, Vec<ClaimedShard<N>>), NoMemory>
    requires backups { AreBackupsOf round.now.shards.now round.now.backups.now }
    requires own { IsBackupSeat round.now.backups.now seat }
    requires each { All (IsClaimed (representatives_of round.now.shards.now) round.now.window.now.before) shards.items }
    ensures seat { IfOk result (λ after. StaysSeat round.now.backups.now seat after.0) }
    ensures through { IfOk result (λ after. All (IsClaimed (representatives_of round.now.shards.now) round.now.window.now.through) after.1.items) }
    ensures numbers { IfOk result (λ after. numbers_of after.1.items ≡ numbers_of shards.items) }
    ensures ticks { IfOk result (λ after. RisesOwn N.design N.plan (λ tally. claimed_steps tally shards.items) (λ tally. claimed_steps tally after.1.items) steps.old steps.new) }
{
    let mut seat = seat;
    let mut left = shards;
    let mut done = Vec::new(alloc);
    'groups: while left.len() > 0 {
        let later = left.split_off(group_of(left.len()))?;
        let (next, through) = take_group(alloc, round, worker, seat, done, left, room, steps)?;
        seat = next;
        done = through;
        left = later;
    }
    Ok((seat, done))
}
