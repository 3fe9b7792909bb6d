// One worker in a round.

ghost use Rattle.std.specs.Prelude.{◌≡◌, IfOk};
ghost use Rattle.fault_shards.specs.Shards.{representatives_of};
ghost use Rattle.own_gradings.specs.Numbers.{OwnStepsOf, RisesOwn};
ghost use Rattle.shard_claims.specs.Workers.{AreBackupsOf, HasVisited, IsFreshBackup, IsPlaceOf, IsWorkerAt, RoseInRound, StaysSeat, visit_steps, visited_by, worker_steps};

use crate::claim::claim_all;
use shard_turns::{BackupSeat, ClaimedShard, Round, ShardRoom, take_turns, visit_slots};
use std::alloc::Global;
use std::sync::ledger::Ledger;
use v_design::World;
use verdict_words::Seat;
use vf_base::{Gate, NoMemory, Steps};

/// A worker between two rounds: its number, its seat, the shards that it claimed, and whether it was told that no claim is left.
#[derive(Drop)]
pub struct Worker<N: World> {
    pub number: u32,
    pub seat: Seat<N>,
    pub shards: Vec<ClaimedShard<N>>,
    pub dry: bool,
}

/// A worker in a round, with its seat of the round's backups.
#[derive(Drop)]
pub struct Seated<N: World> {
    pub worker: Worker<N>,
    pub backup: BackupSeat<N>,
}

/// Takes a worker's own shards through a round: those that it claims now, or those that it has.
fn work_own<'d, N: World, G: Gate, L: Ledger>(
    alloc: Global,
    round: &Round<'_, 'd, N, G>,
    seated: Seated<N>,
    room: &mut ShardRoom<'d, N>,
    steps: &mut Steps<L>,
) -> Result<Seated<N>, NoMemory>
    requires place { IsPlaceOf N.design N.plan round.now.shards.now round.now.board.now }
    requires backups { AreBackupsOf round.now.shards.now round.now.backups.now }
    requires at { IsWorkerAt (representatives_of round.now.shards.now) round.now.board.now round.now.window.now.before seated.worker }
    requires fresh { IsFreshBackup round.now.backups.now seated.backup }
    ensures through { IfOk result (λ after. IsWorkerAt (representatives_of round.now.shards.now) round.now.board.now round.now.window.now.through after.worker) }
    ensures backup { IfOk result (λ after. StaysSeat round.now.backups.now seated.backup after.backup) }
    ensures ticks { IfOk result (λ after. RisesOwn N.design N.plan (λ tally. worker_steps tally seated.worker) (λ tally. worker_steps tally after.worker) steps.old steps.new) }
{
    let Seated { worker, backup } = seated;
    let Worker {
        number,
        seat,
        shards,
        dry,
    } = worker;
    if dry {
        let (backup, shards) = take_turns(alloc, round, number, backup, shards, room, steps)?;
        let worker = Worker {
            number,
            seat,
            shards,
            dry,
        };
        return Ok(Seated { worker, backup });
    }
    let (seat, shards) = claim_all(alloc, round, number, seat, room, steps)?;
    let worker = Worker {
        number,
        seat,
        shards,
        dry: true,
    };
    Ok(Seated { worker, backup })
}

/// Has a worker that is through with its own shards visit the slots.
fn work_beside<'d, N: World, G: Gate, L: Ledger>(
    alloc: Global,
    round: &Round<'_, 'd, N, G>,
    seated: Seated<N>,
    room: &mut ShardRoom<'d, N>,
    steps: &mut Steps<L>,
) -> Result<Seated<N>, NoMemory>
    requires place { IsPlaceOf N.design N.plan round.now.shards.now round.now.board.now }
    requires backups { AreBackupsOf round.now.shards.now round.now.backups.now }
    requires at { IsWorkerAt (representatives_of round.now.shards.now) round.now.board.now round.now.window.now.through seated.worker }
    requires fresh { IsFreshBackup round.now.backups.now seated.backup }
    ensures through { IfOk result (λ after. IsWorkerAt (representatives_of round.now.shards.now) round.now.board.now round.now.window.now.through after.worker) }
    ensures visited { IfOk result (λ after. HasVisited round.now.backups.now seated.backup after.backup) }
    ensures same { IfOk result (λ after. (tally : OwnStepsOf N.design N.plan) → worker_steps tally after.worker ≡ worker_steps tally seated.worker) }
    ensures ticks { IfOk result (λ after. RisesOwn N.design N.plan (λ tally. visit_steps tally (representatives_of round.now.shards.now) round.now.window.now.before (visited_by after.backup))
        (λ tally. visit_steps tally (representatives_of round.now.shards.now) round.now.window.now.through (visited_by after.backup)) steps.old steps.new) }
{
    let _first = round.window.window().begins();
    let Seated { worker, backup } = seated;
    let Worker {
        number,
        seat,
        shards,
        dry,
    } = worker;
    let (seat, backup) = visit_slots(alloc, round, number, seat, backup, room, steps)?;
    let worker = Worker {
        number,
        seat,
        shards,
        dry,
    };
    Ok(Seated { worker, backup })
}

/// Takes a worker through a round in this room.
fn work_in<'d, N: World, G: Gate, L: Ledger>(
    alloc: Global,
    round: &Round<'_, 'd, N, G>,
    seated: Seated<N>,
    room: &mut ShardRoom<'d, N>,
    steps: &mut Steps<L>,
) -> Result<Seated<N>, NoMemory>
    requires place { IsPlaceOf N.design N.plan round.now.shards.now round.now.board.now }
    requires backups { AreBackupsOf round.now.shards.now round.now.backups.now }
    requires at { IsWorkerAt (representatives_of round.now.shards.now) round.now.board.now round.now.window.now.before seated.worker }
    requires fresh { IsFreshBackup round.now.backups.now seated.backup }
    ensures through { IfOk result (λ after. IsWorkerAt (representatives_of round.now.shards.now) round.now.board.now round.now.window.now.through after.worker) }
    ensures visited { IfOk result (λ after. HasVisited round.now.backups.now seated.backup after.backup) }
    ensures ticks { IfOk result (λ after. RoseInRound N.design N.plan (representatives_of round.now.shards.now) round.now.window.now.before round.now.window.now.through seated.worker after
        steps.old steps.new) }
{
    let own = work_own(alloc, round, seated, room, steps)?;
    let after = work_beside(alloc, round, own, room, steps)?;
    Ok(after)
}

/// Takes a worker through a round: it claims shards until none is left, where it hasn't done so yet; its shards go through the round's window, or are found behind it; and then it
/// visits the slots for copies of other workers' shards. `steps` ticks at most once for each own step of the faulty machines in between.
///
/// # Errors
///
/// Want of memory.
pub fn work<N: World, G: Gate, L: Ledger>(
    alloc: Global,
    round: &Round<'_, '_, N, G>,
    seated: Seated<N>,
    steps: &mut Steps<L>,
) -> Result<Seated<N>, NoMemory>
    requires place { IsPlaceOf N.design N.plan round.now.shards.now round.now.board.now }
    requires backups { AreBackupsOf round.now.shards.now round.now.backups.now }
    requires at { IsWorkerAt (representatives_of round.now.shards.now) round.now.board.now round.now.window.now.before seated.worker }
    requires fresh { IsFreshBackup round.now.backups.now seated.backup }
    ensures through { IfOk result (λ after. IsWorkerAt (representatives_of round.now.shards.now) round.now.board.now round.now.window.now.through after.worker) }
    ensures visited { IfOk result (λ after. HasVisited round.now.backups.now seated.backup after.backup) }
    ensures ticks { IfOk result (λ after. RoseInRound N.design N.plan (representatives_of round.now.shards.now) round.now.window.now.before round.now.window.now.through seated.worker after
        steps.old steps.new) }
{
    // The machine in it is of this thread alone.
    let mut room = ShardRoom::new(alloc);
    work_in(alloc, round, seated, &mut room, steps)
}
