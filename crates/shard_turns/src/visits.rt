// What a worker does that is through with its own shards: it visits the slots.

ghost use Rattle.std.specs.Prelude.{◌≡◌, ◌<◌, ◌≤◌, ◌↔◌, IfOk, IsTrue, length};
ghost use Rattle.own_gradings.specs.Numbers.{OwnStepsOf, RisesOwn};
ghost use Rattle.fault_shards.specs.Cuts.{shard, shard_count};
ghost use Rattle.fault_shards.specs.Shards.{representatives_of};
ghost use Rattle.copy_shard.specs.Shards.{places_of};
ghost use Rattle.verdict_words.specs.Seats.{IsSeatOf};
ghost use Rattle.shard_turns.specs.Backups.{HasVisited, IsBackupSeat, IsFreshBackup, StaysSeat, visited_by, visits_in};
ghost use Rattle.shard_turns.specs.Claims.{AreBackupsOf, IsPlaceOf};
ghost use Rattle.shard_turns.specs.Visits.{SettlesMore, StandsBefore, faults_steps, visit_steps};

use crate::backups::BackupSeat;
use crate::round::Round;
use crate::turn::{same_faults, shard_turn};
use copy_shard::{Shard, ShardRoom};
use std::alloc::Global;
use std::sync::ledger::Ledger;
use v_design::World;
use verdict_settle::settle_findings;
use verdict_words::{Seat, Taken};
use vf_base::{Gate, NoMemory, Steps};

/// Whether a shard that lay in a slot has the faults of the slot's number, and stands before the round's window.
fn stands_before<N: World, G>(round: &Round<'_, '_, N, G>, number: u32, copy: &Shard<N>) -> bool
    requires { number < shard_count (length (representatives_of round.now.shards.now)) }
    ensures { IsTrue result ↔ StandsBefore (representatives_of round.now.shards.now) round.now.window.now.before number copy.now }
{
    let before = round.window.window().begins();
    if copy.at() != before {
        return false;
    }
    same_faults(copy.faults(), round.shards.shard(number))
}

/// The faults of a shard have taken no fewer own steps behind the round's window than before it. The function does nothing when it runs; its contract is the law.
fn steps_rise<N: World, G>(round: &Round<'_, '_, N, G>, number: u32)
    requires { IsPlaceOf N.design N.plan round.now.shards.now round.now.board.now }
    ensures { (tally : OwnStepsOf N.design N.plan) → faults_steps tally round.now.window.now.before (shard number (representatives_of round.now.shards.now))
        ≤ faults_steps tally round.now.window.now.through (shard number (representatives_of round.now.shards.now)) }
{
    own_gradings::own_steps_rise();
    fault_shards::shards_cover();
    let _design = round.setup.design();
    let _first = round.window.window().begins();
}

/// Settles the words of the faults of a shard whose gradings ended, each where no other call did.
fn settle_shard<N: World, G>(
    alloc: Global,
    round: &Round<'_, '_, N, G>,
    seat: Seat<N>,
    number: u32,
    copy: &Shard<N>,
) -> Result<Seat<N>, NoMemory>
    requires place { IsPlaceOf N.design N.plan round.now.shards.now round.now.board.now }
    requires seat { IsSeatOf round.now.board.now seat }
    requires faults { places_of copy.now.faults ≡ shard number (representatives_of round.now.shards.now) }
    ensures { IfOk result (SettlesMore (representatives_of round.now.shards.now) round.now.board.now seat) }
{
    fault_shards::shards_cover();
    let _design = round.setup.design();
    let _plan = round.setup.plan();
    copy.stands();
    let found = copy.findings(alloc)?;
    let seat = settle_findings(round.board, seat, &found);
    Ok(seat)
}

/// Takes a copy that lay in a slot through the round's window, where it hasn't gone through it: the gate is called before, and the words of what was found are settled.
fn run_copy<'d, N: World, G: Gate, L: Ledger>(
    alloc: Global,
    round: &Round<'_, 'd, N, G>,
    worker: u32,
    seat: Seat<N>,
    number: u32,
    copy: Shard<N>,
    room: &mut ShardRoom<'d, N>,
    steps: &mut Steps<L>,
) -> Result<(Seat<N>, Shard<N>), NoMemory>
    requires place { IsPlaceOf N.design N.plan round.now.shards.now round.now.board.now }
    requires seat { IsSeatOf round.now.board.now seat }
    requires number { number < shard_count (length (representatives_of round.now.shards.now)) }
    ensures seat { IfOk result (λ after. SettlesMore (representatives_of round.now.shards.now) round.now.board.now seat after.0) }
    ensures ticks { IfOk result (λ _. RisesOwn N.design N.plan (λ tally. faults_steps tally round.now.window.now.before (shard number (representatives_of round.now.shards.now)))
        (λ tally. faults_steps tally round.now.window.now.through (shard number (representatives_of round.now.shards.now))) steps.old steps.new) }
{
    steps_rise(round, number);
    if !stands_before(round, number, &copy) {
        return Ok((seat, copy));
    }
    round.gate.turn(worker, number);
    let copy = shard_turn(alloc, round.setup, round.window, room, copy, None, steps)?;
    let seat = settle_shard(alloc, round, seat, number, &copy)?;
    Ok((seat, copy))
}

/// Visits a slot: the copy in it goes through the round's window, where it can be taken and hasn't done so, and is put back.
fn visit_slot<'d, N: World, G: Gate, L: Ledger>(
    alloc: Global,
    round: &Round<'_, 'd, N, G>,
    worker: u32,
    seat: Seat<N>,
    backup: BackupSeat<N>,
    number: u32,
    room: &mut ShardRoom<'d, N>,
    steps: &mut Steps<L>,
) -> Result<(Seat<N>, BackupSeat<N>), NoMemory>
    requires place { IsPlaceOf N.design N.plan round.now.shards.now round.now.board.now }
    requires backups { AreBackupsOf round.now.shards.now round.now.backups.now }
    requires seat { IsSeatOf round.now.board.now seat }
    requires own { IsBackupSeat round.now.backups.now backup }
    requires number { number < visits_in round.now.backups.now }
    ensures seat { IfOk result (λ after. SettlesMore (representatives_of round.now.shards.now) round.now.board.now seat after.0) }
    ensures backup { IfOk result (λ after. StaysSeat round.now.backups.now backup after.1) }
    ensures ticks { IfOk result (λ _. RisesOwn N.design N.plan (λ tally. faults_steps tally round.now.window.now.before (shard number (representatives_of round.now.shards.now)))
        (λ tally. faults_steps tally round.now.window.now.through (shard number (representatives_of round.now.shards.now))) steps.old steps.new) }
{
    steps_rise(round, number);
    let BackupSeat { job, visits } = backup;
    let jobs = &round.backups.jobs;
    let (job, taken) = jobs.take(job, number);
    match taken {
        Taken::Held => Ok((seat, BackupSeat { job, visits })),
        Taken::Got(None) => {
            let job = jobs.put(job, number, None);
            Ok((seat, BackupSeat { job, visits }))
        }
        Taken::Got(Some(copy)) => {
            let (seat, copy) = run_copy(alloc, round, worker, seat, number, copy, room, steps)?;
            let job = jobs.put(job, number, Some(copy));
            Ok((seat, BackupSeat { job, visits }))
        }
    }
}

/// Visits slots until all were visited, by this worker or by others: the copies that haven't gone through the round's window go through it, each by the one worker that visits
/// its slot. The gate is called before each. `steps` ticks at most once for each own step of their faulty machines in between.
///
/// # Errors
///
/// Want of memory. The worker visits no more then.
pub fn visit_slots<'d, N: World, G: Gate, L: Ledger>(
    alloc: Global,
    round: &Round<'_, 'd, N, G>,
    worker: u32,
    seat: Seat<N>,
    backup: BackupSeat<N>,
    room: &mut ShardRoom<'d, N>,
    steps: &mut Steps<L>,
) -> Result<(Seat<N>, BackupSeat<N>), NoMemory>
    requires place { IsPlaceOf N.design N.plan round.now.shards.now round.now.board.now }
    requires backups { AreBackupsOf round.now.shards.now round.now.backups.now }
    requires seat { IsSeatOf round.now.board.now seat }
    requires fresh { IsFreshBackup round.now.backups.now backup }
    ensures seat { IfOk result (λ after. SettlesMore (representatives_of round.now.shards.now) round.now.board.now seat after.0) }
    ensures visited { IfOk result (λ after. HasVisited round.now.backups.now backup after.1) }
    ensures ticks { IfOk result (λ after. RisesOwn N.design N.plan (λ tally. visit_steps tally (representatives_of round.now.shards.now) round.now.window.now.before (visited_by after.1))
        (λ tally. visit_steps tally (representatives_of round.now.shards.now) round.now.window.now.through (visited_by after.1)) steps.old steps.new) }
{
    let mut seat = seat;
    let mut backup = backup;
    'visits: loop {
        let (next, drawn) = round.backups.next_visit(backup);
        backup = next;
        let Some(number) = drawn else {
            return Ok((seat, backup));
        };
        let (own, left) = visit_slot(alloc, round, worker, seat, backup, number, room, steps)?;
        seat = own;
        backup = left;
    }
}
