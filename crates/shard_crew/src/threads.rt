// Workers side by side, each in a thread of its own.

ghost use Rattle.std.specs.Prelude.{◌≡◌, length, IfOk, IsSomeAnd, Some};
ghost use Rattle.fault_shards.specs.Shards.{representatives_of};
ghost use Rattle.shard_findings.specs.shard_claims.Workers.{AreBackupsOf, HasVisited, IsPlaceOf, IsWorkerAt};
ghost use Rattle.shard_findings.specs.shard_claims.declared.worker.Seated.{Seated};
ghost use Rattle.shard_findings.specs.shard_turns.declared.backups.BackupSeat.{BackupSeat};
ghost use Rattle.shard_findings.specs.AllWorkers.{AreWorkersAt};
ghost use Rattle.shard_crew.specs.Crews.{CrewRose, HasCrewVisited, IsCrewSeat, IsSeatedAt, WorkerRose};
ghost use Rattle.shard_crew.specs.Crossings.{MayCross};

use shard_findings::{BackupSeat, Round, Seated, Worker, work};
use std::alloc::Global;
use std::sync::ledger::Ledger;
use std::thread::{Threads, join_mut};
use v_design::World;
use vf_base::{Gate, NoMemory, Steps};

/// One worker with the one counter.
fn work_alone<N: World, G: Gate, L: Ledger>(
    alloc: Global,
    round: &Round<'_, '_, N, G>,
    seated: &mut Option<Seated<N>>,
    mine: &mut [Steps<L>],
) -> Result<Seated<N>, NoMemory>
    requires place { IsPlaceOf N.design N.plan round.now.shards.now round.now.board.now }
    requires backups { AreBackupsOf round.now.shards.now round.now.backups.now }
    requires at { IsSomeAnd seated.old (IsSeatedAt (representatives_of round.now.shards.now) round.now.board.now round.now.backups.now round.now.window.now.before) }
    requires one { length mine.old ≡ 1 }
    ensures through { IfOk result (λ after. IsWorkerAt (representatives_of round.now.shards.now) round.now.board.now round.now.window.now.through after.worker) }
    ensures visited { IfOk result (λ after. (one : Seated N) → seated.old ≡ Some one → HasVisited round.now.backups.now one.backup after.backup) }
    ensures ticks { IfOk result (λ after. WorkerRose N.design N.plan (representatives_of round.now.shards.now) round.now.window.now.before round.now.window.now.through
        seated.old after mine.old mine.new) }
{
    let Some(one) = seated.take() else {
        unreachable!();
    };
    let after = work(alloc, round, one, &mut mine[0])?;
    Ok(after)
}

/// Takes workers through a round, each in a thread of its own and with a counter of its own; the last one that is started runs in the calling thread. The seat of the round's
/// backups, off which theirs are split, comes back with the visits of all.
///
/// # Errors
///
/// Want of memory. All workers came to the round's end then, or ran out of memory themselves; some are lost.
pub fn crew<N: World, R: Threads + Sync, G: Gate + Sync, L: Ledger + Send + Sync>(
    rt: &R,
    alloc: Global,
    round: &Round<'_, '_, N, G>,
    workers: &mut Vec<Worker<N>>,
    seat: &mut Option<BackupSeat<N>>,
    steps: &mut [Steps<L>],
) -> Result<BackupSeat<N>, NoMemory>
    requires place { IsPlaceOf N.design N.plan round.now.shards.now round.now.board.now }
    requires backups { AreBackupsOf round.now.shards.now round.now.backups.now }
    requires at { AreWorkersAt (representatives_of round.now.shards.now) round.now.board.now round.now.window.now.before (length steps.old) workers.old.items }
    requires seat { IsSomeAnd seat.old (IsCrewSeat round.now.backups.now (length steps.old)) }
    // What the bounds of the type parameters say.
    requires bounds { MayCross N.row R.row G.row L.row }
    ensures through { IfOk result (λ _. AreWorkersAt (representatives_of round.now.shards.now) round.now.board.now round.now.window.now.through (length steps.old) workers.new.items) }
    ensures visited { IfOk result (λ after. (one : BackupSeat N) → seat.old ≡ Some one → HasCrewVisited round.now.backups.now (length steps.old) one after) }
    ensures ticks { IfOk result (λ after. CrewRose N.design N.plan (representatives_of round.now.shards.now) round.now.window.now.before round.now.window.now.through workers.old.items
        workers.new.items after steps.old steps.new) }
{
    let Some(all) = seat.take() else {
        unreachable!();
    };
    let Some(worker) = workers.pop() else {
        return Ok(all);
    };
    let count = workers.len();
    let (others, mine) = steps.split_at_mut(count);
    if count == 0 {
        let mut first = Some(Seated {
            worker,
            backup: all,
        });
        let alone = work_alone(alloc, round, &mut first, mine)?;
        let Seated { worker, backup } = alone;
        workers.push(worker)?;
        return Ok(backup);
    }
    let (rest, backup) = round.backups.split(all);
    let mut first = Some(Seated { worker, backup });
    let mut left = Some(rest);
    // Each thread has an allocator of its own.
    let theirs = alloc;
    let (a, b) = join_mut(
        rt,
        &mut || -> Result<Seated<N>, NoMemory>
            requires place { IsPlaceOf N.design N.plan round.now.shards.now round.now.board.now }
            requires backups { AreBackupsOf round.now.shards.now round.now.backups.now }
            requires at { IsSomeAnd first (IsSeatedAt (representatives_of round.now.shards.now) round.now.board.now round.now.backups.now round.now.window.now.before) }
            requires one { length mine.now ≡ 1 }
            ensures through { IfOk result (λ after. IsWorkerAt (representatives_of round.entry.now.shards.now) round.entry.now.board.now round.entry.now.window.now.through after.worker) }
            ensures visited { IfOk result (λ after. (one : Seated N) → first.entry ≡ Some one → HasVisited round.entry.now.backups.now one.backup after.backup) }
            ensures ticks { IfOk result (λ after. WorkerRose N.design N.plan (representatives_of round.entry.now.shards.now) round.entry.now.window.now.before round.entry.now.window.now.through
                first.entry after mine.entry.now mine.exit.now) }
        { work_alone(alloc, round, &mut first, mine) },
        &mut || -> Result<BackupSeat<N>, NoMemory>
            requires place { IsPlaceOf N.design N.plan round.now.shards.now round.now.board.now }
            requires backups { AreBackupsOf round.now.shards.now round.now.backups.now }
            requires at { AreWorkersAt (representatives_of round.now.shards.now) round.now.board.now round.now.window.now.before (length others.now) workers.now.items }
            requires seat { IsSomeAnd left (IsCrewSeat round.now.backups.now (length others.now)) }
            requires bounds { MayCross N.row R.row G.row L.row }
            ensures through { IfOk result (λ _. AreWorkersAt (representatives_of round.entry.now.shards.now) round.entry.now.board.now round.entry.now.window.now.through
                (length others.entry.now) workers.exit.now.items) }
            ensures visited { IfOk result (λ after. (one : BackupSeat N) → left.entry ≡ Some one → HasCrewVisited round.entry.now.backups.now (length others.entry.now) one after) }
            ensures ticks { IfOk result (λ after. CrewRose N.design N.plan (representatives_of round.entry.now.shards.now) round.entry.now.window.now.before round.entry.now.window.now.through
                workers.entry.now.items workers.exit.now.items after others.entry.now others.exit.now) }
        { crew(rt, theirs, round, workers, &mut left, others) },
    );
    let came = a?;
    let rest = b?;
    let Seated { worker, backup } = came;
    workers.push(worker)?;
    Ok(round.backups.join(rest, backup))
}
