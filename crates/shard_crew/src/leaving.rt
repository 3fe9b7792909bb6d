// Copies of shards are left in a round's slots.

ghost use Rattle.std.specs.Prelude.{IfOk};
ghost use Rattle.std.specs.List.{All};
ghost use Rattle.shard_findings.specs.shard_claims.Workers.{IsBackupSeat, StaysSeat};
ghost use Rattle.shard_findings.specs.shard_turns.Backups.{slot_calls};
ghost use Rattle.shard_crew.specs.Leaving.{AreLeft, HasSlot, HaveSlots, IsLeft, shards_of, shards_of_all};

use shard_findings::{BackupSeat, Backups, ClaimedShard, Worker};
use std::alloc::Global;
use v_design::World;
use vf_base::NoMemory;

/// Leaves a copy of a shard in the slot of its number, where the grading of one of its faults goes on.
fn leave_shard<N: World>(
    alloc: Global,
    backups: &Backups<N>,
    seat: BackupSeat<N>,
    claimed: &ClaimedShard<N>,
) -> Result<BackupSeat<N>, NoMemory>
    requires own { IsBackupSeat backups.now seat }
    requires slot { HasSlot backups.now claimed.now }
    ensures stays { IfOk result (StaysSeat backups.now seat) }
    ensures left { IfOk result (λ after. IsLeft claimed.now (slot_calls seat) (slot_calls after)) }
{
    if !claimed.shard.goes_on() {
        return Ok(seat);
    }
    let copy = claimed.shard.copy(alloc)?;
    let seat = backups.leave(seat, claimed.number, copy);
    Ok(seat)
}

/// The same of some shards.
fn leave_shards<N: World>(
    alloc: Global,
    backups: &Backups<N>,
    seat: BackupSeat<N>,
    shards: &[ClaimedShard<N>],
) -> Result<BackupSeat<N>, NoMemory>
    requires own { IsBackupSeat backups.now seat }
    requires slots { All (HasSlot backups.now) shards.now }
    ensures stays { IfOk result (StaysSeat backups.now seat) }
    ensures left { IfOk result (λ after. AreLeft shards.now (slot_calls seat) (slot_calls after)) }
{
    let mut seat = seat;
    'shards: for claimed in shards {
        seat = leave_shard(alloc, backups, seat, claimed)?;
    }
    Ok(seat)
}

/// The same of a worker's shards, once it has claimed.
fn leave_worker<N: World>(
    alloc: Global,
    backups: &Backups<N>,
    seat: BackupSeat<N>,
    worker: &Worker<N>,
) -> Result<BackupSeat<N>, NoMemory>
    requires own { IsBackupSeat backups.now seat }
    requires slots { HaveSlots backups.now worker.now }
    ensures stays { IfOk result (StaysSeat backups.now seat) }
    ensures left { IfOk result (λ after. AreLeft (shards_of worker.now) (slot_calls seat) (slot_calls after)) }
{
    if !worker.dry {
        return Ok(seat);
    }
    leave_shards(alloc, backups, seat, &worker.shards)
}

/// Leaves copies of all workers' shards that go on in the slots of a round, each in that of its number.
///
/// # Errors
///
/// Want of memory.
pub fn leave_copies<N: World>(
    alloc: Global,
    backups: &Backups<N>,
    seat: BackupSeat<N>,
    workers: &[Worker<N>],
) -> Result<BackupSeat<N>, NoMemory>
    requires own { IsBackupSeat backups.now seat }
    requires slots { All (HaveSlots backups.now) workers.now }
    ensures stays { IfOk result (StaysSeat backups.now seat) }
    ensures left { IfOk result (λ after. AreLeft (shards_of_all workers.now) (slot_calls seat) (slot_calls after)) }
{
    let mut seat = seat;
    'workers: for worker in workers {
        seat = leave_worker(alloc, backups, seat, worker)?;
    }
    Ok(seat)
}
