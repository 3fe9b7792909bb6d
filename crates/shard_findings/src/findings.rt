// The findings of all workers behind the last round, and their words.

ghost use Rattle.std.specs.Prelude.{◌≡◌, ◌++◌, ◌<◌, ◌≤◌, ◌^◌, length, sum_by, IfOk, OnOk};
ghost use Rattle.std.specs.List.{All};
ghost use Rattle.copy_laws.specs.Windows.{good_slots};
ghost use Rattle.own_gradings.specs.Numbers.{OwnStepsOf};
ghost use Rattle.shard_claims.specs.copy_shard.Shards.{fault_steps_at, findings_of, places_of, shard_steps};
ghost use Rattle.fault_shards.specs.Found.{IsFinding, found_faults};
ghost use Rattle.fault_shards.specs.Shards.{representatives_of};
ghost use Rattle.shard_claims.specs.Workers.{IsPlaceOf, IsWorkerAt, worker_steps};
ghost use Rattle.shard_claims.specs.copy_shard.Together.{claimed_steps};
ghost use Rattle.shard_findings.specs.AllWorkers.{AreWorkersAt, crew_steps, IsRest};
ghost use Rattle.shard_findings.specs.Gatherings.{claimed_most, IsFoundShard, HaveGone, places_in, HasGathered};
ghost use Rattle.verdict_words.specs.Views.{lent_share};

use crate::gathered::Gathered;
use crate::place::Place;
use crate::rules::rules_hold;
use shard_claims::{ClaimedShard, Shard, Worker};
use std::alloc::Global;
use v_design::World;
use verdict_settle::settle_findings;
use verdict_words::Seat;
use vf_base::{Finding, NoMemory};

/// Appends the findings of a shard that has gone through all slots.
fn push_found<N: World>(shard: &Shard<N>, found: &mut Vec<Finding>) -> Result<(), NoMemory>
    requires { shard.now.gone ≡ length (good_slots N.design N.plan) }
    ensures faults { OnOk result (found_faults found.new.items ≡ found_faults found.old.items ++ places_of shard.now.faults) }
    ensures graded { OnOk result (All (IsFinding N.design N.plan) found.old.items → All (IsFinding N.design N.plan) found.new.items) }
    ensures complete { OnOk result (found_faults (findings_of shard.now.faults) ≡ places_of shard.now.faults) }
    ensures steps { OnOk result ((tally : OwnStepsOf N.design N.plan) → shard_steps tally shard.now ≤ sum_by (fault_steps_at tally) (places_of shard.now.faults)) }
{
    shard.stands();
    shard.push_findings(found)?;
    Ok(())
}

/// The findings of shards that have gone through all slots, shard by shard.
fn findings_in<N: World>(
    alloc: Global,
    shards: &[ClaimedShard<N>],
) -> Result<Vec<Finding>, NoMemory>
    requires { HaveGone (length (good_slots N.design N.plan)) shards.now }
    ensures faults { IfOk result (λ found. found_faults found.items ≡ places_in shards.now) }
    ensures graded { IfOk result (λ found. All (IsFinding N.design N.plan) found.items) }
    ensures complete { IfOk result (λ _. All IsFoundShard shards.now) }
    ensures steps { IfOk result (λ _. (tally : OwnStepsOf N.design N.plan) → claimed_steps tally shards.now ≤ claimed_most tally shards.now) }
{
    let mut found = Vec::new(alloc);
    'shards: for claimed in shards {
        push_found(&claimed.shard, &mut found)?;
    }
    Ok(found)
}

/// What a worker has behind the last round. Its seat settles the words of its findings.
fn finish_worker<N: World, G>(
    alloc: Global,
    place: &Place<'_, '_, N, G>,
    worker: Worker<N>,
) -> Result<Gathered<N>, NoMemory>
    requires place { IsPlaceOf N.design N.plan place.now.shards.now place.now.board.now }
    requires at { IsWorkerAt (representatives_of place.now.shards.now) place.now.board.now (length (good_slots N.design N.plan)) worker }
    ensures gathered { IfOk result (HasGathered N.design N.plan (representatives_of place.now.shards.now) place.now.board.now lent_share) }
    ensures steps { IfOk result (λ gathered. (tally : OwnStepsOf N.design N.plan) → worker_steps tally worker ≤ claimed_most tally gathered.shards.items) }
{
    fault_shards::shards_cover();
    beside_laws::good_run_goes_on();
    rules_hold(place.setup);
    let Worker { seat, shards, .. } = worker;
    let findings = findings_in(alloc, &shards)?;
    let seat = settle_findings(place.board, seat, &findings);
    Ok(Gathered {
        seat,
        findings,
        shards,
    })
}

/// What all workers have together behind the last round, the seats joined into one.
///
/// # Errors
///
/// Want of memory.
pub fn finish<N: World, G>(
    alloc: Global,
    place: &Place<'_, '_, N, G>,
    seat: Seat<N>,
    count: u32,
    workers: Vec<Worker<N>>,
) -> Result<Gathered<N>, NoMemory>
    requires place { IsPlaceOf N.design N.plan place.now.shards.now place.now.board.now }
    requires some { 0 < count }
    requires rest { IsRest place.now.board.now count seat }
    requires at { AreWorkersAt (representatives_of place.now.shards.now) place.now.board.now (length (good_slots N.design N.plan)) count workers.items }
    ensures gathered { IfOk result (HasGathered N.design N.plan (representatives_of place.now.shards.now) place.now.board.now (2 ^ 62)) }
    ensures steps { IfOk result (λ gathered. (tally : OwnStepsOf N.design N.plan) → crew_steps tally workers.items ≤ claimed_most tally gathered.shards.items) }
{
    let mut seat = seat;
    let mut workers = workers;
    let mut findings = Vec::new(alloc);
    let mut shards = Vec::new(alloc);
    'workers: while let Some(worker) = workers.pop() {
        let more = finish_worker(alloc, place, worker)?;
        let Gathered {
            seat: own,
            findings: found,
            shards: mut claimed,
        } = more;
        seat = place.board.join(seat, own);
        findings.extend_from_slice(found.as_slice())?;
        shards.append(&mut claimed)?;
    }
    Ok(Gathered {
        seat,
        findings,
        shards,
    })
}
