// Shards in the order of their claims.

ghost use Rattle.std.specs.Prelude.{◌≡◌, map, IfOk};
ghost use Rattle.std.specs.List.Sorted.{IsPermutation, IsNonDecreasingBy};
ghost use Rattle.shard_workers.specs.Ordered.{claim_number, claimed_shard, AreOrdered};

use shard_rounds::{ClaimedShard, Shard};
use std::alloc::Global;
use v_design::World;
use vf_base::NoMemory;

/// Puts shards into the order of their claims.
fn sort_claims<N: World>(claimed: &mut Vec<ClaimedShard<N>>)
    ensures permuted { IsPermutation claimed.old.items claimed.new.items }
    ensures sorted { IsNonDecreasingBy claim_number claimed.new.items }
{
    claimed.sort_unstable_by_key(|one| one.number);
}

/// The shards without their claims' numbers.
fn without_numbers<N: World>(
    alloc: Global,
    claimed: Vec<ClaimedShard<N>>,
) -> Result<Vec<Shard<N>>, NoMemory>
    ensures { IfOk result (λ shards. shards.items ≡ map claimed_shard claimed.items) }
{
    let mut shards = Vec::new(alloc);
    'claimed: for one in claimed {
        let ClaimedShard { shard, .. } = one;
        shards.push(shard)?;
    }
    Ok(shards)
}

/// Shards in the order of the claims by which workers had them.
///
/// # Errors
///
/// Want of memory.
pub(crate) fn in_claim_order<N: World>(
    alloc: Global,
    claimed: Vec<ClaimedShard<N>>,
) -> Result<Vec<Shard<N>>, NoMemory>
    ensures { IfOk result (λ shards. AreOrdered claimed.items shards.items) }
{
    let mut claimed = claimed;
    sort_claims(&mut claimed);
    let shards = without_numbers(alloc, claimed)?;
    Ok(shards)
}
