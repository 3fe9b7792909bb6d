// What is kept of all listed faults.

ghost use Rattle.std.specs.Prelude.{◌≡◌, ◌+◌, ◌<◌, IfOk, length, take};
ghost use Rattle.std.specs.Vec.Iter.{into_iter_items};
ghost use Rattle.vf_base.specs.Base.{fault_number};
ghost use Rattle.vf_base.specs.Lists.{AllHold};
ghost use Rattle.dict_windows.specs.kept_shard.Keeping.{KeptWhole, numbers_of};
ghost use Rattle.fault_shards.specs.Representatives.{IsRepresentative};
ghost use Rattle.fault_shards.specs.Shards.{AreShardsOf, representatives_of};
ghost use Rattle.vf_dict.specs.Listings.{AreKept, AreLeft};

use fault_shards::Shards;
use good_trace::Setup;
use kept_samples::Kept;
use std::alloc::Global;
use std::vec::IntoIter;
use v_design::World;
use vf_base::{FaultId, NoMemory};

/// Takes what is kept of a fault that stands for its class, which is the next one of those that are left.
fn next_kept<N: World>(rest: &mut IntoIter<Kept, Global>, number: FaultId) -> Kept
    requires left { AreLeft N.design N.plan (fault_number number) (into_iter_items rest.old) }
    requires stands { IsRepresentative N.design N.plan.faults (fault_number number) }
    ensures left { AreLeft N.design N.plan (fault_number number + 1) (into_iter_items rest.new) }
    ensures whole { KeptWhole N.design N.plan result }
    ensures number { result.fault ≡ number }
{
    match rest.next() {
        Some(own) => own,
        None => unreachable!(),
    }
}

/// What is kept of a listed fault, beside those before it: the same as of an earlier fault of its class, else its own, which is the next one of those that are left.
fn keep_listed<N: World>(
    alloc: Global,
    setup: &Setup<'_, N>,
    shards: &Shards,
    earlier: &[Kept],
    rest: &mut IntoIter<Kept, Global>,
    number: FaultId,
) -> Result<Kept, NoMemory>
    requires shards { AreShardsOf N.design N.plan.faults shards.now }
    requires earlier { AreKept N.design N.plan (take (fault_number number) N.plan.faults) earlier.now }
    requires left { AreLeft N.design N.plan (fault_number number) (into_iter_items rest.old) }
    requires listed { fault_number number < length N.plan.faults }
    ensures whole { IfOk result (λ kept. KeptWhole N.design N.plan kept) }
    ensures number { IfOk result (λ kept. kept.fault ≡ number) }
    ensures left { IfOk result (λ _. AreLeft N.design N.plan (fault_number number + 1) (into_iter_items rest.new)) }
{
    fault_list::one_full_class();
    let _design = setup.design();
    let first = shards.representative(number);
    match earlier.get(first.0 as usize) {
        Some(same) => {
            let copied = same.copy(alloc, number)?;
            Ok(copied)
        }
        None => {
            let own = next_kept::<N>(rest, number);
            Ok(own)
        }
    }
}

/// What is kept of each listed fault, in list order, by what is kept of those that stand for their classes.
pub(crate) fn keep_all<N: World>(
    alloc: Global,
    setup: &Setup<'_, N>,
    shards: &Shards,
    kept: Vec<Kept>,
) -> Result<Vec<Kept>, NoMemory>
    requires shards { AreShardsOf N.design N.plan.faults shards.now }
    requires whole { AllHold (KeptWhole N.design N.plan) kept.items }
    requires faults { numbers_of kept.items ≡ representatives_of shards.now }
    ensures { IfOk result (λ kept. AreKept N.design N.plan N.plan.faults kept.items) }
{
    let plan = setup.plan();
    let mut rest = kept.into_iter();
    let mut listed = Vec::new(alloc);
    'faults: for place in 0..plan.faults.as_slice().len() {
        let number = FaultId(place as u32);
        let own = keep_listed(alloc, setup, shards, &listed, &mut rest, number)?;
        listed.push(own)?;
    }
    Ok(listed)
}
