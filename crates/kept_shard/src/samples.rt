// The samples of a shard's faults, which stand with what is kept of them between windows, and with the faults in a window.

ghost use Rattle.std.specs.Prelude.{◌≡◌, length, IfOk, map};
ghost use Rattle.vf_base.specs.Base.{fault_number};
ghost use Rattle.kept_shard.specs.Keeping.{fresh_kept};
ghost use Rattle.kept_shard.specs.Kept.{AreSwapped, IsSwapped, end_kept, samples_of};

use fault_strobes::Strobed;
use kept_samples::{Kept, Sample};
use shard_windows::ShardFault;
use std::alloc::Global;
use std::mem;
use vf_base::{End, FaultId, NoMemory, Seq};

/// What is kept of the faults of some numbers before the first slot, in order.
pub(crate) fn kept_fresh(alloc: Global, faults: &[FaultId]) -> Result<Vec<Kept>, NoMemory>
    ensures { IfOk result (λ kept. kept.items ≡ map fresh_kept (map fault_number faults.now)) }
{
    let mut kept = Vec::with_capacity(alloc, faults.len())?;
    'faults: for fault in faults {
        kept.push(Kept {
            fault: *fault,
            differs: Seq::from_vec(Vec::new(alloc)),
            end: None,
        })?;
    }
    Ok(kept)
}

/// How a grading ended that no strobe ends: by a race or a loop, if it did. A verdict is no end.
fn full_end(end: Option<End>) -> Option<End>
    ensures { result ≡ end_kept end }
{
    match end {
        None => None,
        Some(End::Detected(_)) => None,
        Some(End::Possible(_)) => None,
        Some(End::Undetected) => None,
        Some(End::Race(side, pair)) => Some(End::Race(side, pair)),
        Some(End::Hyper(time)) => Some(End::Hyper(time)),
    }
}

/// The samples that strobes kept.
fn into_samples(alloc: Global, strobed: Strobed) -> Vec<Sample>
    ensures { result.items ≡ samples_of strobed }
{
    match strobed {
        Strobed::Judging(_) => Vec::new(alloc),
        Strobed::Keeping(differs) => differs,
    }
}

/// Changes the samples of a fault for those that stand with what is kept of it, and tells there how its grading ended.
fn swap_samples(alloc: Global, own: &mut ShardFault, kept: &mut Kept)
    ensures { IsSwapped own.old kept.old own.new kept.new }
{
    let samples = mem::replace(&mut kept.differs, Seq::from_vec(Vec::new(alloc)));
    let strobed = mem::replace(&mut own.strobed, Strobed::Keeping(samples.into_vec()));
    kept.differs = Seq::from_vec(into_samples(alloc, strobed));
    kept.end = full_end(own.end);
}

/// The same of each of some faults.
pub(crate) fn swap_each(alloc: Global, faults: &mut Vec<ShardFault>, kept: &mut Vec<Kept>)
    requires { length kept.old.items ≡ length faults.old.items }
    ensures { AreSwapped faults.old.items kept.old.items faults.new.items kept.new.items }
{
    'faults: for place in 0..faults.len() {
        let own = &mut faults[place];
        let one = &mut kept[place];
        swap_samples(alloc, own, one);
    }
}
