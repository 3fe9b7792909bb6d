// Faults before the first slot.

ghost use Rattle.std.specs.Prelude.{◌≡◌, IfOk};
ghost use Rattle.std.specs.List.{AllZip};
ghost use Rattle.vf_base.specs.Base.{fault_number};
ghost use Rattle.vf_base.specs.declared.ids.FaultId.{FaultId};
ghost use Rattle.fault_strobes.specs.Said.{SaysNothing, keeps};
ghost use Rattle.fault_strobes.specs.Shown.{said_of};
ghost use Rattle.shard_windows.specs.Fresh.{IsFresh};

use fault_strobes::Strobed;
use shard_slots::{ShardFault, new_fault};
use std::alloc::Global;
use vf_base::{FaultId, NoMemory};

/// What strobes said of a fault before the first one, whose samples are kept or not.
fn says_nothing(alloc: Global, kept: bool) -> Strobed
    ensures nothing { SaysNothing (said_of result) }
    ensures kind { keeps (said_of result) ≡ kept }
{
    if kept {
        Strobed::Keeping(Vec::new(alloc))
    } else {
        Strobed::Judging(None)
    }
}

/// The faults of some numbers before the first slot, in order, whose samples are kept or not.
///
/// # Errors
///
/// Want of memory.
pub fn fresh_faults(
    alloc: Global,
    faults: &[FaultId],
    kept: bool,
) -> Result<Vec<ShardFault>, NoMemory>
    ensures { IfOk result (λ fresh. AllZip (λ (fault : FaultId) own. IsFresh kept (fault_number fault) own) faults.now fresh.items) }
{
    let mut fresh = Vec::with_capacity(alloc, faults.len())?;
    'faults: for fault in faults {
        let strobed = says_nothing(alloc, kept);
        fresh.push(new_fault(alloc, *fault, strobed))?;
    }
    Ok(fresh)
}
