// Copies of the faults of a shard.

ghost use Rattle.std.specs.Prelude.{◌≡◌, false, IfOk};
ghost use Rattle.std.specs.List.{AllZip};
ghost use Rattle.vf_base.specs.Lists.{AllHold};
ghost use Rattle.shard_windows.specs.copy_window.ShardFaults.{kept_by};
ghost use Rattle.fault_strobes.specs.Said.{keeps};
ghost use Rattle.fault_strobes.specs.Shown.{said_of};
ghost use Rattle.copy_shard.specs.Copied.{IsCopied};

use fault_strobes::Strobed;
use shard_windows::ShardFault;
use std::alloc::Global;
use vf_base::NoMemory;

/// What the strobes said of a fault that they judge, once more.
fn copied_strobed(strobed: &Strobed) -> Strobed
    requires { keeps (said_of strobed.now) ≡ false }
    ensures { said_of result ≡ said_of strobed.now }
{
    match strobed {
        Strobed::Judging(possible) => Strobed::Judging(*possible),
        Strobed::Keeping(_) => unreachable!(),
    }
}

/// A fault that is judged, once more.
fn copied_fault(alloc: Global, own: &ShardFault) -> Result<ShardFault, NoMemory>
    requires { kept_by own.now ≡ false }
    ensures { IfOk result (IsCopied own.now) }
{
    let copy = own.copy.copied(alloc)?;
    let strobed = copied_strobed(&own.strobed);
    Ok(ShardFault {
        copy,
        time: own.time,
        strobed,
        end: own.end,
    })
}

/// Some faults that are judged, once more, in order.
pub(crate) fn copied_faults(
    alloc: Global,
    faults: &[ShardFault],
) -> Result<Vec<ShardFault>, NoMemory>
    requires { AllHold (λ (own : ShardFault). kept_by own ≡ false) faults.now }
    ensures { IfOk result (λ copies. AllZip IsCopied faults.now copies.items) }
{
    let mut copies = Vec::with_capacity(alloc, faults.len())?;
    'faults: for own in faults {
        let copy = copied_fault(alloc, own)?;
        copies.push(copy)?;
    }
    Ok(copies)
}
