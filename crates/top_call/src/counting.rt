// The counters of a run.

ghost use Rattle.std.specs.Prelude.{◌≡◌, length, IfOk};

use std::alloc::Global;
use std::sync::ledger::{Ledger, Share};
use vf_base::{NoMemory, Steps};

/// One counter for the calling thread, and one for each worker.
pub const COUNTERS: u64 = 65;

/// A counter from each share of a ledger of so many parts, none of which has counted anything.
///
/// # Errors
///
/// There is no memory for them.
pub fn counters<L: Ledger + Send + Sync>(
    alloc: Global,
    share: Share<L>,
) -> Result<Vec<Steps<L>>, NoMemory>
    requires parts { share.parts ≡ COUNTERS }
    requires amount { share.amount ≡ 0 }
    ensures { IfOk result (λ steps. length steps.items ≡ COUNTERS) }
{
    let mut rest = share;
    let mut steps = Vec::new(alloc);
    'shares: for _ in 0..COUNTERS {
        let part = rest.split_off(1, 0);
        steps.push(Steps::new(part))?;
    }
    Ok(steps)
}
