// A fault of a shard.

ghost use Rattle.std.specs.Prelude.{◌≡◌, None};
ghost use Rattle.vf_base.specs.Base.{fault_number};
ghost use Rattle.copy_state.specs.Kept.{nothing_kept};

use copy_state::FaultCopy;
use fault_strobes::Strobed;
use std::alloc::Global;
use vf_base::{End, FaultId};

/// A fault of a shard: what is kept of its faulty machine's state, the time, in steps, of the last slot that this machine ran, what the strobes said of it so far, and how its
/// grading ended, if it did. Where its samples are kept no strobe ends it; it ends undetected where the good machine's run is through.
#[derive(Drop)]
pub struct ShardFault {
    pub copy: FaultCopy,
    pub time: u64,
    pub strobed: Strobed,
    pub end: Option<End>,
}

/// A fault before the first slot.
pub fn new_fault(alloc: Global, fault: FaultId, strobed: Strobed) -> ShardFault
    ensures copy { result.copy ≡ nothing_kept (fault_number fault) }
    ensures strobed { result.strobed ≡ strobed }
    ensures end { result.end ≡ None }
{
    ShardFault {
        copy: FaultCopy::new(alloc, fault),
        time: 0,
        strobed,
        end: None,
    }
}
