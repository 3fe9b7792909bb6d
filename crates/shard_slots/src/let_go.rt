// A fault whose grading ended.

ghost use Rattle.shard_slots.specs.Ended.{LetsGo};

use copy_lockstep::ShardFault;
use copy_state::FaultCopy;
use std::alloc::Global;

/// A fault whose grading ended keeps nothing of its faulty machine any more, so that the memory is there for others; any other fault stays as it is.
pub(crate) fn let_go_ended(alloc: Global, own: &mut ShardFault)
    ensures { LetsGo own.old own.new }
{
    if own.end.is_none() {
        return;
    }
    let number = own.copy.fault();
    own.copy = FaultCopy::new(alloc, number);
}
