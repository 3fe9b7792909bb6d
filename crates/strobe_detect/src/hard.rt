// The hard strobes of a fault.

use vf_base::{FaultId, Seq};

/// A fault with the strobe times, ascending, at which it is detected by some watched bit.
#[derive(Drop)]
pub struct Hard {
    pub fault: FaultId,
    pub times: Seq<u64>,
}
