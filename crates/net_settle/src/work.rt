// The room in which nodes are evaluated.

ghost use Rattle.std.specs.Prelude.{◌≡◌, ◌≤◌, vec_len};

use expr_eval::Stack;
use four_value::Vec4;
use node_eval::BlockRoom;

/// Room for evaluating any node of the design that it was made for, and the values that the last one gave its outputs.
#[derive(Drop)]
pub struct NodeWork {
    pub(crate) results: Vec<Vec4>,
    pub(crate) count: usize,
    pub(crate) block: BlockRoom,
    pub(crate) stack: Stack,
    pub ghost within: { count ≤ vec_len results },
    pub ghost levels: { stack.depth ≡ 256 },
}
