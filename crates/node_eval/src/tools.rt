// What running a statement needs.

ghost use Rattle.std.specs.Prelude.{◌≡◌, ◌≤◌, vec_capacity};

use expr_eval::Stack;
use v_design::Update;

/// What running a statement needs: room for the updates of an assignment, and for evaluating expressions.
#[derive(Drop)]
pub(crate) struct Tools {
    pub updates: Vec<Option<Update>>,
    pub stack: Stack,
    pub ghost space: { 128 ≤ vec_capacity updates },
    pub ghost levels: { stack.depth ≡ 256 },
}
