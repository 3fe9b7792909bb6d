// The size that the parts of an expression take from the whole.

ghost use Rattle.std.specs.Prelude.{◌≡◌};
ghost use Rattle.v_design.specs.Sized.{unary_sizing, binary_sizing};
ghost use Rattle.v_width.specs.Resized.{operand_with_whole, left_with_whole, right_with_whole, with_size};
ghost use Rattle.v_width.specs.SizedViews.{sized_of};

use crate::expression::SizedExpr;
use four_value::{BinaryOperator, UnaryOperator};
use v_names::{BinarySizing, Size, UnarySizing, binary_sizing, unary_sizing};

/// Whether the operand has the size of the whole.
fn operand_takes_size(operator: UnaryOperator) -> bool
    ensures { result ≡ operand_with_whole (unary_sizing operator) }
{
    match unary_sizing(operator) {
        UnarySizing::OperandWithWhole => true,
        UnarySizing::OperandAlone => false,
    }
}

/// Whether the left operand has the size of the whole.
fn left_takes_size(operator: BinaryOperator) -> bool
    ensures { result ≡ left_with_whole (binary_sizing operator) }
{
    match binary_sizing(operator) {
        BinarySizing::BothWithWhole | BinarySizing::LeftWithWhole => true,
        BinarySizing::BothTogether | BinarySizing::EachAlone => false,
    }
}

/// Whether the right operand has the size of the whole.
fn right_takes_size(operator: BinaryOperator) -> bool
    ensures { result ≡ right_with_whole (binary_sizing operator) }
{
    match binary_sizing(operator) {
        BinarySizing::BothWithWhole => true,
        BinarySizing::LeftWithWhole | BinarySizing::BothTogether | BinarySizing::EachAlone => {
            false
        }
    }
}

/// Gives an expression a size, and with it those of its parts that take theirs from the whole. Each of these is visited once.
pub fn set_size(expr: &mut SizedExpr, size: Size)
    ensures { sized_of expr.new ≡ with_size (sized_of expr.old) size.width size.signed }
{
    match expr {
        SizedExpr::Constant { size: own, .. } => *own = size,
        SizedExpr::Name { size: own, .. } => *own = size,
        SizedExpr::BitSelect { size: own, .. } => *own = size,
        SizedExpr::PartSelect { size: own, .. } => *own = size,
        SizedExpr::WordSelect { size: own, .. } => *own = size,
        SizedExpr::Unary {
            size: own,
            operator,
            operand,
        } => {
            *own = size;
            if operand_takes_size(*operator) {
                set_size(operand, size);
            }
        }
        SizedExpr::Binary {
            size: own,
            operator,
            left,
            right,
        } => {
            *own = size;
            if left_takes_size(*operator) {
                set_size(left, size);
            }
            if right_takes_size(*operator) {
                set_size(right, size);
            }
        }
        SizedExpr::Conditional {
            size: own,
            first,
            second,
            ..
        } => {
            *own = size;
            set_size(first, size);
            set_size(second, size);
        }
        SizedExpr::Concatenation { size: own, .. } => *own = size,
        SizedExpr::Replication { size: own, .. } => *own = size,
    }
}
