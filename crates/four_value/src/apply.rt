// The operators of expressions by their names, and how a case matches.

ghost use Rattle.std.specs.Prelude.{◌≡◌, length};
ghost use Rattle.four_value.specs.Values.{at_most, less_than};
ghost use Rattle.four_value.specs.Operators.{NeedsEqualWidths, unary_value, binary_value};

use crate::logic::Bit;
use crate::operator::{BinaryOperator, UnaryOperator};
use crate::value::Vec4;

/// The answer of an operator with one operand, before it is brought to the width of the expression's part.
pub fn unary(operator: UnaryOperator, a: Vec4) -> Vec4
    ensures { result ≡ unary_value operator a }
{
    match operator {
        UnaryOperator::Plus => Vec4::filled(Bit::Zero, a.width()).add(a),
        UnaryOperator::Minus => Vec4::filled(Bit::Zero, a.width()).sub(a),
        UnaryOperator::LogicalNot => Vec4::of_bit(a.truth().as_bit().not()),
        UnaryOperator::BitwiseNot => a.not(),
        UnaryOperator::ReduceAnd => Vec4::of_bit(a.reduce_and()),
        UnaryOperator::ReduceNand => Vec4::of_bit(a.reduce_and().not()),
        UnaryOperator::ReduceOr => Vec4::of_bit(a.reduce_or()),
        UnaryOperator::ReduceNor => Vec4::of_bit(a.reduce_or().not()),
        UnaryOperator::ReduceXor => Vec4::of_bit(a.reduce_xor()),
        UnaryOperator::ReduceXnor => Vec4::of_bit(a.reduce_xor().not()),
    }
}

/// The answer of an operator with two operands, before it is brought to the width of the expression's part.
///
/// `/`, `%`, the order comparisons and `>>>` go by the sign `signed`. The operands of a shift, of `&&` and of `||` may have
/// any widths; those of the other operators are equally wide.
pub fn binary(operator: BinaryOperator, signed: bool, left: Vec4, right: Vec4) -> Vec4
    requires { NeedsEqualWidths operator → length left ≡ length right }
    ensures { result ≡ binary_value operator signed left right }
{
    match operator {
        BinaryOperator::Multiply => left.mul(right),
        BinaryOperator::Divide => if signed {
            left.sdiv(right)
        } else {
            left.div(right)
        },
        BinaryOperator::Remainder => if signed {
            left.srem(right)
        } else {
            left.rem(right)
        },
        BinaryOperator::Add => left.add(right),
        BinaryOperator::Subtract => left.sub(right),
        BinaryOperator::ShiftLeft | BinaryOperator::ArithmeticShiftLeft => left.shl(right),
        BinaryOperator::ShiftRight => left.shr(right),
        BinaryOperator::ArithmeticShiftRight => if signed {
            left.sshr(right)
        } else {
            left.shr(right)
        },
        BinaryOperator::Less => Vec4::of_bit(less(signed, left, right)),
        BinaryOperator::LessEqual => Vec4::of_bit(at_most(signed, left, right)),
        BinaryOperator::Greater => Vec4::of_bit(less(signed, right, left)),
        BinaryOperator::GreaterEqual => Vec4::of_bit(at_most(signed, right, left)),
        BinaryOperator::Equal => Vec4::of_bit(left.eq4(right)),
        BinaryOperator::NotEqual => Vec4::of_bit(left.eq4(right).not()),
        BinaryOperator::CaseEqual => Vec4::of_bit(Bit::from_bool(left.same(right))),
        BinaryOperator::CaseNotEqual => Vec4::of_bit(Bit::from_bool(!left.same(right))),
        BinaryOperator::BitwiseAnd => left.and(right),
        BinaryOperator::BitwiseXor => left.xor(right),
        BinaryOperator::BitwiseXnor => left.xor(right).not(),
        BinaryOperator::BitwiseOr => left.or(right),
        BinaryOperator::LogicalAnd => Vec4::of_bit(
            left.truth().as_bit().and(right.truth().as_bit()),
        ),
        BinaryOperator::LogicalOr => Vec4::of_bit(left.truth().as_bit().or(right.truth().as_bit())),
    }
}

// `<` by sign
fn less(signed: bool, left: Vec4, right: Vec4) -> Bit
    requires { length left ≡ length right }
    ensures { result ≡ less_than signed left right }
{
    if signed {
        left.sless(right)
    } else {
        left.less(right)
    }
}

// `<=` by sign
fn at_most(signed: bool, left: Vec4, right: Vec4) -> Bit
    requires { length left ≡ length right }
    ensures { result ≡ at_most signed left right }
{
    less(signed, right, left).not()
}
