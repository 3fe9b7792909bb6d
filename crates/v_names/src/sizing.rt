// How operators size their operands, and sizes from sizes.

ghost use Rattle.std.specs.Prelude.{◌≡◌, ◌*◌, true, false, option_map, Some};
ghost use Rattle.four_value.specs.Bits.{is_one};
ghost use Rattle.four_value.specs.Values.{top_bit};
ghost use Rattle.v_design.specs.Sized.{span, unary_sizing, binary_sizing};
ghost use Rattle.v_tree.specs.Views.{expression_of};
ghost use Rattle.v_names.specs.Readings.{is_signed_number, is_unsized_number, runs_alike, larger_size};
ghost use Rattle.v_names.specs.OwnSizes.{size_within, span_size, part_size, repeated_size};
ghost use Rattle.v_names.specs.ScopeViews.{entry_of};
ghost use Rattle.v_names.specs.SizeViews.{size_of, unary_sizing_of, binary_sizing_of};

use crate::entry::Entry;
use crate::size::Size;
use four_value::{BinaryOperator, Bit, UnaryOperator, Vec4};
use v_tree::{Expr, NumberForm};

/// How an operator sizes its one operand.
#[derive(Clone, Copy, Debug, PartialEq, Eq)]
pub enum UnarySizing {
    /// The operand has the size and the sign of the whole.
    OperandWithWhole,
    /// The operand is sized alone, and the answer is one unsigned bit.
    OperandAlone,
}

/// How an operator sizes its two operands.
#[derive(Clone, Copy, Debug, PartialEq, Eq)]
pub enum BinarySizing {
    /// Both operands have the size and the sign of the whole.
    BothWithWhole,
    /// The left operand has those of the whole, the right one is sized alone.
    LeftWithWhole,
    /// Both operands are sized together, and the answer is one unsigned bit.
    BothTogether,
    /// Each operand is sized alone, and the answer is one unsigned bit.
    EachAlone,
}

/// How an operator sizes its one operand.
pub fn unary_sizing(operator: UnaryOperator) -> UnarySizing
    ensures { unary_sizing_of result ≡ unary_sizing operator }
{
    match operator {
        UnaryOperator::Plus | UnaryOperator::Minus | UnaryOperator::BitwiseNot => {
            UnarySizing::OperandWithWhole
        }
        UnaryOperator::LogicalNot
        | UnaryOperator::ReduceAnd
        | UnaryOperator::ReduceNand
        | UnaryOperator::ReduceOr
        | UnaryOperator::ReduceNor
        | UnaryOperator::ReduceXor
        | UnaryOperator::ReduceXnor => UnarySizing::OperandAlone,
    }
}

/// How an operator sizes its two operands.
pub fn binary_sizing(operator: BinaryOperator) -> BinarySizing
    ensures { binary_sizing_of result ≡ binary_sizing operator }
{
    match operator {
        BinaryOperator::Multiply
        | BinaryOperator::Divide
        | BinaryOperator::Remainder
        | BinaryOperator::Add
        | BinaryOperator::Subtract
        | BinaryOperator::BitwiseAnd
        | BinaryOperator::BitwiseXor
        | BinaryOperator::BitwiseXnor
        | BinaryOperator::BitwiseOr => BinarySizing::BothWithWhole,
        BinaryOperator::ShiftLeft
        | BinaryOperator::ShiftRight
        | BinaryOperator::ArithmeticShiftLeft
        | BinaryOperator::ArithmeticShiftRight => BinarySizing::LeftWithWhole,
        BinaryOperator::Less
        | BinaryOperator::LessEqual
        | BinaryOperator::Greater
        | BinaryOperator::GreaterEqual
        | BinaryOperator::Equal
        | BinaryOperator::NotEqual
        | BinaryOperator::CaseEqual
        | BinaryOperator::CaseNotEqual => BinarySizing::BothTogether,
        BinaryOperator::LogicalAnd | BinaryOperator::LogicalOr => BinarySizing::EachAlone,
    }
}

/// One unsigned bit.
pub fn one_bit() -> Size
    ensures { size_of result ≡ record { width = 1; signed = false } }
{
    Size {
        width: 1,
        signed: false,
    }
}

/// A size, where the width is at least 1 and at most 128.
pub fn size_within(width: u64, signed: bool) -> Option<Size>
    ensures { option_map size_of result ≡ size_within width signed }
{
    if 1 <= width && width <= 128 {
        Some(Size {
            width: width as u8,
            signed,
        })
    } else {
        None
    }
}

/// The most significant bit.
fn top(value: Vec4) -> Bit
    ensures { result ≡ top_bit value }
{
    value.bit(u32::from(value.width()) - 1)
}

/// Whether the most significant bit is 1.
fn top_is_one(value: Vec4) -> bool
    ensures { result ≡ is_one (top_bit value) }
{
    matches!(top(value), Bit::One)
}

/// Whether a number is signed: a plain decimal is where its top bit is 0, a based number where it has an `s`.
pub fn is_signed_number(form: NumberForm, value: Vec4) -> bool
    ensures { result ≡ is_signed_number form value }
{
    match form {
        NumberForm::Plain => !top_is_one(value),
        NumberForm::Unsized | NumberForm::Sized => false,
        NumberForm::UnsizedSigned | NumberForm::SizedSigned => true,
    }
}

/// Whether an expression is a number that doesn't say its size.
pub fn is_unsized_number(expr: &Expr) -> bool
    ensures { result ≡ is_unsized_number (expression_of expr.now) }
{
    match expr {
        Expr::Number { form, .. } => match form {
            NumberForm::Plain | NumberForm::Unsized | NumberForm::UnsizedSigned => true,
            NumberForm::Sized | NumberForm::SizedSigned => false,
        },
        _ => false,
    }
}

/// The number of indexes between two bounds.
pub fn span(high: u32, low: u32) -> u64
    ensures { result ≡ span high low }
{
    u64::from(high.max(low)) - u64::from(high.min(low)) + 1
}

/// Whether a part's bounds run as its declaration's do; equal bounds of a part fit either way.
pub fn runs_alike(high: u32, low: u32, from: u128, to: u128) -> bool
    ensures { result ≡ runs_alike (record { ranged = true; high = high; low = low }) from to }
{
    from == to || (if high < low { from < to } else { to < from })
}

/// The size of what has the indexes between two bounds.
pub fn width_between(from: u128, to: u128) -> Option<Size>
    ensures { option_map size_of result ≡ size_within (span from to) false }
{
    let more = from.max(to) - from.min(to);
    if more < 128 {
        size_within(more as u64 + 1, false)
    } else {
        None
    }
}

/// The size of a part between two bounds of a vector with these bounds.
fn span_size(high: u32, low: u32, from: u128, to: u128) -> Option<Size>
    ensures { option_map size_of result ≡ span_size true (record { ranged = true; high = high; low = low }) (Some from) (Some to) }
{
    if !runs_alike(high, low, from, to) {
        return None;
    }
    width_between(from, to)
}

/// The size of a name with two bounds.
pub fn part_size(entry: Option<Entry>, from: Option<u128>, to: Option<u128>) -> Option<Size>
    ensures { option_map size_of result ≡ part_size (option_map entry_of entry) from to }
{
    match (entry, from, to) {
        (
            Some(
                Entry::Net {
                    ranged: true,
                    high,
                    low,
                    ..
                },
            ),
            Some(from),
            Some(to),
        ) => span_size(high, low, from, to),
        (
            Some(
                Entry::Reg {
                    ranged: true,
                    high,
                    low,
                    ..
                },
            ),
            Some(from),
            Some(to),
        ) => span_size(high, low, from, to),
        _ => None,
    }
}

/// The size of two expressions that are sized together: the larger width, and signed if both are.
pub fn larger(one: Size, other: Size) -> Size
    ensures { Some (size_of result) ≡ larger_size (Some (size_of one)) (Some (size_of other)) }
{
    Size {
        width: one.width.max(other.width),
        signed: one.signed && other.signed,
    }
}

/// The size of so many times a width.
fn times(count: u128, total: u8) -> Option<Size>
    ensures { option_map size_of result ≡ size_within (count * total) false }
{
    if count <= 128 {
        size_within(count as u64 * u64::from(total), false)
    } else {
        None
    }
}

/// The size of a replication whose parts have this width together.
pub fn repeated_size(count: Option<u128>, total: Option<u8>) -> Option<Size>
    ensures { option_map size_of result ≡ repeated_size count total }
{
    match (count, total) {
        (Some(count), Some(total)) => times(count, total),
        _ => None,
    }
}
