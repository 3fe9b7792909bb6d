// Constants whose width is known only once the whole has been read.

ghost use Rattle.std.specs.Prelude.{◌≡◌, false, length, IfOk};
ghost use Rattle.four_value.specs.Values.{IsWidth};
ghost use Rattle.v_names.specs.declared.term.Term.TheVariants.{Alone};
ghost use Rattle.v_design.specs.Sized.{binary_sizing, BothWithWhole, LeftWithWhole, BothTogether, EachAlone};
ghost use Rattle.v_names.specs.SizeViews.{unary_sizing_of, binary_sizing_of};
ghost use Rattle.v_names.specs.Terms.{shift_value, term_value, value_alone};
ghost use Rattle.v_names.specs.Operands.{IsUnary, IsBinary, IsChoice};

use crate::size::Size;
use crate::sizing::{BinarySizing, UnarySizing, larger, one_bit};
use expr_eval::chosen;
use four_value::{BinaryOperator, UnaryOperator, Vec4, binary, unary};
use std::alloc::Global;
use vf_base::NoMemory;

/// A constant in which each part that is sized alone has its value. The rest takes the width and the sign of the whole.
#[derive(Drop)]
pub(crate) enum Term {
    /// What is sized alone.
    Alone(Vec4),
    Unary {
        operator: UnaryOperator,
        operand: Box<Term>,
    },
    Binary {
        operator: BinaryOperator,
        left: Box<Term>,
        right: Box<Term>,
    },
    /// A shift, whose amount is sized alone.
    Shift {
        operator: BinaryOperator,
        left: Box<Term>,
        amount: Vec4,
    },
    /// A choice, whose condition is sized alone.
    Choice {
        condition: Vec4,
        first: Box<Term>,
        second: Box<Term>,
    },
}

/// A constant with its size.
#[derive(Drop)]
pub(crate) struct Known {
    pub(crate) size: Size,
    pub(crate) term: Term,
}

/// What a shift answers.
fn shifted(operator: BinaryOperator, signed: bool, bits: Vec4, amount: Vec4) -> Vec4
    ensures { result ≡ shift_value operator signed bits amount }
{
    match operator {
        BinaryOperator::ShiftRight => bits.shr(amount),
        BinaryOperator::ArithmeticShiftRight => {
            if signed {
                bits.sshr(amount)
            } else {
                bits.shr(amount)
            }
        }
        _ => bits.shl(amount),
    }
}

/// The value of a term at a width and a sign.
pub(crate) fn value_of(term: &Term, width: u8, signed: bool) -> Vec4
    requires { IsWidth width }
    ensures { result ≡ term_value term.now width signed }
{
    match term {
        Term::Alone(value) => value.resize_by_sign(signed, width),
        Term::Unary { operator, operand } => {
            let value = value_of(operand, width, signed);
            unary(*operator, value).resize_by_sign(signed, width)
        }
        Term::Binary {
            operator,
            left,
            right,
        } => {
            let a = value_of(left, width, signed);
            let b = value_of(right, width, signed);
            binary(*operator, signed, a, b).resize_by_sign(signed, width)
        }
        Term::Shift {
            operator,
            left,
            amount,
        } => {
            let bits = value_of(left, width, signed);
            shifted(*operator, signed, bits, *amount).resize_by_sign(signed, width)
        }
        Term::Choice {
            condition,
            first,
            second,
        } => {
            let a = value_of(first, width, signed);
            let b = value_of(second, width, signed);
            chosen(*condition, a, b).resize_by_sign(signed, width)
        }
    }
}

/// What is sized alone and has a value.
pub(crate) fn alone(value: Vec4, signed: bool) -> Known
    ensures known { result ≡ record { size = record { width = length value; signed = signed }; term = Alone value } }
    ensures wide { IsWidth (length value) }
{
    Known {
        size: Size {
            width: value.width(),
            signed,
        },
        term: Term::Alone(value),
    }
}

/// One unsigned bit with a value.
fn bit(value: Vec4) -> Known
    ensures { result ≡ record { size = record { width = 1; signed = false }; term = Alone value } }
{
    Known {
        size: one_bit(),
        term: Term::Alone(value),
    }
}

/// The value of a constant at its own size.
pub(crate) fn value_alone(known: &Known) -> Vec4
    requires { IsWidth known.now.size.width }
    ensures { result ≡ value_alone known.now }
{
    value_of(&known.term, known.size.width, known.size.signed)
}

/// An operator's answer over its operand.
pub(crate) fn unary_known(
    alloc: Global,
    sizing: UnarySizing,
    operator: UnaryOperator,
    operand: Known,
) -> Result<Known, NoMemory>
    requires { IsWidth operand.size.width }
    ensures { IfOk result (λ whole. IsUnary (unary_sizing_of sizing) operator operand whole) }
{
    match sizing {
        UnarySizing::OperandWithWhole => {
            let size = operand.size;
            let operand = Box::new(alloc, operand.term)?;
            Ok(Known {
                size,
                term: Term::Unary { operator, operand },
            })
        }
        UnarySizing::OperandAlone => {
            let value = value_alone(&operand);
            Ok(bit(unary(operator, value)))
        }
    }
}

/// Two operands that have the size of the whole.
fn both_with_whole(
    alloc: Global,
    operator: BinaryOperator,
    left: Known,
    right: Known,
) -> Result<Known, NoMemory>
    requires left { IsWidth left.size.width }
    requires right { IsWidth right.size.width }
    ensures { IfOk result (λ whole. IsBinary BothWithWhole operator left right whole) }
{
    let size = larger(left.size, right.size);
    let left = Box::new(alloc, left.term)?;
    let right = Box::new(alloc, right.term)?;
    Ok(Known {
        size,
        term: Term::Binary {
            operator,
            left,
            right,
        },
    })
}

/// A shift.
fn left_with_whole(
    alloc: Global,
    operator: BinaryOperator,
    left: Known,
    right: Known,
) -> Result<Known, NoMemory>
    requires shift { binary_sizing operator ≡ LeftWithWhole }
    requires left { IsWidth left.size.width }
    requires right { IsWidth right.size.width }
    ensures { IfOk result (λ whole. IsBinary LeftWithWhole operator left right whole) }
{
    let size = left.size;
    let amount = value_alone(&right);
    let left = Box::new(alloc, left.term)?;
    Ok(Known {
        size,
        term: Term::Shift {
            operator,
            left,
            amount,
        },
    })
}

/// A comparison, whose operands are sized together.
fn both_together(operator: BinaryOperator, left: &Known, right: &Known) -> Known
    requires left { IsWidth left.now.size.width }
    requires right { IsWidth right.now.size.width }
    ensures { IsBinary BothTogether operator left.now right.now result }
{
    let size = larger(left.size, right.size);
    let a = value_of(&left.term, size.width, size.signed);
    let b = value_of(&right.term, size.width, size.signed);
    bit(binary(operator, size.signed, a, b))
}

/// A logical operator, whose operands are sized alone.
fn each_alone(operator: BinaryOperator, left: &Known, right: &Known) -> Known
    requires logical { binary_sizing operator ≡ EachAlone }
    requires left { IsWidth left.now.size.width }
    requires right { IsWidth right.now.size.width }
    ensures { IsBinary EachAlone operator left.now right.now result }
{
    let a = value_alone(left);
    let b = value_alone(right);
    bit(binary(operator, left.size.signed, a, b))
}

/// An operator's answer over its two operands.
pub(crate) fn binary_known(
    alloc: Global,
    sizing: BinarySizing,
    operator: BinaryOperator,
    left: Known,
    right: Known,
) -> Result<Known, NoMemory>
    requires sizing { binary_sizing_of sizing ≡ binary_sizing operator }
    requires left { IsWidth left.size.width }
    requires right { IsWidth right.size.width }
    ensures { IfOk result (λ whole. IsBinary (binary_sizing_of sizing) operator left right whole) }
{
    match sizing {
        BinarySizing::BothWithWhole => {
            let whole = both_with_whole(alloc, operator, left, right)?;
            Ok(whole)
        }
        BinarySizing::LeftWithWhole => {
            let whole = left_with_whole(alloc, operator, left, right)?;
            Ok(whole)
        }
        BinarySizing::BothTogether => Ok(both_together(operator, &left, &right)),
        BinarySizing::EachAlone => Ok(each_alone(operator, &left, &right)),
    }
}

/// A choice of two constants by a condition that is sized alone.
pub(crate) fn choice_known(
    alloc: Global,
    condition: &Known,
    first: Known,
    second: Known,
) -> Result<Known, NoMemory>
    requires condition { IsWidth condition.now.size.width }
    requires first { IsWidth first.size.width }
    requires second { IsWidth second.size.width }
    ensures { IfOk result (λ whole. IsChoice condition.now first second whole) }
{
    let size = larger(first.size, second.size);
    let condition = value_alone(condition);
    let first = Box::new(alloc, first.term)?;
    let second = Box::new(alloc, second.term)?;
    Ok(Known {
        size,
        term: Term::Choice {
            condition,
            first,
            second,
        },
    })
}
