// Operators over what their operands are.

ghost use Rattle.std.specs.Prelude.{IfOk};
ghost use Rattle.v_design.specs.Sized.{unary_sizing, binary_sizing};
ghost use Rattle.v_names.specs.Readings.{Reading, unary_reading, binary_reading, choice_reading};
ghost use Rattle.expr_sizes.specs.ExprReadings.{IsReading, IsInfixed};

use crate::reading::{ExprReading, larger_of};
use four_value::{BinaryOperator, UnaryOperator};
use std::alloc::Global;
use v_names::{BinarySizing, Size, UnarySizing, binary_sizing, one_bit, unary_sizing};
use v_width::{Faults, SizedExpr, apart, together};
use vf_base::NoMemory;

/// An operator over its operand.
pub(crate) fn unary_reading(
    alloc: Global,
    operator: UnaryOperator,
    operand: ExprReading,
) -> Result<ExprReading, NoMemory>
    ensures { IfOk result (λ read. (a : Reading) → IsReading a operand → IsReading (unary_reading (unary_sizing operator) operator a) read) }
{
    match unary_sizing(operator) {
        UnarySizing::OperandWithWhole => {
            let size = operand.size;
            let faults = operand.faults;
            let operand = Box::new(alloc, operand.tree)?;
            Ok(ExprReading {
                size,
                faults,
                tree: SizedExpr::Unary {
                    size: one_bit(),
                    operator,
                    operand,
                },
            })
        }
        UnarySizing::OperandAlone => {
            let inner_faults = apart(operand.faults);
            let alone = operand.tree_alone();
            let bit = Some(one_bit());
            let operand = Box::new(alloc, alone)?;
            Ok(ExprReading {
                size: bit,
                faults: inner_faults,
                tree: SizedExpr::Unary {
                    size: one_bit(),
                    operator,
                    operand,
                },
            })
        }
    }
}

/// An operator's answer with its size, over operands of their sizes.
fn infixed(
    alloc: Global,
    operator: BinaryOperator,
    size: Option<Size>,
    faults: Faults,
    left: SizedExpr,
    right: SizedExpr,
) -> Result<ExprReading, NoMemory>
    ensures { IfOk result (λ read. IsInfixed operator size faults left right read) }
{
    let left = Box::new(alloc, left)?;
    let right = Box::new(alloc, right)?;
    Ok(ExprReading {
        size,
        faults,
        tree: SizedExpr::Binary {
            size: one_bit(),
            operator,
            left,
            right,
        },
    })
}

/// An operator over its two operands.
pub(crate) fn binary_reading(
    alloc: Global,
    operator: BinaryOperator,
    left: ExprReading,
    right: ExprReading,
) -> Result<ExprReading, NoMemory>
    ensures { IfOk result (λ read. (a b : Reading) → IsReading a left → IsReading b right → IsReading (binary_reading (binary_sizing operator) operator a b) read) }
{
    match binary_sizing(operator) {
        BinarySizing::BothWithWhole => {
            let larger = larger_of(left.size, right.size);
            let faults = together(left.faults, right.faults);
            let read = infixed(alloc, operator, larger, faults, left.tree, right.tree)?;
            Ok(read)
        }
        BinarySizing::LeftWithWhole => {
            let amount_faults = apart(right.faults);
            let shift_faults = together(left.faults, amount_faults);
            let amount = right.tree_alone();
            let read = infixed(alloc, operator, left.size, shift_faults, left.tree, amount)?;
            Ok(read)
        }
        BinarySizing::BothTogether => {
            let common = larger_of(left.size, right.size);
            let operand_faults = together(left.faults, right.faults);
            let inner_faults = apart(operand_faults);
            let first = left.tree_at(common);
            let second = right.tree_at(common);
            let bit = Some(one_bit());
            let read = infixed(alloc, operator, bit, inner_faults, first, second)?;
            Ok(read)
        }
        BinarySizing::EachAlone => {
            let left_faults = apart(left.faults);
            let right_faults = apart(right.faults);
            let each_faults = together(left_faults, right_faults);
            let one = left.tree_alone();
            let other = right.tree_alone();
            let answer = Some(one_bit());
            let read = infixed(alloc, operator, answer, each_faults, one, other)?;
            Ok(read)
        }
    }
}

/// A choice of two expressions by a condition that is sized alone.
pub(crate) fn choice_reading(
    alloc: Global,
    condition: ExprReading,
    first: ExprReading,
    second: ExprReading,
) -> Result<ExprReading, NoMemory>
    ensures { IfOk result (λ read. (c a b : Reading) → IsReading c condition → IsReading a first → IsReading b second → IsReading (choice_reading c a b) read) }
{
    let size = larger_of(first.size, second.size);
    let branches = together(first.faults, second.faults);
    let inner = apart(condition.faults);
    let faults = together(inner, branches);
    let test = condition.tree_alone();
    let condition = Box::new(alloc, test)?;
    let first = Box::new(alloc, first.tree)?;
    let second = Box::new(alloc, second.tree)?;
    Ok(ExprReading {
        size,
        faults,
        tree: SizedExpr::Conditional {
            size: one_bit(),
            condition,
            first,
            second,
        },
    })
}
