// How many operands are read at most.

ghost use Rattle.std.specs.Prelude.{◌≡◌, ◌+◌, map, drop, IfOk};
ghost use Rattle.v_design.specs.Plain.{expression_of, expressions_of, target_of};
ghost use Rattle.v_design.specs.PlainLemmas.{items_of};
ghost use Rattle.process_operands.specs.Bounds.{reads_most, reads_most_each, reads_most_items, reads_most_index, reads_most_targets};

use v_design::{CaseItem, FlatExpr, FlatTarget};
use vf_base::NoMemory;

/// The sum of two counts.
fn sum(one: usize, other: usize) -> Result<usize, NoMemory>
    ensures { IfOk result (λ sum. sum ≡ one + other) }
{
    match one.checked_add(other) {
        None => Err(NoMemory),
        Some(sum) => Ok(sum),
    }
}

/// How many operands an expression reads at most.
///
/// # Errors
///
/// Want of memory: no list has room for so many.
#[cycle(room)]
pub fn most_reads(expr: &FlatExpr) -> Result<usize, NoMemory>
    ensures { IfOk result (λ most. most ≡ reads_most (expression_of expr.now)) }
{
    match expr {
        FlatExpr::Constant { .. } => Ok(0),
        FlatExpr::Name { vector, .. } => Ok(vector.pieces.as_slice().len()),
        FlatExpr::BitSelect { vector, index, .. } => {
            let index = most_reads(index)?;
            sum(vector.pieces.as_slice().len(), index)
        }
        FlatExpr::PartSelect { vector, .. } => Ok(vector.pieces.as_slice().len()),
        FlatExpr::WordSelect { index, .. } => {
            let index = most_reads(index)?;
            sum(index, 1)
        }
        FlatExpr::Unary { operand, .. } => {
            let operand = most_reads(operand)?;
            Ok(operand)
        }
        FlatExpr::Binary { left, right, .. } => {
            let left = most_reads(left)?;
            let right = most_reads(right)?;
            sum(left, right)
        }
        FlatExpr::Conditional {
            condition,
            first,
            second,
            ..
        } => {
            let condition = most_reads(condition)?;
            let first = most_reads(first)?;
            let second = most_reads(second)?;
            let branches = sum(first, second)?;
            sum(condition, branches)
        }
        FlatExpr::Concatenation { parts, .. } => {
            let parts = most_part_reads(parts)?;
            Ok(parts)
        }
        FlatExpr::Replication { parts, .. } => {
            let parts = most_part_reads(parts)?;
            Ok(parts)
        }
    }
}

/// How many operands several expressions read at most.
#[cycle(room)]
fn most_part_reads(parts: &[FlatExpr]) -> Result<usize, NoMemory>
    ensures { IfOk result (λ most. most ≡ reads_most_each (expressions_of parts.now)) }
{
    let mut most = 0;
    'parts: for part in parts {
        let own = most_reads(part)?;
        most = sum(most, own)?;
    }
    Ok(most)
}

/// How many operands a case reads at most.
///
/// # Errors
///
/// Want of memory: no list has room for so many.
pub fn most_case_reads(value: &FlatExpr, items: &[CaseItem]) -> Result<usize, NoMemory>
    ensures { IfOk result (λ most. most ≡ reads_most (expression_of value.now) + reads_most_items (items_of items.now)) }
{
    let mut labels = 0;
    'items: for item in items {
        let own = most_part_reads(&item.labels)?;
        labels = sum(labels, own)?;
    }
    let value = most_reads(value)?;
    sum(value, labels)
}

/// How many operands an assignment reads at most.
///
/// # Errors
///
/// Want of memory: no list has room for so many.
pub fn most_assignment_reads(targets: &[FlatTarget], value: &FlatExpr) -> Result<usize, NoMemory>
    ensures { IfOk result (λ most. most ≡ reads_most (expression_of value.now) + reads_most_targets (map target_of targets.now)) }
{
    let mut indexes = 0;
    'targets: for target in targets {
        let own = most_index_reads(target)?;
        indexes = sum(indexes, own)?;
    }
    let value = most_reads(value)?;
    sum(value, indexes)
}

/// How many operands the index of a target reads at most.
fn most_index_reads(target: &FlatTarget) -> Result<usize, NoMemory>
    ensures { IfOk result (λ most. most ≡ reads_most_index (target_of target.now)) }
{
    match target {
        FlatTarget::Whole(_) => Ok(0),
        FlatTarget::Bit(_, index) => {
            let most = most_reads(index)?;
            Ok(most)
        }
        FlatTarget::Part(_, _, _) => Ok(0),
        FlatTarget::Word(_, index) => {
            let most = most_reads(index)?;
            Ok(most)
        }
    }
}
