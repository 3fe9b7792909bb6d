// Expressions, read part by part.

ghost use Rattle.std.specs.Prelude.{IfOk};
ghost use Rattle.v_tree.specs.Views.{expression_of, expressions_of};
ghost use Rattle.v_names.specs.Readings.{reading_of, parts_reading};
ghost use Rattle.expr_sizes.specs.ExprReadings.{IsReading};
ghost use Rattle.expr_sizes.specs.PartReadings.{ArePartsRead};

use crate::name::{indexed_reading, name_reading, number_reading, ranged_reading};
use crate::operator::{binary_reading, choice_reading, unary_reading};
use crate::parts::{ReadParts, add_part, concatenation_reading, replication_reading};
use crate::reading::{ExprReading, alone_faults};
use std::alloc::Global;
use v_copy::both;
use v_names::{Scope, is_unsized_number, number_of_constant, place_of_expr};
use v_tree::Expr;
use v_width::{no_faults, together};
use vf_base::NoMemory;

/// What an expression is in a scope. Each part is read once; the bounds of parts and the counts of replications are valued besides.
#[cycle(read_expr)]
pub fn read_expr(alloc: Global, expr: &Expr, scope: &Scope) -> Result<ExprReading, NoMemory>
    ensures { IfOk result (λ read. IsReading (reading_of scope.now (expression_of expr.now)) read) }
{
    match expr {
        Expr::Number { place, form, value } => Ok(number_reading(*place, *form, *value)),
        Expr::Name { place, name } => {
            let read = name_reading(alloc, &scope.lookup(name), *place, name)?;
            Ok(read)
        }
        Expr::BitSelect { place, name, index } => {
            let index = read_expr(alloc, index, scope)?;
            let read = indexed_reading(alloc, &scope.lookup(name), *place, name, index)?;
            Ok(read)
        }
        Expr::PartSelect {
            place,
            name,
            from,
            to,
        } => {
            let first = read_expr(alloc, from, scope)?;
            let first_faults = alone_faults(first);
            let second = read_expr(alloc, to, scope)?;
            let second_faults = alone_faults(second);
            let from = number_of_constant(alloc, from, scope)?;
            let to = number_of_constant(alloc, to, scope)?;
            let inside = together(first_faults, second_faults);
            let entry = scope.lookup(name);
            let read = ranged_reading(alloc, &entry, *place, name, inside, from, to)?;
            Ok(read)
        }
        Expr::Paren { inner, .. } => {
            let read = read_expr(alloc, inner, scope)?;
            Ok(read)
        }
        Expr::Unary {
            operator,
            operand,
            ..
        } => {
            let operand = read_expr(alloc, operand, scope)?;
            let read = unary_reading(alloc, *operator, operand)?;
            Ok(read)
        }
        Expr::Binary {
            operator,
            left,
            right,
            ..
        } => {
            let left_read = read_expr(alloc, left, scope);
            let right_read = read_expr(alloc, right, scope);
            let operands = both(left_read, right_read)?;
            let read = binary_reading(alloc, *operator, operands.0, operands.1)?;
            Ok(read)
        }
        Expr::Conditional {
            condition,
            first,
            second,
            ..
        } => {
            let test_read = read_expr(alloc, condition, scope);
            let first_read = read_expr(alloc, first, scope);
            let second_read = read_expr(alloc, second, scope);
            let branches = both(first_read, second_read);
            let choice = both(test_read, branches)?;
            let read = choice_reading(alloc, choice.0, choice.1.0, choice.1.1)?;
            Ok(read)
        }
        Expr::Concat { place, parts } => {
            let parts = read_parts(alloc, parts, scope)?;
            Ok(concatenation_reading(*place, parts))
        }
        Expr::Repeat {
            place,
            count,
            parts,
        } => {
            let times = read_expr(alloc, count, scope)?;
            let times_faults = alone_faults(times);
            let count = number_of_constant(alloc, count, scope)?;
            let parts = read_parts(alloc, parts, scope)?;
            Ok(replication_reading(*place, count, times_faults, parts))
        }
    }
}

/// What the parts of a concatenation are in a scope.
#[cycle(read_expr)]
fn read_parts(alloc: Global, parts: &[Expr], scope: &Scope) -> Result<ReadParts, NoMemory>
    ensures { IfOk result (λ read. ArePartsRead (parts_reading scope.now (expressions_of parts.now)) read) }
{
    let mut read = ReadParts {
        total: Some(0),
        faults: no_faults(),
        trees: Vec::new(alloc),
    };
    'parts: for part in parts {
        let one = read_expr(alloc, part, scope)?;
        read = add_part(read, is_unsized_number(part), place_of_expr(part), one)?;
    }
    Ok(read)
}
