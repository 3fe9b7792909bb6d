// Copies of expressions.

ghost use Rattle.std.specs.Prelude.{◌≡◌, map, IfOk};
ghost use Rattle.v_tree.specs.Views.{expression_of};

use crate::both;
use std::alloc::Global;
use v_tree::Expr;
use vf_base::{NoMemory, Text};

/// A text with the same bytes.
pub fn copy_text(alloc: Global, text: &Text) -> Result<Text, NoMemory>
    ensures { IfOk result (λ copy. copy ≡ text.now) }
{
    Text::from_bytes(alloc, text.as_bytes())
}

/// An expression with the same view.
#[cycle(copy_expression)]
pub fn copy_expr(alloc: Global, expr: &Expr) -> Result<Expr, NoMemory>
    ensures { IfOk result (λ copy. expression_of copy ≡ expression_of expr.now) }
{
    match expr {
        Expr::Number { place, form, value } => Ok(Expr::Number {
            place: *place,
            form: *form,
            value: *value,
        }),
        Expr::Name { place, name } => {
            let name = copy_text(alloc, name)?;
            Ok(Expr::Name {
                place: *place,
                name,
            })
        }
        Expr::BitSelect { place, name, index } => {
            let name = copy_text(alloc, name);
            let index = copy_box(alloc, index);
            let (name, index) = both(name, index)?;
            Ok(Expr::BitSelect {
                place: *place,
                name,
                index,
            })
        }
        Expr::PartSelect {
            place,
            name,
            from,
            to,
        } => {
            let name = copy_text(alloc, name);
            let from = copy_box(alloc, from);
            let to = copy_box(alloc, to);
            let (name, (from, to)) = both(name, both(from, to))?;
            Ok(Expr::PartSelect {
                place: *place,
                name,
                from,
                to,
            })
        }
        Expr::Paren { place, inner } => {
            let inner = copy_box(alloc, inner)?;
            Ok(Expr::Paren {
                place: *place,
                inner,
            })
        }
        Expr::Unary {
            place,
            operator,
            operand,
        } => {
            let operand = copy_box(alloc, operand)?;
            Ok(Expr::Unary {
                place: *place,
                operator: *operator,
                operand,
            })
        }
        Expr::Binary {
            place,
            operator,
            left,
            right,
        } => {
            let left = copy_box(alloc, left);
            let right = copy_box(alloc, right);
            let (left, right) = both(left, right)?;
            Ok(Expr::Binary {
                place: *place,
                operator: *operator,
                left,
                right,
            })
        }
        Expr::Conditional {
            place,
            condition,
            first,
            second,
        } => {
            let condition = copy_box(alloc, condition);
            let first = copy_box(alloc, first);
            let second = copy_box(alloc, second);
            let (condition, (first, second)) = both(condition, both(first, second))?;
            Ok(Expr::Conditional {
                place: *place,
                condition,
                first,
                second,
            })
        }
        Expr::Concat { place, parts } => {
            let parts = copy_parts(alloc, parts)?;
            Ok(Expr::Concat {
                place: *place,
                parts,
            })
        }
        Expr::Repeat {
            place,
            count,
            parts,
        } => {
            let count = copy_box(alloc, count)?;
            let parts = copy_parts(alloc, parts)?;
            Ok(Expr::Repeat {
                place: *place,
                count,
                parts,
            })
        }
    }
}

/// A box with the same expression.
#[cycle(copy_expression)]
fn copy_box(alloc: Global, expr: &Expr) -> Result<Box<Expr>, NoMemory>
    ensures { IfOk result (λ copy. expression_of copy.value ≡ expression_of expr.now) }
{
    let copy = copy_expr(alloc, expr)?;
    Ok(Box::new(alloc, copy)?)
}

/// Parts with the same views.
#[cycle(copy_expression)]
fn copy_parts(alloc: Global, parts: &[Expr]) -> Result<Vec<Expr>, NoMemory>
    ensures { IfOk result (λ copy. map expression_of copy.items ≡ map expression_of parts.now) }
{
    let mut copies = Vec::new(alloc);
    for part in parts {
        let copy = copy_expr(alloc, part)?;
        copies.push(copy)?;
    }
    Ok(copies)
}
