// The target that an expression spells.

ghost use Rattle.std.specs.Prelude.{◌≡◌, IfOk, map, option_map};
ghost use Rattle.vf_base.specs.Base.{source_place};
ghost use Rattle.v_tree.specs.Views as views;
ghost use Rattle.v_tree.specs.Views.{expression_of, expressions_of, select_of};
ghost use Rattle.v_tree.specs.Trees.{OneSelect};
ghost use Rattle.v_width.specs.Targets.{target_of, joined_target, selects_of_parts};
ghost use Rattle.expr_sizes.specs.Spelled.{select_spelled};

use std::alloc::Global;
use v_copy::{copy_expr, copy_text};
use v_tree::{Expr, Index, Select, Target};
use vf_base::{NoMemory, Place, Seq};

/// The select that an expression is; none where it is none.
fn select_in(alloc: Global, expr: &Expr) -> Result<Option<Select>, NoMemory>
    ensures { IfOk result (λ select. option_map select_of select ≡ select_spelled (expression_of expr.now)) }
{
    match expr {
        Expr::Name { place, name } => {
            let name = copy_text(alloc, name)?;
            Ok(Some(Select {
                place: *place,
                name,
                index: Index::Whole,
            }))
        }
        Expr::BitSelect { place, name, index } => {
            let name = copy_text(alloc, name)?;
            let index = copy_expr(alloc, index)?;
            Ok(Some(Select {
                place: *place,
                name,
                index: Index::Bit(index),
            }))
        }
        Expr::PartSelect {
            place,
            name,
            from,
            to,
        } => {
            let name = copy_text(alloc, name)?;
            let from = copy_expr(alloc, from)?;
            let to = copy_expr(alloc, to)?;
            Ok(Some(Select {
                place: *place,
                name,
                index: Index::Part(from, to),
            }))
        }
        Expr::Number { .. } => Ok(None),
        Expr::Paren { .. } => Ok(None),
        Expr::Unary { .. } => Ok(None),
        Expr::Binary { .. } => Ok(None),
        Expr::Conditional { .. } => Ok(None),
        Expr::Concat { .. } => Ok(None),
        Expr::Repeat { .. } => Ok(None),
    }
}

/// The selects that parts are; none where one of them is none.
fn selects_in(alloc: Global, parts: &[Expr]) -> Result<Option<Seq<Select>>, NoMemory>
    ensures { IfOk result (λ selects. option_map (map select_of) selects ≡ selects_of_parts (expressions_of parts.now)) }
{
    let mut selects = Vec::new(alloc);
    'parts: for part in parts {
        let Some(select) = select_in(alloc, part)? else {
            return Ok(None);
        };
        selects.push(select)?;
    }
    Ok(Some(Seq::from_vec(selects)))
}

/// A concatenation as a target; none where a part of it is no select.
fn joined_target(alloc: Global, place: Place, parts: &[Expr]) -> Result<Option<Target>, NoMemory>
    ensures { IfOk result (λ target. option_map views.target_of target ≡ joined_target (source_place place) (selects_of_parts (expressions_of parts.now))) }
{
    match selects_in(alloc, parts)? {
        None => Ok(None),
        Some(selects) => Ok(Some(Target::Joined(place, selects))),
    }
}

/// One select as a target; none where the expression is none.
fn one_target(alloc: Global, expr: &Expr) -> Result<Option<Target>, NoMemory>
    ensures { IfOk result (λ target. option_map views.target_of target ≡ option_map OneSelect (select_spelled (expression_of expr.now))) }
{
    match select_in(alloc, expr)? {
        None => Ok(None),
        Some(select) => Ok(Some(Target::One(select))),
    }
}

/// The target that an expression spells; none where it is none.
pub fn target_of(alloc: Global, expr: &Expr) -> Result<Option<Target>, NoMemory>
    ensures { IfOk result (λ target. option_map views.target_of target ≡ target_of (expression_of expr.now)) }
{
    match expr {
        Expr::Concat { place, parts } => {
            let target = joined_target(alloc, *place, parts)?;
            Ok(target)
        }
        Expr::Name { .. } => {
            let target = one_target(alloc, expr)?;
            Ok(target)
        }
        Expr::BitSelect { .. } => {
            let target = one_target(alloc, expr)?;
            Ok(target)
        }
        Expr::PartSelect { .. } => {
            let target = one_target(alloc, expr)?;
            Ok(target)
        }
        Expr::Number { .. } => Ok(None),
        Expr::Paren { .. } => Ok(None),
        Expr::Unary { .. } => Ok(None),
        Expr::Binary { .. } => Ok(None),
        Expr::Conditional { .. } => Ok(None),
        Expr::Repeat { .. } => Ok(None),
    }
}
