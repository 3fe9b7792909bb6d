// The sized expression in a context, or what is wrong with its sizes.

ghost use Rattle.std.specs.Prelude.{IfOk};
ghost use Rattle.v_tree.specs.Views.{expression_of};
ghost use Rattle.v_names.specs.Faults.{unless_faulty};
ghost use Rattle.v_names.specs.Readings.{Reading, reading_of, alone_faults};
ghost use Rattle.v_width.specs.Sizes.{sized_expression, tree_in_context};
ghost use Rattle.expr_sizes.specs.ExprReadings.{IsReading};
ghost use Rattle.expr_sizes.specs.Answers.{IsOwnReading, IsAnswer};

use crate::read::read_expr;
use crate::reading::ExprReading;
use std::alloc::Global;
use thiserror::Error;
use v_names::{Found, Scope, Size};
use v_tree::Expr;
use v_width::{Faults, SizedExpr};
use vf_base::NoMemory;

/// The size that an expression has by itself, and what is wrong with its sizes.
#[derive(Clone, Copy)]
pub struct OwnReading {
    /// None where it is refused.
    pub size: Option<Size>,
    pub faults: Faults,
}

/// Why an expression isn't sized.
#[derive(Clone, Copy, Debug, PartialEq, Eq, Error)]
pub enum WidthFault {
    /// Its sizes are wrong: the first fault, with its place.
    #[error("wrong sizes")]
    Wrong(Found),
    #[error("out of memory")]
    NoMemory,
}

/// The size of an expression in a scope, with what is wrong with its sizes.
pub fn own_reading(alloc: Global, expr: &Expr, scope: &Scope) -> Result<OwnReading, NoMemory>
    ensures { IfOk result (λ own. IsOwnReading (reading_of scope.now (expression_of expr.now)) own) }
{
    let read = read_expr(alloc, expr, scope)?;
    Ok(OwnReading {
        size: read.size,
        faults: read.faults,
    })
}

/// What has been read, in a context of a width, unsigned where what stands together with it is; or the first thing that is wrong with it.
fn answer(read: ExprReading, width: u8, signed: bool) -> Result<SizedExpr, WidthFault>
    ensures { (reading : Reading) → IsReading reading read → IsAnswer (unless_faulty (alone_faults reading) (tree_in_context reading width signed)) result }
{
    match read.first_fault() {
        Some(found) => Err(WidthFault::Wrong(found)),
        None => Ok(read.tree_in_context(width, signed)),
    }
}

/// The sized expression in a context of a width, unsigned where what stands together with it is; or the first thing that is wrong with its sizes.
pub fn size_expr(
    alloc: Global,
    expr: &Expr,
    scope: &Scope,
    width: u8,
    signed: bool,
) -> Result<SizedExpr, WidthFault>
    ensures { IsAnswer (sized_expression scope.now (expression_of expr.now) width signed) result }
{
    match read_expr(alloc, expr, scope) {
        Err(_) => Err(WidthFault::NoMemory),
        Ok(read) => answer(read, width, signed),
    }
}
