// Expressions of the source text over objects.

ghost use Rattle.std.specs.Prelude.{◌≡◌, IfOk};
ghost use Rattle.v_tree.specs.Views as views;
ghost use Rattle.v_design.specs.Plain.{expression_of};
ghost use Rattle.v_elab.specs.Statements.{Meaning, alone_expression, assigned_expression};
ghost use Rattle.object_expr.specs.Meanings.{IsMeaning};
ghost use Rattle.object_expr.specs.Narrow.{IsNarrow};

use crate::expression::over_objects;
use expr_sizes::{Writer, read_expr, target_width_in};
use object_names::InstanceNames;
use std::alloc::Global;
use v_design::FlatExpr;
use v_names::Scope;
use v_tree::{Expr, Target};
use vf_base::NoMemory;

/// An expression that is sized alone; its bounds and counts have 32 bits.
pub fn expr_alone(
    alloc: Global,
    scope: &Scope<'_>,
    names: InstanceNames<'_>,
    expr: &Expr,
) -> Result<FlatExpr, NoMemory>
    requires { IsNarrow scope.now (views.expression_of expr.now) }
    ensures { IfOk result (λ flat. (meaning : Meaning) → IsMeaning meaning scope.now names.entry → expression_of flat ≡ alone_expression meaning (views.expression_of expr.now)) }
{
    let tree = read_expr(alloc, expr, scope)?.tree_alone();
    let flat = over_objects(alloc, names, &tree)?;
    Ok(flat)
}

/// The value of an assignment by a process: it has the size of the larger side, and its own sign. Its bounds and counts have 32 bits.
pub fn expr_assigned(
    alloc: Global,
    scope: &Scope<'_>,
    names: InstanceNames<'_>,
    target: &Target,
    expr: &Expr,
) -> Result<FlatExpr, NoMemory>
    requires { IsNarrow scope.now (views.expression_of expr.now) }
    ensures { IfOk result (λ flat. (meaning : Meaning) → IsMeaning meaning scope.now names.entry →
        expression_of flat ≡ assigned_expression meaning (views.target_of target.now) (views.expression_of expr.now)) }
{
    let width = target_width_in(alloc, Writer::Process, target, scope)?;
    let tree = read_expr(alloc, expr, scope)?.tree_in(width);
    let flat = over_objects(alloc, names, &tree)?;
    Ok(flat)
}
