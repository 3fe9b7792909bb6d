// What the names of a process mean.

ghost use Rattle.std.specs.Prelude.{◌≡◌, IfOk, map};
ghost use Rattle.v_design.specs.Plain.{expression_of, target_of};
ghost use Rattle.v_tree.specs.Views as source;
ghost use Rattle.v_elab.specs.Statements.{Meaning as PlainMeaning, targets_over, alone_expression, assigned_expression};
ghost use Rattle.object_expr.specs.Narrow.{IsNarrow};
ghost use Rattle.object_statements.specs.Meanings.{IsMeaning};
ghost use Rattle.object_statements.specs.Texts.{HasMeaning, AreSizedTargets};

use object_names::InstanceNames;
use std::alloc::Global;
use v_design::{FlatExpr, FlatTarget};
use v_names::Scope;
use v_tree::{Expr, Target};
use vf_base::NoMemory;

/// What the names of a process mean: their entries, their objects, and the width of each object of the design in bits, by its number.
#[derive(Clone, Copy)]
pub struct Meaning<'n, 'u> {
    pub scope: &'n Scope<'u>,
    pub names: InstanceNames<'n>,
    pub widths: &'n [u8],
}

/// An expression that is sized alone; its bounds and counts have 32 bits.
#[tactic(auto, using(crate::specs::Meanings::names_meant))]
pub fn expr_alone(
    alloc: Global,
    meaning: Meaning<'_, '_>,
    expr: &Expr,
) -> Result<FlatExpr, NoMemory>
    requires { HasMeaning meaning (λ (m : PlainMeaning). IsNarrow m.scope (source.expression_of expr.now)) }
    ensures { IfOk result (λ flat. (plain : PlainMeaning) → IsMeaning plain meaning.entry → expression_of flat ≡ alone_expression plain (source.expression_of expr.now)) }
{
    let flat = object_expr::expr_alone(alloc, meaning.scope, meaning.names, expr)?;
    Ok(flat)
}

/// The value of an assignment, which has the size of the larger side; its bounds and counts have 32 bits.
#[tactic(auto, using(crate::specs::Meanings::names_meant))]
pub fn expr_assigned(
    alloc: Global,
    meaning: Meaning<'_, '_>,
    target: &Target,
    expr: &Expr,
) -> Result<FlatExpr, NoMemory>
    requires { HasMeaning meaning (λ (m : PlainMeaning). IsNarrow m.scope (source.expression_of expr.now)) }
    ensures { IfOk result (λ flat. (plain : PlainMeaning) → IsMeaning plain meaning.entry →
        expression_of flat ≡ assigned_expression plain (source.target_of target.now) (source.expression_of expr.now)) }
{
    let flat = object_expr::expr_assigned(alloc, meaning.scope, meaning.names, target, expr)?;
    Ok(flat)
}

/// The targets of an assignment, from the left, which are sized; their bounds and counts have 32 bits.
#[tactic(auto, using(crate::specs::Meanings::names_meant))]
pub fn targets_over(
    alloc: Global,
    meaning: Meaning<'_, '_>,
    target: &Target,
) -> Result<Vec<FlatTarget>, NoMemory>
    requires { HasMeaning meaning (λ (m : PlainMeaning). AreSizedTargets m (source.target_of target.now)) }
    ensures { IfOk result (λ flats. (plain : PlainMeaning) → IsMeaning plain meaning.entry → map target_of flats.items ≡ targets_over plain (source.target_of target.now)) }
{
    let flats = object_expr::targets_over(alloc, meaning.scope, meaning.names, target)?;
    Ok(flats)
}
