// Whether an expression names no object.

ghost use Rattle.std.specs.Prelude.{◌≡◌};
ghost use Rattle.v_design.specs.Plain.{expression_of, expressions_of};
ghost use Rattle.v_design.specs.Expressions.{is_constant, are_constant};

use v_design::FlatExpr;

/// Whether an expression names no object.
#[cycle(constant)]
pub fn names_nothing(expr: &FlatExpr) -> bool
    ensures { result ≡ is_constant (expression_of expr.now) }
{
    match expr {
        FlatExpr::Constant { .. } => true,
        FlatExpr::Name { .. } => false,
        FlatExpr::BitSelect { .. } => false,
        FlatExpr::PartSelect { .. } => false,
        FlatExpr::WordSelect { .. } => false,
        FlatExpr::Unary { operand, .. } => names_nothing(operand),
        FlatExpr::Binary { left, right, .. } => names_nothing(left) && names_nothing(right),
        FlatExpr::Conditional {
            condition,
            first,
            second,
            ..
        } => names_nothing(condition) && names_nothing(first) && names_nothing(second),
        FlatExpr::Concatenation { parts, .. } => name_nothing(parts),
        FlatExpr::Replication { parts, .. } => name_nothing(parts),
    }
}

/// Whether no expression of several names an object.
#[cycle(constant)]
fn name_nothing(parts: &[FlatExpr]) -> bool
    ensures { result ≡ are_constant (expressions_of parts.now) }
{
    'parts: for part in parts {
        if !names_nothing(part) {
            return false;
        }
    }
    true
}
