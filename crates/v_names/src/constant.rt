// The values of constants.

ghost use Rattle.std.specs.Prelude.{◌≡◌, ◌≤◌, length, option_map, IfOk};
ghost use Rattle.four_value.specs.Values.{IsWidth, natural_number};
ghost use Rattle.v_tree.specs.Views.{expression_of, expressions_of};
ghost use Rattle.v_names.specs.Readings.{constant_of, number_of_constant};
ghost use Rattle.v_names.specs.SizeViews.{signed_value};
ghost use Rattle.v_names.specs.ScopeViews.{entry_of};
ghost use Rattle.v_names.specs.Terms.{value_alone, IsRead, IsKnownName, AreJoined, IsLonger, IsReplication};
ghost use Rattle.expr_eval.specs.Operands.{bits_so_far};

use crate::entry::Entry;
use crate::scope::Scope;
use crate::sizing::{
    binary_sizing, is_signed_number, is_unsized_number, repeated_size, unary_sizing,
};
use crate::term::{
    Known, Term, alone, binary_known, choice_known, unary_known, value_alone, value_of,
};
use expr_eval::repeated_bits;
use four_value::Vec4;
use std::alloc::Global;
use v_tree::Expr;
use vf_base::NoMemory;

/// The value of a constant, and whether it is signed.
#[derive(Clone, Copy, Debug)]
pub struct Constant {
    pub value: Vec4,
    pub signed: bool,
}

/// What a constant is: its size, and its value for the width and the sign of what it stands in. Each of its parts is read once.
#[cycle(known)]
fn known(alloc: Global, expr: &Expr, scope: &Scope) -> Result<Option<Known>, NoMemory>
    ensures { IfOk result (λ known. IsRead scope.now (expression_of expr.now) known) }
{
    match expr {
        Expr::Number { form, value, .. } => Ok(Some(alone(
            *value,
            is_signed_number(*form, *value),
        ))),
        Expr::Name { name, .. } => Ok(known_name(&scope.lookup(name))),
        Expr::BitSelect { .. } => Ok(None),
        Expr::PartSelect { .. } => Ok(None),
        Expr::Paren { inner, .. } => {
            let known = known(alloc, inner, scope)?;
            Ok(known)
        }
        Expr::Unary {
            operator,
            operand,
            ..
        } => {
            let Some(operand) = known(alloc, operand, scope)? else {
                return Ok(None);
            };
            let whole = unary_known(alloc, unary_sizing(*operator), *operator, operand)?;
            Ok(Some(whole))
        }
        Expr::Binary {
            operator,
            left,
            right,
            ..
        } => {
            let Some(left) = known(alloc, left, scope)? else {
                return Ok(None);
            };
            let Some(right) = known(alloc, right, scope)? else {
                return Ok(None);
            };
            let whole = binary_known(alloc, binary_sizing(*operator), *operator, left, right)?;
            Ok(Some(whole))
        }
        Expr::Conditional {
            condition,
            first,
            second,
            ..
        } => {
            let Some(condition) = known(alloc, condition, scope)? else {
                return Ok(None);
            };
            let Some(first) = known(alloc, first, scope)? else {
                return Ok(None);
            };
            let Some(second) = known(alloc, second, scope)? else {
                return Ok(None);
            };
            let whole = choice_known(alloc, &condition, first, second)?;
            Ok(Some(whole))
        }
        Expr::Concat { parts, .. } => match joined(alloc, parts, scope)? {
            None => Ok(None),
            Some(bits) => Ok(Some(alone(bits, false))),
        },
        Expr::Repeat { count, parts, .. } => {
            let Some(bits) = joined(alloc, parts, scope)? else {
                return Ok(None);
            };
            let Some(count) = known(alloc, count, scope)? else {
                return Ok(None);
            };
            Ok(replicated(natural(&count), bits))
        }
    }
}

/// What a name alone is as a constant: a parameter with a value.
fn known_name(entry: &Option<Entry>) -> Option<Known>
    ensures { IsKnownName (option_map entry_of entry.now) result }
{
    match entry {
        Some(Entry::Param(value, signed)) => Some(alone(*value, *signed)),
        _ => None,
    }
}

/// The bits of the parts of a concatenation, the leftmost part being the most significant; none where they have no width or more than 128 bits.
#[cycle(known)]
fn joined(alloc: Global, parts: &[Expr], scope: &Scope) -> Result<Option<Vec4>, NoMemory>
    ensures { IfOk result (λ bits. AreJoined scope.now (expressions_of parts.now) bits) }
{
    let mut bits: Option<Vec4> = None;
    'parts: for part in parts {
        if is_unsized_number(part) {
            return Ok(None);
        }
        let Some(known) = known(alloc, part, scope)? else {
            return Ok(None);
        };
        let value = value_alone(&known);
        let Some(more) = longer(bits, value) else {
            return Ok(None);
        };
        bits = Some(more);
    }
    Ok(bits)
}

/// Bits with some more put on their right; none where they are more than 128.
fn longer(bits: Option<Vec4>, more: Vec4) -> Option<Vec4>
    ensures { IsLonger (bits_so_far bits) more result }
{
    match bits {
        None => Some(more),
        Some(bits) => match bits.join(more) {
            Ok(longer) => Some(longer),
            Err(_) => None,
        },
    }
}

/// The number that a constant gives by its own size; none where its value has x or z, or is negative.
fn natural(known: &Known) -> Option<u128>
    requires { IsWidth known.now.size.width }
    ensures { result ≡ natural_number known.now.size.signed (value_alone known.now) }
{
    value_alone(known).as_natural(known.size.signed)
}

/// The bits so many times over; none where there is no such number, or more than 128 bits.
fn replicated(count: Option<u128>, bits: Vec4) -> Option<Known>
    ensures { IsReplication count bits result }
{
    let count = count?;
    let size = repeated_size(Some(count), Some(bits.width()))?;
    Some(Known {
        size,
        term: Term::Alone(repeated_bits(count as u32, bits)),
    })
}

/// The value of a constant in a context of a width, 0 where it is sized alone; none where a name in it is no parameter with a value, or where it
/// or a part of it has no size.
pub fn constant_of(
    alloc: Global,
    expr: &Expr,
    scope: &Scope,
    width: u8,
) -> Result<Option<Constant>, NoMemory>
    requires { width ≤ 128 }
    ensures { IfOk result (λ constant. option_map signed_value constant ≡ constant_of scope.now width (expression_of expr.now)) }
{
    match known(alloc, expr, scope)? {
        None => Ok(None),
        Some(known) => {
            let size = known.size;
            Ok(Some(Constant {
                value: value_of(&known.term, width.max(size.width), size.signed),
                signed: size.signed,
            }))
        }
    }
}

/// The number that a constant gives which is sized alone; none where it has no value, or one with x or z, or a negative one.
pub fn number_of_constant(
    alloc: Global,
    expr: &Expr,
    scope: &Scope,
) -> Result<Option<u128>, NoMemory>
    ensures { IfOk result (λ number. number ≡ number_of_constant scope.now (expression_of expr.now)) }
{
    match known(alloc, expr, scope)? {
        None => Ok(None),
        Some(known) => Ok(natural(&known)),
    }
}
