// Where a constant must stand, and what is wrong with its value there.

ghost use Rattle.std.specs.Prelude.{◌≡◌, ◌≤◌, option_map, IfOk};
ghost use Rattle.vf_base.specs.Base.{source_place};
ghost use Rattle.four_value.specs.Bits.{is_unknown};
ghost use Rattle.four_value.specs.Values.{some_bit};
ghost use Rattle.v_tree.specs.Trees.{place_of_expression, named_in, named_in_parts};
ghost use Rattle.v_tree.specs.Views.{expression_of, expressions_of};
ghost use Rattle.v_names.specs.Faults.{NoConstant, first_fault, fault_if};
ghost use Rattle.v_names.specs.ScopeViews.{entry_of};
ghost use Rattle.v_names.specs.FaultViews.{fault_of};
ghost use Rattle.v_names.specs.Constants.{value_faults_within, all_parameters, some_waiting, exceeds, is_unfit, is_unfit_if_some};
ghost use Rattle.v_names.specs.Asked.{passes, all_pass};
ghost use Rattle.v_names.specs.SizeViews.{kind_of, signed_value};

use crate::constant::{Constant, constant_of};
use crate::entry::Entry;
use crate::found::{Found, Reason};
use crate::scope::Scope;
use four_value::Vec4;
use std::alloc::Global;
use v_tree::Expr;
use vf_base::{NoMemory, Place};

/// The kinds of place where a constant must stand.
#[derive(Clone, Copy, Debug, PartialEq, Eq)]
pub enum ConstantPlace {
    /// The first content of a variable: any value.
    AnyValue,
    /// A parameter: no x and no z.
    ParameterValue,
    /// An index or a count: a number that isn't negative.
    IndexOrCount,
    /// A bound of a range or of a part: a number up to this limit.
    BoundUpTo(u32),
    /// A delay, read as unsigned: a number below 2 to the 32.
    DelayValue,
}

/// Where an expression begins.
pub fn place_of_expr(expr: &Expr) -> Place
    ensures { source_place result ≡ place_of_expression (expression_of expr.now) }
{
    match expr {
        Expr::Number { place, .. } => *place,
        Expr::Name { place, .. } => *place,
        Expr::BitSelect { place, .. } => *place,
        Expr::PartSelect { place, .. } => *place,
        Expr::Paren { place, .. } => *place,
        Expr::Unary { place, .. } => *place,
        Expr::Binary { place, .. } => *place,
        Expr::Conditional { place, .. } => *place,
        Expr::Concat { place, .. } => *place,
        Expr::Repeat { place, .. } => *place,
    }
}

/// What is asked of each name in an expression.
#[derive(Clone, Copy)]
enum Asked {
    /// To be a parameter.
    Parameter,
    /// Not to be a parameter without a value.
    NotWaiting,
}

/// Whether a name is what is asked.
fn passes(asked: Asked, entry: Option<Entry>) -> bool
    ensures { result ≡ passes asked (option_map entry_of entry) }
{
    match (asked, entry) {
        (Asked::Parameter, Some(Entry::Param(_, _))) => true,
        (Asked::Parameter, Some(Entry::RefusedParam)) => true,
        (Asked::Parameter, Some(Entry::WaitingParam)) => true,
        (Asked::Parameter, _) => false,
        (Asked::NotWaiting, Some(Entry::WaitingParam)) => false,
        (Asked::NotWaiting, _) => true,
    }
}

/// Whether each name in an expression is what is asked.
#[cycle(all_pass)]
fn all_pass(asked: Asked, expr: &Expr, scope: &Scope) -> bool
    ensures { result ≡ all_pass asked scope.now (named_in (expression_of expr.now)) }
{
    match expr {
        Expr::Number { .. } => true,
        Expr::Name { name, .. } => passes(asked, scope.lookup(name)),
        Expr::BitSelect { name, index, .. } => {
            if !passes(asked, scope.lookup(name)) {
                return false;
            }
            all_pass(asked, index, scope)
        }
        Expr::PartSelect { name, from, to, .. } => {
            if !passes(asked, scope.lookup(name)) {
                return false;
            }
            if !all_pass(asked, from, scope) {
                return false;
            }
            all_pass(asked, to, scope)
        }
        Expr::Paren { inner, .. } => all_pass(asked, inner, scope),
        Expr::Unary { operand, .. } => all_pass(asked, operand, scope),
        Expr::Binary { left, right, .. } => {
            if !all_pass(asked, left, scope) {
                return false;
            }
            all_pass(asked, right, scope)
        }
        Expr::Conditional {
            condition,
            first,
            second,
            ..
        } => {
            if !all_pass(asked, condition, scope) {
                return false;
            }
            if !all_pass(asked, first, scope) {
                return false;
            }
            all_pass(asked, second, scope)
        }
        Expr::Concat { parts, .. } => all_parts_pass(asked, parts, scope),
        Expr::Repeat { count, parts, .. } => {
            if !all_pass(asked, count, scope) {
                return false;
            }
            all_parts_pass(asked, parts, scope)
        }
    }
}

/// Whether each name in some expressions is what is asked.
#[cycle(all_pass)]
fn all_parts_pass(asked: Asked, parts: &[Expr], scope: &Scope) -> bool
    ensures { result ≡ all_pass asked scope.now (named_in_parts (expressions_of parts.now)) }
{
    'parts: for part in parts {
        if !all_pass(asked, part, scope) {
            return false;
        }
    }
    true
}

/// Whether each name in an expression is a parameter.
pub fn are_parameters(expr: &Expr, scope: &Scope) -> bool
    ensures { result ≡ all_parameters scope.now (expression_of expr.now) }
{
    all_pass(Asked::Parameter, expr, scope)
}

/// Whether some name in an expression is a parameter that has no value yet.
pub fn is_waiting(expr: &Expr, scope: &Scope) -> bool
    ensures { result ≡ some_waiting scope.now (expression_of expr.now) }
{
    !all_pass(Asked::NotWaiting, expr, scope)
}

/// Whether a value has x or z.
fn is_unknown(value: Vec4) -> bool
    ensures { result ≡ some_bit is_unknown value }
{
    match value.as_number() {
        None => true,
        Some(_) => false,
    }
}

/// Whether a number is over a limit, or there is none.
fn exceeds(limit: u32, number: Option<u128>) -> bool
    ensures { result ≡ exceeds limit number }
{
    match number {
        None => true,
        Some(number) => u128::from(limit) < number,
    }
}

/// Whether a constant isn't one of its place.
fn is_unfit(kind: ConstantPlace, constant: Constant) -> bool
    ensures { result ≡ is_unfit (kind_of kind) (signed_value constant) }
{
    match kind {
        ConstantPlace::AnyValue => false,
        ConstantPlace::ParameterValue => is_unknown(constant.value),
        ConstantPlace::IndexOrCount => constant.value.as_natural(constant.signed).is_none(),
        ConstantPlace::BoundUpTo(limit) => {
            exceeds(limit, constant.value.as_natural(constant.signed))
        }
        ConstantPlace::DelayValue => exceeds(4294967295, constant.value.as_number()),
    }
}

/// Whether a constant, if it has a value, isn't one of its place.
fn is_unfit_if_some(kind: ConstantPlace, constant: Option<Constant>) -> bool
    ensures { result ≡ is_unfit_if_some (kind_of kind) (option_map signed_value constant) }
{
    match constant {
        None => false,
        Some(constant) => is_unfit(kind, constant),
    }
}

/// The fault of what isn't a constant of its place, where a test holds.
fn fault_where(test: bool, place: Place) -> Option<Found>
    ensures { option_map fault_of result ≡ first_fault (fault_if test (source_place place) NoConstant) }
{
    if test {
        Some(Found {
            place,
            reason: Reason::NoConstant,
        })
    } else {
        None
    }
}

/// What is wrong with the value of a constant at its place, in a context of a width, 0 where it is sized alone: it rests on itself, or isn't a
/// value of that place. Nothing is said of one that names other things than parameters, or whose sizes are refused.
pub fn value_fault(
    alloc: Global,
    expr: &Expr,
    scope: &Scope,
    width: u8,
    kind: ConstantPlace,
) -> Result<Option<Found>, NoMemory>
    requires { width ≤ 128 }
    ensures { IfOk result (λ found. option_map fault_of found ≡ first_fault (value_faults_within width scope.now (kind_of kind) (expression_of expr.now))) }
{
    let place = place_of_expr(expr);
    if !are_parameters(expr, scope) {
        return Ok(None);
    }
    if is_waiting(expr, scope) {
        return Ok(fault_where(true, place));
    }
    let constant = constant_of(alloc, expr, scope, width)?;
    Ok(fault_where(is_unfit_if_some(kind, constant), place))
}
