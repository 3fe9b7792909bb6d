// What is wrong with constants and the names in them.

ghost use Rattle.std.specs.Prelude.{◌≡◌, ◌≤◌, OnOk};
ghost use Rattle.v_tree.specs.Views.{expression_of, expressions_of, expression_in, range_of, range_in};
ghost use Rattle.vf_base.specs.Base.{source_place};
ghost use Rattle.v_names.specs.Scopes.{looked_up};
ghost use Rattle.v_names.specs.Constants.{most_bound, IndexOrCount, BoundUpTo, DelayValue, parameter_faults, constant_name_faults};
ghost use Rattle.v_names.specs.Constants.{constant_part_faults, value_faults, value_faults_within, constant_faults, optional_faults, bound_faults};
ghost use Rattle.v_names.specs.SizeViews.{kind_of};
ghost use Rattle.name_checks.specs.Noted.{noted};

use crate::first_fault::FirstFault;
use std::alloc::Global;
use v_names::{ConstantPlace, Entry, Found, Reason, Scope, value_fault};
use v_tree::{Expr, Range};
use vf_base::{MAX_ADDRESS, MAX_BOUND, NoMemory, Place, Text};

/// Notes a name that must be a parameter.
fn note_parameter(scope: &Scope<'_>, name: &Text, place: Place, first: &mut FirstFault)
    ensures { first.new ≡ noted first.old (parameter_faults (looked_up scope.now name.now) (source_place place)) }
{
    match scope.lookup(name) {
        None => first.note(Found {
            place,
            reason: Reason::UnknownName,
        }),
        Some(Entry::Param(_, _)) => {}
        Some(Entry::RefusedParam) => {}
        Some(Entry::WaitingParam) => {}
        Some(_) => first.note(Found {
            place,
            reason: Reason::NoConstant,
        }),
    }
}

/// Notes what is wrong with the names of a constant, and with the constants in it.
#[cycle(constant)]
pub fn note_constant_names(
    alloc: Global,
    scope: &Scope<'_>,
    expr: &Expr,
    first: &mut FirstFault,
) -> Result<(), NoMemory>
    ensures { OnOk result (first.new ≡ noted first.old (constant_name_faults scope.now (expression_of expr.now))) }
{
    match expr {
        Expr::Number { .. } => Ok(()),
        Expr::Name { place, name } => {
            note_parameter(scope, name, *place, first);
            Ok(())
        }
        Expr::BitSelect { place, name, index } => {
            note_parameter(scope, name, *place, first);
            note_constant_names(alloc, scope, index, first)?;
            Ok(())
        }
        Expr::PartSelect {
            place,
            name,
            from,
            to,
        } => {
            note_parameter(scope, name, *place, first);
            note_constant_names(alloc, scope, from, first)?;
            note_value(
                alloc,
                scope,
                ConstantPlace::BoundUpTo(MAX_BOUND),
                from,
                first,
            )?;
            note_constant_names(alloc, scope, to, first)?;
            note_value(alloc, scope, ConstantPlace::BoundUpTo(MAX_BOUND), to, first)?;
            Ok(())
        }
        Expr::Paren { inner, .. } => {
            note_constant_names(alloc, scope, inner, first)?;
            Ok(())
        }
        Expr::Unary { operand, .. } => {
            note_constant_names(alloc, scope, operand, first)?;
            Ok(())
        }
        Expr::Binary { left, right, .. } => {
            note_constant_names(alloc, scope, left, first)?;
            note_constant_names(alloc, scope, right, first)?;
            Ok(())
        }
        Expr::Conditional {
            condition,
            first: one,
            second,
            ..
        } => {
            note_constant_names(alloc, scope, condition, first)?;
            note_constant_names(alloc, scope, one, first)?;
            note_constant_names(alloc, scope, second, first)?;
            Ok(())
        }
        Expr::Concat { parts, .. } => {
            note_constant_parts(alloc, scope, parts, first)?;
            Ok(())
        }
        Expr::Repeat { count, parts, .. } => {
            note_constant_names(alloc, scope, count, first)?;
            note_value(alloc, scope, ConstantPlace::IndexOrCount, count, first)?;
            note_constant_parts(alloc, scope, parts, first)?;
            Ok(())
        }
    }
}

/// Notes what is wrong with the names of the parts of a constant.
#[cycle(constant)]
fn note_constant_parts(
    alloc: Global,
    scope: &Scope<'_>,
    parts: &[Expr],
    first: &mut FirstFault,
) -> Result<(), NoMemory>
    ensures { OnOk result (first.new ≡ noted first.old (constant_part_faults scope.now (expressions_of parts.now))) }
{
    'parts: for part in parts {
        note_constant_names(alloc, scope, part, first)?;
    }
    Ok(())
}

/// Notes a constant that isn't one of its place, in a context of a width, 0 where it is sized alone.
pub fn note_value_within(
    alloc: Global,
    scope: &Scope<'_>,
    width: u8,
    kind: ConstantPlace,
    expr: &Expr,
    first: &mut FirstFault,
) -> Result<(), NoMemory>
    requires { width ≤ 128 }
    ensures { OnOk result (first.new ≡ noted first.old (value_faults_within width scope.now (kind_of kind) (expression_of expr.now))) }
{
    let found = value_fault(alloc, expr, scope, width, kind)?;
    first.note_if_some(found);
    Ok(())
}

/// Notes a constant that isn't one of its place.
fn note_value(
    alloc: Global,
    scope: &Scope<'_>,
    kind: ConstantPlace,
    expr: &Expr,
    first: &mut FirstFault,
) -> Result<(), NoMemory>
    ensures { OnOk result (first.new ≡ noted first.old (value_faults scope.now (kind_of kind) (expression_of expr.now))) }
{
    note_value_within(alloc, scope, 0, kind, expr, first)?;
    Ok(())
}

/// Notes what is wrong with a constant at its place.
pub fn note_constant(
    alloc: Global,
    scope: &Scope<'_>,
    kind: ConstantPlace,
    expr: &Expr,
    first: &mut FirstFault,
) -> Result<(), NoMemory>
    ensures { OnOk result (first.new ≡ noted first.old (constant_faults scope.now (kind_of kind) (expression_of expr.now))) }
{
    note_constant_names(alloc, scope, expr, first)?;
    note_value(alloc, scope, kind, expr, first)?;
    Ok(())
}

/// Notes what is wrong with a constant at its place, if it is there.
pub fn note_optional_constant(
    alloc: Global,
    scope: &Scope<'_>,
    kind: ConstantPlace,
    expr: &Option<Expr>,
    first: &mut FirstFault,
) -> Result<(), NoMemory>
    ensures { OnOk result (first.new ≡ noted first.old (optional_faults (constant_faults scope.now (kind_of kind)) (expression_in expr.now))) }
{
    match expr {
        None => Ok(()),
        Some(expr) => {
            note_constant(alloc, scope, kind, expr, first)?;
            Ok(())
        }
    }
}

/// Notes what is wrong with the bounds of a range, each at most a limit.
pub fn note_bounds(
    alloc: Global,
    scope: &Scope<'_>,
    limit: u32,
    range: &Range,
    first: &mut FirstFault,
) -> Result<(), NoMemory>
    ensures { OnOk result (first.new ≡ noted first.old (bound_faults scope.now limit (range_of range.now))) }
{
    note_constant(
        alloc,
        scope,
        ConstantPlace::BoundUpTo(limit),
        &range.high,
        first,
    )?;
    note_constant(
        alloc,
        scope,
        ConstantPlace::BoundUpTo(limit),
        &range.low,
        first,
    )?;
    Ok(())
}

/// Notes what is wrong with the bounds of a range of bits, if there is one.
pub fn note_range(
    alloc: Global,
    scope: &Scope<'_>,
    range: &Option<Range>,
    first: &mut FirstFault,
) -> Result<(), NoMemory>
    ensures { OnOk result (first.new ≡ noted first.old (optional_faults (bound_faults scope.now most_bound) (range_in range.now))) }
{
    match range {
        None => Ok(()),
        Some(range) => {
            note_bounds(alloc, scope, MAX_BOUND, range, first)?;
            Ok(())
        }
    }
}
