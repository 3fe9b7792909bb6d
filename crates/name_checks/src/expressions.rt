// What is wrong with the names of expressions, selects and targets.

ghost use Rattle.std.specs.Prelude.{◌≡◌, OnOk, ◌++◌, map, flat_map};
ghost use Rattle.v_tree.specs.Trees.{selects_of};
ghost use Rattle.v_tree.specs.Views.{expression_of, expressions_of, expression_in, index_of, select_of, target_of};
ghost use Rattle.vf_base.specs.Base.{source_place};
ghost use Rattle.v_names.specs.Scopes.{looked_up};
ghost use Rattle.v_names.specs.Constants.{most_bound, BoundUpTo, constant_faults, known_faults, name_faults};
ghost use Rattle.v_names.specs.Constants.{part_faults, index_faults, optional_faults, fixed_index_faults, fixed_select_faults, select_faults};
ghost use Rattle.v_names.specs.Names.{target_faults, fixed_target_faults};
ghost use Rattle.name_checks.specs.Noted.{noted};

use crate::constants::note_constant;
use crate::first_fault::FirstFault;
use std::alloc::Global;
use std::slice::from_ref;
use v_names::{ConstantPlace, Found, Reason, Scope};
use v_tree::{Expr, Index, Select, Target};
use vf_base::{MAX_BOUND, NoMemory, Place, Text};

/// Notes a name that must be declared.
pub fn note_known(scope: &Scope<'_>, name: &Text, place: Place, first: &mut FirstFault)
    ensures { first.new ≡ noted first.old (known_faults (looked_up scope.now name.now) (source_place place)) }
{
    match scope.lookup(name) {
        None => first.note(Found {
            place,
            reason: Reason::UnknownName,
        }),
        Some(_) => {}
    }
}

/// Notes what is wrong with the bounds of a part.
fn note_part_bounds(
    alloc: Global,
    scope: &Scope<'_>,
    from: &Expr,
    to: &Expr,
    first: &mut FirstFault,
) -> Result<(), NoMemory>
    ensures { OnOk result (first.new ≡ noted first.old (constant_faults scope.now (BoundUpTo most_bound) (expression_of from.now) ++ constant_faults scope.now
        (BoundUpTo most_bound) (expression_of to.now))) }
{
    note_constant(
        alloc,
        scope,
        ConstantPlace::BoundUpTo(MAX_BOUND),
        from,
        first,
    )?;
    note_constant(alloc, scope, ConstantPlace::BoundUpTo(MAX_BOUND), to, first)?;
    Ok(())
}

/// Notes what is wrong with the names of an expression, and with the constants in it.
#[cycle(expression)]
pub fn note_names(
    alloc: Global,
    scope: &Scope<'_>,
    expr: &Expr,
    first: &mut FirstFault,
) -> Result<(), NoMemory>
    ensures { OnOk result (first.new ≡ noted first.old (name_faults scope.now (expression_of expr.now))) }
{
    match expr {
        Expr::Number { .. } => Ok(()),
        Expr::Name { place, name } => {
            note_known(scope, name, *place, first);
            Ok(())
        }
        Expr::BitSelect { place, name, index } => {
            note_known(scope, name, *place, first);
            note_names(alloc, scope, index, first)?;
            Ok(())
        }
        Expr::PartSelect {
            place,
            name,
            from,
            to,
        } => {
            note_known(scope, name, *place, first);
            note_part_bounds(alloc, scope, from, to, first)?;
            Ok(())
        }
        Expr::Paren { inner, .. } => {
            note_names(alloc, scope, inner, first)?;
            Ok(())
        }
        Expr::Unary { operand, .. } => {
            note_names(alloc, scope, operand, first)?;
            Ok(())
        }
        Expr::Binary { left, right, .. } => {
            note_names(alloc, scope, left, first)?;
            note_names(alloc, scope, right, first)?;
            Ok(())
        }
        Expr::Conditional {
            condition,
            first: one,
            second,
            ..
        } => {
            note_names(alloc, scope, condition, first)?;
            note_names(alloc, scope, one, first)?;
            note_names(alloc, scope, second, first)?;
            Ok(())
        }
        Expr::Concat { parts, .. } => {
            note_parts(alloc, scope, parts, first)?;
            Ok(())
        }
        Expr::Repeat { count, parts, .. } => {
            note_constant(alloc, scope, ConstantPlace::IndexOrCount, count, first)?;
            note_parts(alloc, scope, parts, first)?;
            Ok(())
        }
    }
}

/// Notes what is wrong with the names of some expressions in a row.
#[cycle(expression)]
pub fn note_parts(
    alloc: Global,
    scope: &Scope<'_>,
    parts: &[Expr],
    first: &mut FirstFault,
) -> Result<(), NoMemory>
    ensures { OnOk result (first.new ≡ noted first.old (part_faults scope.now (expressions_of parts.now))) }
{
    'parts: for part in parts {
        note_names(alloc, scope, part, first)?;
    }
    Ok(())
}

/// Notes what is wrong with the names of an expression, if it is there.
pub fn note_optional_names(
    alloc: Global,
    scope: &Scope<'_>,
    expr: &Option<Expr>,
    first: &mut FirstFault,
) -> Result<(), NoMemory>
    ensures { OnOk result (first.new ≡ noted first.old (optional_faults (name_faults scope.now) (expression_in expr.now))) }
{
    match expr {
        None => Ok(()),
        Some(expr) => {
            note_names(alloc, scope, expr, first)?;
            Ok(())
        }
    }
}

/// Notes what is wrong with what stands in brackets behind a name.
fn note_index(
    alloc: Global,
    scope: &Scope<'_>,
    index: &Index,
    first: &mut FirstFault,
) -> Result<(), NoMemory>
    ensures { OnOk result (first.new ≡ noted first.old (index_faults scope.now (index_of index.now))) }
{
    match index {
        Index::Whole => Ok(()),
        Index::Bit(index) => {
            note_names(alloc, scope, index, first)?;
            Ok(())
        }
        Index::Part(from, to) => {
            note_part_bounds(alloc, scope, from, to, first)?;
            Ok(())
        }
    }
}

/// Notes what is wrong with a select whose index may vary.
fn note_select(
    alloc: Global,
    scope: &Scope<'_>,
    select: &Select,
    first: &mut FirstFault,
) -> Result<(), NoMemory>
    ensures { OnOk result (first.new ≡ noted first.old (select_faults scope.now (select_of select.now))) }
{
    note_known(scope, &select.name, select.place, first);
    note_index(alloc, scope, &select.index, first)?;
    Ok(())
}

/// Notes what is wrong with an index that must be constant.
fn note_fixed_index(
    alloc: Global,
    scope: &Scope<'_>,
    index: &Index,
    first: &mut FirstFault,
) -> Result<(), NoMemory>
    ensures { OnOk result (first.new ≡ noted first.old (fixed_index_faults scope.now (index_of index.now))) }
{
    match index {
        Index::Whole => Ok(()),
        Index::Bit(index) => {
            note_constant(alloc, scope, ConstantPlace::IndexOrCount, index, first)?;
            Ok(())
        }
        Index::Part(from, to) => {
            note_part_bounds(alloc, scope, from, to, first)?;
            Ok(())
        }
    }
}

/// Notes what is wrong with a select whose index must be constant.
pub fn note_fixed_select(
    alloc: Global,
    scope: &Scope<'_>,
    select: &Select,
    first: &mut FirstFault,
) -> Result<(), NoMemory>
    ensures { OnOk result (first.new ≡ noted first.old (fixed_select_faults scope.now (select_of select.now))) }
{
    note_known(scope, &select.name, select.place, first);
    note_fixed_index(alloc, scope, &select.index, first)?;
    Ok(())
}

/// The selects of a target, from the left.
fn selects(target: &Target) -> &[Select]
    ensures { map select_of result.now ≡ selects_of (target_of target.now) }
{
    match target {
        Target::One(select) => from_ref(select),
        Target::Joined(_, selects) => selects.as_slice(),
    }
}

/// Notes what is wrong with some selects whose indexes may vary.
fn note_selects(
    alloc: Global,
    scope: &Scope<'_>,
    selects: &[Select],
    first: &mut FirstFault,
) -> Result<(), NoMemory>
    ensures { OnOk result (first.new ≡ noted first.old (flat_map (select_faults scope.now) (map select_of selects.now))) }
{
    'selects: for select in selects {
        note_select(alloc, scope, select, first)?;
    }
    Ok(())
}

/// Notes what is wrong with some selects whose indexes must be constant.
fn note_fixed_selects(
    alloc: Global,
    scope: &Scope<'_>,
    selects: &[Select],
    first: &mut FirstFault,
) -> Result<(), NoMemory>
    ensures { OnOk result (first.new ≡ noted first.old (flat_map (fixed_select_faults scope.now) (map select_of selects.now))) }
{
    'selects: for select in selects {
        note_fixed_select(alloc, scope, select, first)?;
    }
    Ok(())
}

/// Notes what is wrong with what a process assigns.
pub fn note_target(
    alloc: Global,
    scope: &Scope<'_>,
    target: &Target,
    first: &mut FirstFault,
) -> Result<(), NoMemory>
    ensures { OnOk result (first.new ≡ noted first.old (target_faults scope.now (target_of target.now))) }
{
    note_selects(alloc, scope, selects(target), first)?;
    Ok(())
}

/// Notes what is wrong with what drives a net.
pub fn note_fixed_target(
    alloc: Global,
    scope: &Scope<'_>,
    target: &Target,
    first: &mut FirstFault,
) -> Result<(), NoMemory>
    ensures { OnOk result (first.new ≡ noted first.old (fixed_target_faults scope.now (target_of target.now))) }
{
    note_fixed_selects(alloc, scope, selects(target), first)?;
    Ok(())
}
