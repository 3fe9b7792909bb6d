// What is wrong with the sizes of expressions and ranges.

ghost use Rattle.std.specs.Prelude.{◌≡◌, ◌+◌, OnOk, IfOk};
ghost use Rattle.v_tree.specs.Views.{expression_of, expression_in, range_of, range_in};
ghost use Rattle.v_names.specs.Constants.{optional_faults};
ghost use Rattle.v_elab.specs.ItemFaults.{size_faults, bounds_size_faults, range_faults, declared_range_faults};
ghost use Rattle.name_checks.specs.Noted.{noted};
ghost use Rattle.item_checks.specs.Widths.{is_too_wide};

use crate::groups::{note_group, note_where};
use expr_sizes::own_reading;
use name_checks::{Bounds, FirstFault, range_of, width_of};
use std::alloc::Global;
use v_names::{Reason, Scope};
use v_tree::{Expr, Range};
use vf_base::NoMemory;

/// Notes what is wrong with the sizes of an expression that is sized alone.
pub fn note_size(
    alloc: Global,
    scope: &Scope<'_>,
    expr: &Expr,
    first: &mut FirstFault,
) -> Result<(), NoMemory>
    ensures { OnOk result (first.new ≡ noted first.old (size_faults scope.now (expression_of expr.now))) }
{
    let read = own_reading(alloc, expr, scope)?;
    note_group(read.faults, first);
    Ok(())
}

/// Notes what is wrong with the sizes of an expression that is sized alone, if it is there.
pub fn note_optional_size(
    alloc: Global,
    scope: &Scope<'_>,
    expr: &Option<Expr>,
    first: &mut FirstFault,
) -> Result<(), NoMemory>
    ensures { OnOk result (first.new ≡ noted first.old (optional_faults (size_faults scope.now) (expression_in expr.now))) }
{
    match expr {
        None => Ok(()),
        Some(expr) => {
            note_size(alloc, scope, expr, first)?;
            Ok(())
        }
    }
}

/// Notes what is wrong with the sizes of the bounds of a range.
pub fn note_bounds(
    alloc: Global,
    scope: &Scope<'_>,
    range: &Range,
    first: &mut FirstFault,
) -> Result<(), NoMemory>
    ensures { OnOk result (first.new ≡ noted first.old (bounds_size_faults scope.now (range_of range.now))) }
{
    note_size(alloc, scope, &range.high, first)?;
    note_size(alloc, scope, &range.low, first)?;
    Ok(())
}

/// Whether a range is wider than a vector may be.
fn is_too_wide(alloc: Global, scope: &Scope<'_>, range: &Range) -> Result<bool, NoMemory>
    ensures { IfOk result (λ wide. wide ≡ is_too_wide scope.now (range_of range.now)) }
{
    let bits = range_of(alloc, scope, Bounds::Ranged(range))?;
    match width_of(bits) {
        None => Ok(true),
        Some(_) => Ok(false),
    }
}

/// Notes what is wrong with a range: with its bounds, and where nothing is, that it is too wide.
fn note_range(
    alloc: Global,
    scope: &Scope<'_>,
    range: &Range,
    first: &mut FirstFault,
) -> Result<(), NoMemory>
    ensures { OnOk result (first.new ≡ noted first.old (range_faults scope.now (range_of range.now))) }
{
    let mut own = FirstFault::new();
    note_bounds(alloc, scope, range, &mut own)?;
    match own.found() {
        Some(found) => {
            first.note(found);
            Ok(())
        }
        None => {
            let wide = is_too_wide(alloc, scope, range)?;
            note_where(wide, range.place, Reason::BadWidth, first);
            Ok(())
        }
    }
}

/// Notes what is wrong with a range that is declared, if there is one.
pub fn note_declared_range(
    alloc: Global,
    scope: &Scope<'_>,
    range: &Option<Range>,
    first: &mut FirstFault,
) -> Result<(), NoMemory>
    ensures { OnOk result (first.new ≡ noted first.old (declared_range_faults scope.now (range_in range.now))) }
{
    match range {
        None => Ok(()),
        Some(range) => {
            note_range(alloc, scope, range, first)?;
            Ok(())
        }
    }
}
