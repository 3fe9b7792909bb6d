// Selects: a name with what stands in brackets behind it.

ghost use Rattle.std.specs.Prelude.{IfOk};
ghost use Rattle.vf_base.specs.Base.{source_place};
ghost use Rattle.v_tree.specs.Views.{index_of};
ghost use Rattle.v_names.specs.Readings.{select_reading};
ghost use Rattle.expr_sizes.specs.ExprReadings.{IsReading};
ghost use Rattle.expr_sizes.specs.Answers.{IsOwnReading};

use crate::answer::OwnReading;
use crate::name::{indexed_reading, name_reading, ranged_reading};
use crate::read::read_expr;
use crate::reading::{ExprReading, alone_faults};
use std::alloc::Global;
use v_names::{Scope, number_of_constant};
use v_tree::{Index, Select};
use v_width::together;
use vf_base::NoMemory;

/// What a select is in a scope.
pub fn read_select(alloc: Global, select: &Select, scope: &Scope) -> Result<ExprReading, NoMemory>
    ensures { IfOk result (λ read. IsReading (select_reading scope.now (source_place select.now.place) select.now.name (index_of select.now.index)) read) }
{
    let name = &select.name;
    let entry = scope.lookup(name);
    match &select.index {
        Index::Whole => {
            let read = name_reading(alloc, &entry, select.place, name)?;
            Ok(read)
        }
        Index::Bit(index) => {
            let index = read_expr(alloc, index, scope)?;
            let read = indexed_reading(alloc, &entry, select.place, name, index)?;
            Ok(read)
        }
        Index::Part(from, to) => {
            let first = read_expr(alloc, from, scope)?;
            let first_faults = alone_faults(first);
            let second = read_expr(alloc, to, scope)?;
            let second_faults = alone_faults(second);
            let from = number_of_constant(alloc, from, scope)?;
            let to = number_of_constant(alloc, to, scope)?;
            let inside = together(first_faults, second_faults);
            let read = ranged_reading(alloc, &entry, select.place, name, inside, from, to)?;
            Ok(read)
        }
    }
}

/// The size of a select in a scope, with what is wrong with its sizes.
pub fn select_reading(alloc: Global, select: &Select, scope: &Scope) -> Result<OwnReading, NoMemory>
    ensures { IfOk result (λ own. IsOwnReading (select_reading scope.now (source_place select.now.place) select.now.name (index_of select.now.index)) own) }
{
    let read = read_select(alloc, select, scope)?;
    Ok(OwnReading {
        size: read.size,
        faults: read.faults,
    })
}
