// Copies of selects, targets and event controls.

ghost use Rattle.std.specs.Prelude.{◌≡◌, map, IfOk};
ghost use Rattle.v_tree.specs.Views.{expression_of, expression_in, index_of, select_of, target_of, entry_of, waits_of};

use std::alloc::Global;
use v_copy::{both, copy_expr, copy_text};
use v_tree::{Entry, Expr, Index, Select, Target, Waits};
use vf_base::{NoMemory, Seq};

/// An index with the same view.
fn copy_index(alloc: Global, index: &Index) -> Result<Index, NoMemory>
    ensures { IfOk result (λ copy. index_of copy ≡ index_of index.now) }
{
    match index {
        Index::Whole => Ok(Index::Whole),
        Index::Bit(at) => {
            let at = copy_expr(alloc, at)?;
            Ok(Index::Bit(at))
        }
        Index::Part(from, to) => {
            let from = copy_expr(alloc, from);
            let to = copy_expr(alloc, to);
            let (from, to) = both(from, to)?;
            Ok(Index::Part(from, to))
        }
    }
}

/// A select with the same view.
fn copy_select(alloc: Global, select: &Select) -> Result<Select, NoMemory>
    ensures { IfOk result (λ copy. select_of copy ≡ select_of select.now) }
{
    let name = copy_text(alloc, &select.name)?;
    let index = copy_index(alloc, &select.index)?;
    Ok(Select {
        place: select.place,
        name,
        index,
    })
}

/// Selects with the same views.
fn copy_selects(alloc: Global, selects: &[Select]) -> Result<Vec<Select>, NoMemory>
    ensures { IfOk result (λ copy. map select_of copy.items ≡ map select_of selects.now) }
{
    let mut copies = Vec::new(alloc);
    'selects: for select in selects {
        let copy = copy_select(alloc, select)?;
        copies.push(copy)?;
    }
    Ok(copies)
}

/// A target with the same view.
pub fn copy_target(alloc: Global, target: &Target) -> Result<Target, NoMemory>
    ensures { IfOk result (λ copy. target_of copy ≡ target_of target.now) }
{
    match target {
        Target::One(select) => {
            let select = copy_select(alloc, select)?;
            Ok(Target::One(select))
        }
        Target::Joined(place, selects) => {
            let selects = copy_selects(alloc, selects.as_slice())?;
            Ok(Target::Joined(*place, Seq::from_vec(selects)))
        }
    }
}

/// An expression that may be there, with the same view.
pub fn copy_optional(alloc: Global, expr: &Option<Expr>) -> Result<Option<Expr>, NoMemory>
    ensures { IfOk result (λ copy. expression_in copy ≡ expression_in expr.now) }
{
    match expr {
        Some(expr) => {
            let copy = copy_expr(alloc, expr)?;
            Ok(Some(copy))
        }
        None => Ok(None),
    }
}

/// Expressions with the same views.
pub fn copy_parts(alloc: Global, parts: &[Expr]) -> Result<Vec<Expr>, NoMemory>
    ensures { IfOk result (λ copy. map expression_of copy.items ≡ map expression_of parts.now) }
{
    let mut copies = Vec::new(alloc);
    'parts: for part in parts {
        let copy = copy_expr(alloc, part)?;
        copies.push(copy)?;
    }
    Ok(copies)
}

/// A target and an expression with the same views.
pub fn copy_assigned(
    alloc: Global,
    target: &Target,
    value: &Expr,
) -> Result<(Target, Expr), NoMemory>
    ensures target { IfOk result (λ copy. target_of copy.0 ≡ target_of target.now) }
    ensures value { IfOk result (λ copy. expression_of copy.1 ≡ expression_of value.now) }
{
    let target = copy_target(alloc, target);
    let value = copy_expr(alloc, value);
    let copy = both(target, value)?;
    Ok(copy)
}

/// An entry of an event control with the same view.
fn copy_entry(alloc: Global, entry: &Entry) -> Result<Entry, NoMemory>
    ensures { IfOk result (λ copy. entry_of copy ≡ entry_of entry.now) }
{
    let select = copy_select(alloc, &entry.select)?;
    Ok(Entry {
        edge: entry.edge,
        select,
    })
}

/// Entries of an event control with the same views.
fn copy_entries(alloc: Global, entries: &[Entry]) -> Result<Vec<Entry>, NoMemory>
    ensures { IfOk result (λ copy. map entry_of copy.items ≡ map entry_of entries.now) }
{
    let mut copies = Vec::new(alloc);
    'entries: for entry in entries {
        let copy = copy_entry(alloc, entry)?;
        copies.push(copy)?;
    }
    Ok(copies)
}

/// What an event control waits for, with the same view.
pub fn copy_waits(alloc: Global, waits: &Waits) -> Result<Waits, NoMemory>
    ensures { IfOk result (λ copy. waits_of copy ≡ waits_of waits.now) }
{
    match waits {
        Waits::AnyRead => Ok(Waits::AnyRead),
        Waits::Entries(entries) => {
            let entries = copy_entries(alloc, entries.as_slice())?;
            Ok(Waits::Entries(Seq::from_vec(entries)))
        }
    }
}
