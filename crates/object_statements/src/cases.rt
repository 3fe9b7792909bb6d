// The sizes and the labels of a `case`, which are sized together with its expression.

ghost use Rattle.std.specs.Prelude.{◌≡◌, IfOk, option_map};
ghost use Rattle.v_design.specs.Plain.{expression_of, expressions_of};
ghost use Rattle.v_tree.specs.Views as source;
ghost use Rattle.v_names.specs.Readings.{larger_size, reading_of, tree_at};
ghost use Rattle.v_names.specs.SizedTrees.{over_objects};
ghost use Rattle.v_names.specs.SizeViews.{size_of};
ghost use Rattle.v_elab.specs.Statements.{Meaning as PlainMeaning, labels_size, items_size, label_expressions};
ghost use Rattle.object_statements.specs.Meanings.{IsMeaning};
ghost use Rattle.object_expr.specs.Narrow.{IsNarrow};
ghost use Rattle.object_statements.specs.CaseItems.{item_size};
ghost use Rattle.object_statements.specs.Texts.{HasMeaning, AreSizedLabels};

use crate::meaning::Meaning;
use expr_sizes::{larger_of, own_reading, read_expr};
use object_expr::over_objects;
use std::alloc::Global;
use v_design::FlatExpr;
use v_names::{Scope, Size};
use v_tree::{CaseItem, Expr};
use vf_base::NoMemory;

/// The size of an expression together with another size.
fn with_expr(
    alloc: Global,
    scope: &Scope<'_>,
    expr: &Expr,
    size: Option<Size>,
) -> Result<Option<Size>, NoMemory>
    ensures { IfOk result (λ new. option_map size_of new ≡ larger_size (reading_of scope.now (source.expression_of expr.now)).size (option_map size_of size)) }
{
    let read = own_reading(alloc, expr, scope)?;
    Ok(larger_of(read.size, size))
}

/// The size of some labels together with another size.
fn with_labels(
    alloc: Global,
    scope: &Scope<'_>,
    labels: &[Expr],
    size: Option<Size>,
) -> Result<Option<Size>, NoMemory>
    ensures { IfOk result (λ new. option_map size_of new ≡ labels_size scope.now (source.expressions_of labels.now) (option_map size_of size)) }
{
    let mut all = size;
    'labels: for label in labels {
        all = with_expr(alloc, scope, label, all)?;
    }
    Ok(all)
}

/// The size of an item's labels together with another size.
fn with_item(
    alloc: Global,
    scope: &Scope<'_>,
    item: &CaseItem,
    size: Option<Size>,
) -> Result<Option<Size>, NoMemory>
    ensures { IfOk result (λ new. option_map size_of new ≡ item_size scope.now item.now (option_map size_of size)) }
{
    match item {
        CaseItem::Labelled { labels, .. } => {
            let new = with_labels(alloc, scope, labels.as_slice(), size)?;
            Ok(new)
        }
        CaseItem::Default { .. } => Ok(size),
    }
}

/// The size of the labels of some items together with another size.
fn with_items(
    alloc: Global,
    scope: &Scope<'_>,
    items: &[CaseItem],
    size: Option<Size>,
) -> Result<Option<Size>, NoMemory>
    ensures { IfOk result (λ new. option_map size_of new ≡ items_size scope.now (source.case_items_of items.now) (option_map size_of size)) }
{
    let mut all = size;
    'items: for item in items {
        all = with_item(alloc, scope, item, all)?;
    }
    Ok(all)
}

/// The size of the expression of a `case` and all its labels.
pub fn case_size(
    alloc: Global,
    scope: &Scope<'_>,
    value: &Expr,
    items: &[CaseItem],
) -> Result<Option<Size>, NoMemory>
    ensures { IfOk result (λ size. option_map size_of size ≡ items_size scope.now (source.case_items_of items.now) (reading_of scope.now (source.expression_of value.now)).size) }
{
    let own = own_reading(alloc, value, scope)?;
    let size = with_items(alloc, scope, items, own.size)?;
    Ok(size)
}

/// An expression at the size of a `case`; its bounds and counts have 32 bits.
pub fn expr_at(
    alloc: Global,
    meaning: Meaning<'_, '_>,
    expr: &Expr,
    size: Option<Size>,
) -> Result<FlatExpr, NoMemory>
    requires { HasMeaning meaning (λ (m : PlainMeaning). IsNarrow m.scope (source.expression_of expr.now)) }
    ensures { IfOk result (λ flat. (plain : PlainMeaning) → IsMeaning plain meaning.entry →
        expression_of flat ≡ over_objects plain.holders (tree_at (reading_of plain.scope (source.expression_of expr.now)) (option_map size_of size))) }
{
    let tree = read_expr(alloc, expr, meaning.scope)?.tree_at(size);
    let flat = over_objects(alloc, meaning.names, &tree);
    drop(tree);
    Ok(flat?)
}

/// The labels of an item at the size of its `case`.
pub fn labels_over(
    alloc: Global,
    meaning: Meaning<'_, '_>,
    labels: &[Expr],
    size: Option<Size>,
) -> Result<Vec<FlatExpr>, NoMemory>
    requires { HasMeaning meaning (λ (m : PlainMeaning). AreSizedLabels m (source.expressions_of labels.now)) }
    ensures { IfOk result (λ flats. (plain : PlainMeaning) → IsMeaning plain meaning.entry →
        expressions_of flats.items ≡ label_expressions plain (option_map size_of size) (source.expressions_of labels.now)) }
{
    let mut flats = Vec::new(alloc);
    'labels: for label in labels {
        let flat = expr_at(alloc, meaning, label, size)?;
        flats.push(flat)?;
    }
    Ok(flats)
}
