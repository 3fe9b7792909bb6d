// What is wrong with the expression and the labels of a `case`, which are sized together.

ghost use Rattle.std.specs.Prelude.{◌≡◌, IfOk, OnOk};
ghost use Rattle.v_tree.specs.Views.{expression_of, expressions_of, case_items_of};
ghost use Rattle.v_names.specs.Readings.{reading_of};
ghost use Rattle.v_elab.specs.ItemFaults.{items_labels_faults, case_faults};
ghost use Rattle.name_checks.specs.Noted.{noted};
ghost use Rattle.item_checks.specs.Groups.{group_of, labels_group, item_group, Grows};

use crate::groups::note_group;
use expr_sizes::own_reading;
use name_checks::FirstFault;
use std::alloc::Global;
use v_names::Scope;
use v_tree::{CaseItem, Expr};
use v_width::{Faults, together};
use vf_base::NoMemory;

/// The faults of a group and one more expression.
fn with_label(
    alloc: Global,
    scope: &Scope<'_>,
    label: &Expr,
    faults: Faults,
) -> Result<Faults, NoMemory>
    ensures { IfOk result (λ new. Grows (group_of (reading_of scope.now (expression_of label.now))) faults new) }
{
    let read = own_reading(alloc, label, scope)?;
    Ok(together(faults, read.faults))
}

/// The faults of a group and some more expressions.
fn with_labels(
    alloc: Global,
    scope: &Scope<'_>,
    labels: &[Expr],
    before: Faults,
) -> Result<Faults, NoMemory>
    ensures { IfOk result (λ new. Grows (labels_group scope.now (expressions_of labels.now)) before new) }
{
    let mut faults = before;
    'labels: for label in labels {
        faults = with_label(alloc, scope, label, faults)?;
    }
    Ok(faults)
}

/// The faults of a group and the labels of an item.
fn with_item(
    alloc: Global,
    scope: &Scope<'_>,
    item: &CaseItem,
    faults: Faults,
) -> Result<Faults, NoMemory>
    ensures { IfOk result (λ new. Grows (item_group scope.now item.now) faults new) }
{
    match item {
        CaseItem::Labelled { labels, .. } => {
            let new = with_labels(alloc, scope, labels.as_slice(), faults)?;
            Ok(new)
        }
        CaseItem::Default { .. } => Ok(faults),
    }
}

/// The faults of a group and the labels of some items.
fn with_items(
    alloc: Global,
    scope: &Scope<'_>,
    items: &[CaseItem],
    before: Faults,
) -> Result<Faults, NoMemory>
    ensures { IfOk result (λ new. Grows (items_labels_faults scope.now (case_items_of items.now)) before new) }
{
    let mut faults = before;
    'items: for item in items {
        faults = with_item(alloc, scope, item, faults)?;
    }
    Ok(faults)
}

/// Notes what is wrong with the expression and the labels of a `case`.
pub fn note_case(
    alloc: Global,
    scope: &Scope<'_>,
    value: &Expr,
    items: &[CaseItem],
    first: &mut FirstFault,
) -> Result<(), NoMemory>
    ensures { OnOk result (first.new ≡ noted first.old (case_faults scope.now (expression_of value.now) (case_items_of items.now))) }
{
    let read = own_reading(alloc, value, scope)?;
    let faults = with_items(alloc, scope, items, read.faults)?;
    note_group(faults, first);
    Ok(())
}
