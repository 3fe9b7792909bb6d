// The objects that a statement reads, in the order of the text.

ghost use Rattle.std.specs.Prelude.{◌≡◌, ◌++◌, IfOk, flat_map, map};
ghost use Rattle.vf_base.specs.Base.{object_number};
ghost use Rattle.vf_base.specs.Lists.{AllHold};
ghost use Rattle.v_design.specs.Sized.{IsSized, IsSizedTarget};
ghost use Rattle.v_design.specs.Plain.{expression_of, target_of};
ghost use Rattle.v_tree.specs.Views as source;
ghost use Rattle.v_elab.specs.Statements.{Meaning as PlainMeaning, objects_in_text, index_objects_in_text, expression_in_text};
ghost use Rattle.v_elab.specs.Statements.{assignment_in_text, labels_in_text, read_in_text, all_read_in_text, items_read_in_text};
ghost use Rattle.object_statements.specs.Meanings.{IsMeaning};
ghost use Rattle.object_statements.specs.CaseItems.{item_read_in_text};
ghost use Rattle.object_statements.specs.Texts.{HasMeaning, IsSizedRead, IsSizedWrite, AreSizedLabels, IsSizedText, AreSizedTexts, AreSizedItemTexts, IsSizedItemText};

use crate::meaning::{Meaning, expr_alone, targets_over};
use std::alloc::Global;
use v_design::{FlatExpr, FlatTarget};
use v_tree::{CaseItem, Expr, Stmt, Target};
use vf_base::{NoMemory, ObjectId};

/// Adds the objects that an expression over objects reads.
fn add_flat(alloc: Global, expr: &FlatExpr, objects: &mut Vec<ObjectId>) -> Result<(), NoMemory>
    requires { IsSized (expression_of expr.now) }
    ensures { IfOk result (λ _. map object_number objects.new.items ≡ map object_number objects.old.items ++ objects_in_text (expression_of expr.now)) }
{
    object_waits::add_objects(alloc, expr, objects)?;
    Ok(())
}

/// Adds the objects that the index of a target reads.
fn add_index(
    alloc: Global,
    target: &FlatTarget,
    objects: &mut Vec<ObjectId>,
) -> Result<(), NoMemory>
    requires { IsSizedTarget (target_of target.now) }
    ensures { IfOk result (λ _. map object_number objects.new.items ≡ map object_number objects.old.items ++ index_objects_in_text (target_of target.now)) }
{
    object_waits::add_index_objects(alloc, target, objects)?;
    Ok(())
}

/// Adds the objects that the indexes of some targets read.
fn add_indexes(
    alloc: Global,
    targets: &[FlatTarget],
    objects: &mut Vec<ObjectId>,
) -> Result<(), NoMemory>
    requires { AllHold IsSizedTarget (map target_of targets.now) }
    ensures { IfOk result (λ _. map object_number objects.new.items ≡ map object_number objects.old.items ++ flat_map index_objects_in_text (map target_of targets.now)) }
{
    'targets: for target in targets {
        add_index(alloc, target, objects)?;
    }
    Ok(())
}

/// Adds the objects that an expression reads.
fn add_expr(
    alloc: Global,
    meaning: Meaning<'_, '_>,
    expr: &Expr,
    objects: &mut Vec<ObjectId>,
) -> Result<(), NoMemory>
    requires { HasMeaning meaning (λ (m : PlainMeaning). IsSizedRead m (source.expression_of expr.now)) }
    ensures { IfOk result (λ _. (plain : PlainMeaning) → IsMeaning plain meaning.entry →
        map object_number objects.new.items ≡ map object_number objects.old.items ++ expression_in_text plain (source.expression_of expr.now)) }
{
    let flat = expr_alone(alloc, meaning, expr)?;
    let added = add_flat(alloc, &flat, objects);
    drop(flat);
    added?;
    Ok(())
}

/// Adds the objects that an assignment reads: for the indexes of its target, then for its value.
fn add_assignment(
    alloc: Global,
    meaning: Meaning<'_, '_>,
    target: &Target,
    value: &Expr,
    objects: &mut Vec<ObjectId>,
) -> Result<(), NoMemory>
    requires { HasMeaning meaning (λ (m : PlainMeaning). IsSizedWrite m (source.target_of target.now) (source.expression_of value.now)) }
    ensures { IfOk result (λ _. (plain : PlainMeaning) → IsMeaning plain meaning.entry →
        map object_number objects.new.items ≡ map object_number objects.old.items ++ assignment_in_text plain (source.target_of target.now) (source.expression_of value.now)) }
{
    let targets = targets_over(alloc, meaning, target)?;
    add_indexes(alloc, &targets, objects)?;
    add_expr(alloc, meaning, value, objects)?;
    Ok(())
}

/// Adds the objects that some labels read.
fn add_labels(
    alloc: Global,
    meaning: Meaning<'_, '_>,
    labels: &[Expr],
    objects: &mut Vec<ObjectId>,
) -> Result<(), NoMemory>
    requires { HasMeaning meaning (λ (m : PlainMeaning). AreSizedLabels m (source.expressions_of labels.now)) }
    ensures { IfOk result (λ _. (plain : PlainMeaning) → IsMeaning plain meaning.entry →
        map object_number objects.new.items ≡ map object_number objects.old.items ++ labels_in_text plain (source.expressions_of labels.now)) }
{
    'labels: for label in labels {
        add_expr(alloc, meaning, label, objects)?;
    }
    Ok(())
}

/// Adds the objects that a statement reads.
#[cycle(reads)]
fn add_statement(
    alloc: Global,
    meaning: Meaning<'_, '_>,
    statement: &Stmt,
    objects: &mut Vec<ObjectId>,
) -> Result<(), NoMemory>
    requires { HasMeaning meaning (λ (m : PlainMeaning). IsSizedText m (source.statement_of statement.now)) }
    ensures { IfOk result (λ _. (plain : PlainMeaning) → IsMeaning plain meaning.entry →
        map object_number objects.new.items ≡ map object_number objects.old.items ++ read_in_text plain (source.statement_of statement.now)) }
{
    match statement {
        Stmt::Null { .. } | Stmt::IgnoredTask { .. } | Stmt::Finish { .. } => Ok(()),
        Stmt::Block { statements, .. } => {
            add_statements(alloc, meaning, statements, objects)?;
            Ok(())
        }
        Stmt::If {
            condition,
            first,
            second,
            ..
        } => {
            add_expr(alloc, meaning, condition, objects)?;
            add_statement(alloc, meaning, first, objects)?;
            match second {
                None => Ok(()),
                Some(second) => {
                    add_statement(alloc, meaning, second, objects)?;
                    Ok(())
                }
            }
        }
        Stmt::Case { value, items, .. } => {
            add_expr(alloc, meaning, value, objects)?;
            add_items(alloc, meaning, items, objects)?;
            Ok(())
        }
        Stmt::For {
            first_target,
            first,
            condition,
            next_target,
            next,
            body,
            ..
        } => {
            add_assignment(alloc, meaning, first_target, first, objects)?;
            add_expr(alloc, meaning, condition, objects)?;
            add_assignment(alloc, meaning, next_target, next, objects)?;
            add_statement(alloc, meaning, body, objects)?;
            Ok(())
        }
        Stmt::While {
            condition,
            body,
            ..
        } => {
            add_expr(alloc, meaning, condition, objects)?;
            add_statement(alloc, meaning, body, objects)?;
            Ok(())
        }
        Stmt::Repeat { count, body, .. } => {
            add_expr(alloc, meaning, count, objects)?;
            add_statement(alloc, meaning, body, objects)?;
            Ok(())
        }
        Stmt::Forever { body, .. } => {
            add_statement(alloc, meaning, body, objects)?;
            Ok(())
        }
        Stmt::Wait { body, .. } => {
            add_statement(alloc, meaning, body, objects)?;
            Ok(())
        }
        Stmt::Event { body, .. } => {
            add_statement(alloc, meaning, body, objects)?;
            Ok(())
        }
        Stmt::Delay { body, .. } => {
            add_statement(alloc, meaning, body, objects)?;
            Ok(())
        }
        Stmt::Blocking { target, value, .. } => {
            add_assignment(alloc, meaning, target, value, objects)?;
            Ok(())
        }
        Stmt::Nonblocking { target, value, .. } => {
            add_assignment(alloc, meaning, target, value, objects)?;
            Ok(())
        }
    }
}

/// Adds the objects that some statements read.
#[cycle(reads)]
fn add_statements(
    alloc: Global,
    meaning: Meaning<'_, '_>,
    statements: &[Stmt],
    objects: &mut Vec<ObjectId>,
) -> Result<(), NoMemory>
    requires { HasMeaning meaning (λ (m : PlainMeaning). AreSizedTexts m (source.statements_of statements.now)) }
    ensures { IfOk result (λ _. (plain : PlainMeaning) → IsMeaning plain meaning.entry →
        map object_number objects.new.items ≡ map object_number objects.old.items ++ all_read_in_text plain (source.statements_of statements.now)) }
{
    'statements: for statement in statements {
        add_statement(alloc, meaning, statement, objects)?;
    }
    Ok(())
}

/// Adds the objects that the items of a `case` read.
#[cycle(reads)]
fn add_items(
    alloc: Global,
    meaning: Meaning<'_, '_>,
    items: &[CaseItem],
    objects: &mut Vec<ObjectId>,
) -> Result<(), NoMemory>
    requires { HasMeaning meaning (λ (m : PlainMeaning). AreSizedItemTexts m (source.case_items_of items.now)) }
    ensures { IfOk result (λ _. (plain : PlainMeaning) → IsMeaning plain meaning.entry →
        map object_number objects.new.items ≡ map object_number objects.old.items ++ items_read_in_text plain (source.case_items_of items.now)) }
{
    'items: for item in items {
        add_item(alloc, meaning, item, objects)?;
    }
    Ok(())
}

/// Adds the objects that an item of a `case` reads.
#[cycle(reads)]
fn add_item(
    alloc: Global,
    meaning: Meaning<'_, '_>,
    item: &CaseItem,
    objects: &mut Vec<ObjectId>,
) -> Result<(), NoMemory>
    requires { HasMeaning meaning (λ (m : PlainMeaning). IsSizedItemText m item.now) }
    ensures { IfOk result (λ _. (plain : PlainMeaning) → IsMeaning plain meaning.entry →
        map object_number objects.new.items ≡ map object_number objects.old.items ++ item_read_in_text plain item.now) }
{
    match item {
        CaseItem::Labelled { labels, statement } => {
            add_labels(alloc, meaning, labels.as_slice(), objects)?;
            add_statement(alloc, meaning, statement, objects)?;
            Ok(())
        }
        CaseItem::Default { statement } => {
            add_statement(alloc, meaning, statement, objects)?;
            Ok(())
        }
    }
}

/// The objects that a statement reads, in the order of the text; one that is read twice stands twice.
pub fn objects_read(
    alloc: Global,
    meaning: Meaning<'_, '_>,
    statement: &Stmt,
) -> Result<Vec<ObjectId>, NoMemory>
    requires { HasMeaning meaning (λ (m : PlainMeaning). IsSizedText m (source.statement_of statement.now)) }
    ensures { IfOk result (λ objects. (plain : PlainMeaning) → IsMeaning plain meaning.entry → map object_number objects.items ≡ read_in_text plain (source.statement_of statement.now)) }
{
    let mut objects = Vec::new(alloc);
    add_statement(alloc, meaning, statement, &mut objects)?;
    Ok(objects)
}
