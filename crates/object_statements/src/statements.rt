// Statements over objects.

ghost use Rattle.std.specs.Prelude.{◌≡◌, IfOk, option_map};
ghost use Rattle.v_design.specs.Plain.{statement_of};
ghost use Rattle.v_design.specs.PlainLemmas.{statements_of, items_of};
ghost use Rattle.v_tree.specs.Views as source;
ghost use Rattle.v_names.specs.SizeViews.{size_of};
ghost use Rattle.v_elab.specs.Statements.{Meaning as PlainMeaning, statement_over, statements_over, items_over, default_over};
ghost use Rattle.v_design.specs.Trees.{CaseItems};
ghost use Rattle.object_statements.specs.Meanings.{IsMeaning};
ghost use Rattle.object_statements.specs.CaseItems.{item_over, then_items};
ghost use Rattle.object_statements.specs.Branches.{second_over};
ghost use Rattle.object_statements.specs.Texts.{HasMeaning, IsSizedText, AreSizedTexts, AreSizedItemTexts, IsSizedItemText, IsSizedSecond};

use crate::cases::{case_size, labels_over};
use crate::meaning::Meaning;
use crate::parts::{
    ForHead, blocking_over, case_over, delayed_over, event_over, for_over, if_over,
    nonblocking_over, repeat_over, wait_over, while_over,
};
use std::alloc::Global;
use v_copy::both;
use v_design::{CaseItem as FlatItem, FlatStmt};
use v_names::Size;
use v_tree::{CaseItem, Stmt};
use vf_base::NoMemory;

/// A statement over objects, for what the names of its process mean: its text is sized for it.
///
/// # Errors
///
/// Want of memory.
#[cycle(statement)]
pub fn statement_over(
    alloc: Global,
    meaning: Meaning<'_, '_>,
    statement: &Stmt,
) -> Result<FlatStmt, NoMemory>
    requires { HasMeaning meaning (λ (m : PlainMeaning). IsSizedText m (source.statement_of statement.now)) }
    ensures { IfOk result (λ flat. (plain : PlainMeaning) → IsMeaning plain meaning.entry → statement_of flat ≡ statement_over plain (source.statement_of statement.now)) }
{
    match statement {
        Stmt::Null { .. } => Ok(FlatStmt::Null),
        Stmt::IgnoredTask { .. } => Ok(FlatStmt::Null),
        Stmt::Finish { place } => Ok(FlatStmt::Finish { place: *place }),
        Stmt::Block { place, statements } => {
            let statements = statements_over(alloc, meaning, statements)?;
            Ok(FlatStmt::Block {
                place: *place,
                statements,
            })
        }
        Stmt::If {
            place,
            condition,
            first,
            second,
        } => {
            let first = boxed_over(alloc, meaning, first);
            let second = second_over(alloc, meaning, second);
            let (first, second) = both(first, second)?;
            if_over(alloc, meaning, *place, condition, first, second)
        }
        Stmt::Case {
            place,
            kind,
            value,
            items,
        } => {
            let size = case_size(alloc, meaning.scope, value, items)?;
            let flats = items_over(alloc, meaning, items, size)?;
            let other = default_over(alloc, meaning, items)?;
            let flat = case_over(alloc, meaning, *place, *kind, value, size, flats, other)?;
            Ok(flat)
        }
        Stmt::For {
            place,
            first_target,
            first,
            condition,
            next_target,
            next,
            body,
        } => {
            let body = boxed_over(alloc, meaning, body)?;
            let head = ForHead {
                first_target,
                first,
                condition,
                next_target,
                next,
            };
            for_over(alloc, meaning, *place, head, body)
        }
        Stmt::While {
            place,
            condition,
            body,
        } => {
            let body = boxed_over(alloc, meaning, body)?;
            while_over(alloc, meaning, *place, condition, body)
        }
        Stmt::Repeat { place, count, body } => {
            let body = boxed_over(alloc, meaning, body)?;
            repeat_over(alloc, meaning, *place, count, body)
        }
        Stmt::Forever { place, body } => {
            let body = boxed_over(alloc, meaning, body)?;
            Ok(FlatStmt::Forever {
                place: *place,
                body,
            })
        }
        Stmt::Wait {
            place,
            condition,
            body,
        } => {
            let body = boxed_over(alloc, meaning, body)?;
            wait_over(alloc, meaning, *place, condition, body)
        }
        Stmt::Event { place, waits, body } => {
            let flat = boxed_over(alloc, meaning, body)?;
            event_over(alloc, meaning, *place, waits, body, flat)
        }
        Stmt::Delay { place, delay, body } => {
            let body = boxed_over(alloc, meaning, body)?;
            delayed_over(alloc, meaning, *place, delay, body)
        }
        Stmt::Blocking {
            place,
            target,
            delay,
            value,
        } => blocking_over(alloc, meaning, *place, target, delay, value),
        Stmt::Nonblocking {
            place,
            target,
            delay,
            value,
        } => nonblocking_over(alloc, meaning, *place, target, delay, value),
    }
}

/// The other branch of an `if` over objects, a statement that does nothing where it has none.
#[cycle(statement)]
fn second_over(
    alloc: Global,
    meaning: Meaning<'_, '_>,
    second: &Option<Box<Stmt>>,
) -> Result<Box<FlatStmt>, NoMemory>
    requires { HasMeaning meaning (λ (m : PlainMeaning). IsSizedSecond m second.now) }
    ensures { IfOk result (λ flat. (plain : PlainMeaning) → IsMeaning plain meaning.entry → statement_of flat.value ≡ second_over plain second.now) }
{
    match second {
        None => Ok(Box::new(alloc, FlatStmt::Null)?),
        Some(second) => {
            let flat = boxed_over(alloc, meaning, second)?;
            Ok(flat)
        }
    }
}

/// A box with a statement over objects.
#[cycle(statement)]
fn boxed_over(
    alloc: Global,
    meaning: Meaning<'_, '_>,
    statement: &Stmt,
) -> Result<Box<FlatStmt>, NoMemory>
    requires { HasMeaning meaning (λ (m : PlainMeaning). IsSizedText m (source.statement_of statement.now)) }
    ensures { IfOk result (λ flat. (plain : PlainMeaning) → IsMeaning plain meaning.entry → statement_of flat.value ≡ statement_over plain (source.statement_of statement.now)) }
{
    let flat = statement_over(alloc, meaning, statement)?;
    Ok(Box::new(alloc, flat)?)
}

/// Statements over objects.
#[cycle(statement)]
fn statements_over(
    alloc: Global,
    meaning: Meaning<'_, '_>,
    statements: &[Stmt],
) -> Result<Vec<FlatStmt>, NoMemory>
    requires { HasMeaning meaning (λ (m : PlainMeaning). AreSizedTexts m (source.statements_of statements.now)) }
    ensures { IfOk result (λ flats. (plain : PlainMeaning) → IsMeaning plain meaning.entry → statements_of flats.items ≡ statements_over plain (source.statements_of statements.now)) }
{
    let mut flats = Vec::new(alloc);
    'statements: for statement in statements {
        let flat = statement_over(alloc, meaning, statement)?;
        flats.push(flat)?;
    }
    Ok(flats)
}

/// Puts an item of a `case` over objects behind others, where it has labels.
#[cycle(statement)]
fn push_item(
    alloc: Global,
    meaning: Meaning<'_, '_>,
    item: &CaseItem,
    size: Option<Size>,
    flats: &mut Vec<FlatItem>,
) -> Result<(), NoMemory>
    requires { HasMeaning meaning (λ (m : PlainMeaning). IsSizedItemText m item.now) }
    ensures { IfOk result (λ _. (plain : PlainMeaning) → IsMeaning plain meaning.entry → (rest : CaseItems) →
        then_items (items_of flats.new.items) rest ≡ then_items (items_of flats.old.items) (item_over plain (option_map size_of size) item.now rest)) }
{
    match item {
        CaseItem::Labelled { labels, statement } => {
            let labels = labels_over(alloc, meaning, labels.as_slice(), size)?;
            let statement = statement_over(alloc, meaning, statement)?;
            flats.push(FlatItem { labels, statement })?;
            Ok(())
        }
        CaseItem::Default { .. } => Ok(()),
    }
}

/// The items of a `case` that have labels, over objects.
#[cycle(statement)]
fn items_over(
    alloc: Global,
    meaning: Meaning<'_, '_>,
    items: &[CaseItem],
    size: Option<Size>,
) -> Result<Vec<FlatItem>, NoMemory>
    requires { HasMeaning meaning (λ (m : PlainMeaning). AreSizedItemTexts m (source.case_items_of items.now)) }
    ensures { IfOk result (λ flats. (plain : PlainMeaning) → IsMeaning plain meaning.entry → items_of flats.items ≡ items_over plain (option_map size_of size) (source.case_items_of items.now)) }
{
    let mut flats = Vec::new(alloc);
    'items: for item in items {
        push_item(alloc, meaning, item, size, &mut flats)?;
    }
    Ok(flats)
}

/// The default of a `case` over objects, a statement that does nothing where it has none.
#[cycle(statement)]
fn default_over(
    alloc: Global,
    meaning: Meaning<'_, '_>,
    items: &[CaseItem],
) -> Result<Box<FlatStmt>, NoMemory>
    requires { HasMeaning meaning (λ (m : PlainMeaning). AreSizedItemTexts m (source.case_items_of items.now)) }
    ensures { IfOk result (λ flat. (plain : PlainMeaning) → IsMeaning plain meaning.entry → statement_of flat.value ≡ default_over plain (source.case_items_of items.now)) }
{
    'items: for item in items {
        match item {
            CaseItem::Labelled { .. } => {}
            CaseItem::Default { statement } => {
                let flat = boxed_over(alloc, meaning, statement)?;
                return Ok(flat);
            }
        }
    }
    Ok(Box::new(alloc, FlatStmt::Null)?)
}
