// Copies of statements.

ghost use Rattle.std.specs.Prelude.{◌≡◌, map, IfOk};
ghost use Rattle.v_tree.specs.Views.{statement_of};
ghost use Rattle.v_tree.specs.CaseParts.{case_part_of};

use crate::select::{copy_assigned, copy_optional, copy_parts, copy_waits};
use std::alloc::Global;
use v_copy::{both, copy_expr};
use v_tree::{CaseItem, Stmt};
use vf_base::{NoMemory, Seq};

/// A statement with the same view.
#[cycle(copy_statement)]
pub fn copy_stmt(alloc: Global, stmt: &Stmt) -> Result<Stmt, NoMemory>
    ensures { IfOk result (λ copy. statement_of copy ≡ statement_of stmt.now) }
{
    match stmt {
        Stmt::Null { place } => Ok(Stmt::Null { place: *place }),
        Stmt::IgnoredTask { place } => Ok(Stmt::IgnoredTask { place: *place }),
        Stmt::Finish { place } => Ok(Stmt::Finish { place: *place }),
        Stmt::Block { place, statements } => {
            let statements = copy_stmts(alloc, statements)?;
            Ok(Stmt::Block {
                place: *place,
                statements,
            })
        }
        Stmt::If {
            place,
            condition,
            first,
            second: None,
        } => {
            let condition = copy_expr(alloc, condition);
            let first = copy_boxed(alloc, first);
            let (condition, first) = both(condition, first)?;
            Ok(Stmt::If {
                place: *place,
                condition,
                first,
                second: None,
            })
        }
        Stmt::If {
            place,
            condition,
            first,
            second: Some(second),
        } => {
            let condition = copy_expr(alloc, condition);
            let first = copy_boxed(alloc, first);
            let second = copy_boxed(alloc, second);
            let (condition, (first, second)) = both(condition, both(first, second))?;
            Ok(Stmt::If {
                place: *place,
                condition,
                first,
                second: Some(second),
            })
        }
        Stmt::Case {
            place,
            kind,
            value,
            items,
        } => {
            let value = copy_expr(alloc, value)?;
            let items = copy_items(alloc, items)?;
            Ok(Stmt::Case {
                place: *place,
                kind: *kind,
                value,
                items,
            })
        }
        Stmt::For {
            place,
            first_target,
            first,
            condition,
            next_target,
            next,
            body,
        } => {
            let start = copy_assigned(alloc, first_target, first);
            let condition = copy_expr(alloc, condition);
            let step = copy_assigned(alloc, next_target, next);
            let body = copy_boxed(alloc, body);
            let ((start, condition), (step, body)) = both(
                both(start, condition),
                both(step, body),
            )?;
            let (first_target, first) = start;
            let (next_target, next) = step;
            Ok(Stmt::For {
                place: *place,
                first_target,
                first,
                condition,
                next_target,
                next,
                body,
            })
        }
        Stmt::Forever { place, body } => {
            let body = copy_boxed(alloc, body)?;
            Ok(Stmt::Forever {
                place: *place,
                body,
            })
        }
        Stmt::Event { place, waits, body } => {
            let waits = copy_waits(alloc, waits);
            let body = copy_boxed(alloc, body);
            let (waits, body) = both(waits, body)?;
            Ok(Stmt::Event {
                place: *place,
                waits,
                body,
            })
        }
        Stmt::While {
            place,
            condition,
            body,
        } => {
            let condition = copy_expr(alloc, condition);
            let body = copy_boxed(alloc, body);
            let (condition, body) = both(condition, body)?;
            Ok(Stmt::While {
                place: *place,
                condition,
                body,
            })
        }
        Stmt::Repeat { place, count, body } => {
            let count = copy_expr(alloc, count);
            let body = copy_boxed(alloc, body);
            let (count, body) = both(count, body)?;
            Ok(Stmt::Repeat {
                place: *place,
                count,
                body,
            })
        }
        Stmt::Wait {
            place,
            condition,
            body,
        } => {
            let condition = copy_expr(alloc, condition);
            let body = copy_boxed(alloc, body);
            let (condition, body) = both(condition, body)?;
            Ok(Stmt::Wait {
                place: *place,
                condition,
                body,
            })
        }
        Stmt::Delay { place, delay, body } => {
            let delay = copy_expr(alloc, delay);
            let body = copy_boxed(alloc, body);
            let (delay, body) = both(delay, body)?;
            Ok(Stmt::Delay {
                place: *place,
                delay,
                body,
            })
        }
        Stmt::Blocking {
            place,
            target,
            delay,
            value,
        } => {
            let assigned = copy_assigned(alloc, target, value);
            let delay = copy_optional(alloc, delay);
            let ((target, value), delay) = both(assigned, delay)?;
            Ok(Stmt::Blocking {
                place: *place,
                target,
                delay,
                value,
            })
        }
        Stmt::Nonblocking {
            place,
            target,
            delay,
            value,
        } => {
            let assigned = copy_assigned(alloc, target, value);
            let delay = copy_optional(alloc, delay);
            let ((target, value), delay) = both(assigned, delay)?;
            Ok(Stmt::Nonblocking {
                place: *place,
                target,
                delay,
                value,
            })
        }
    }
}

/// A box with the same statement.
#[cycle(copy_statement)]
fn copy_boxed(alloc: Global, stmt: &Stmt) -> Result<Box<Stmt>, NoMemory>
    ensures { IfOk result (λ copy. statement_of copy.value ≡ statement_of stmt.now) }
{
    let copy = copy_stmt(alloc, stmt)?;
    Ok(Box::new(alloc, copy)?)
}

/// Statements with the same views.
#[cycle(copy_statement)]
fn copy_stmts(alloc: Global, statements: &[Stmt]) -> Result<Vec<Stmt>, NoMemory>
    ensures { IfOk result (λ copy. map statement_of copy.items ≡ map statement_of statements.now) }
{
    let mut copies = Vec::new(alloc);
    'statements: for stmt in statements {
        let copy = copy_stmt(alloc, stmt)?;
        copies.push(copy)?;
    }
    Ok(copies)
}

/// Items of a case with the same views.
#[cycle(copy_statement)]
fn copy_items(alloc: Global, items: &[CaseItem]) -> Result<Vec<CaseItem>, NoMemory>
    ensures { IfOk result (λ copy. map case_part_of copy.items ≡ map case_part_of items.now) }
{
    let mut copies = Vec::new(alloc);
    'items: for item in items {
        let copy = copy_item(alloc, item)?;
        copies.push(copy)?;
    }
    Ok(copies)
}

/// An item of a case with the same view.
#[cycle(copy_statement)]
fn copy_item(alloc: Global, item: &CaseItem) -> Result<CaseItem, NoMemory>
    ensures { IfOk result (λ copy. case_part_of copy ≡ case_part_of item.now) }
{
    match item {
        CaseItem::Labelled { labels, statement } => {
            let labels = copy_parts(alloc, labels.as_slice());
            let statement = copy_stmt(alloc, statement);
            let (labels, statement) = both(labels, statement)?;
            Ok(CaseItem::Labelled {
                labels: Seq::from_vec(labels),
                statement,
            })
        }
        CaseItem::Default { statement } => {
            let statement = copy_stmt(alloc, statement)?;
            Ok(CaseItem::Default { statement })
        }
    }
}
