// What is wrong with the sizes and the kinds of names of statements.

ghost use Rattle.std.specs.Prelude.{◌≡◌, ◌++◌, OnOk};
ghost use Rattle.v_tree.specs.Views.{expression_of, expression_in, target_of, statement_of, statements_of, case_items_of};
ghost use Rattle.v_names.specs.Constants.{optional_faults};
ghost use Rattle.v_width.specs.Targets.{ByProcess};
ghost use Rattle.v_elab.specs.ItemFaults.{size_faults, assigned_faults, statement_faults, statements_faults, items_faults};
ghost use Rattle.name_checks.specs.Noted.{noted};
ghost use Rattle.item_checks.specs.CodeFaults.{case_item_faults};

use crate::assigned::note_assigned;
use crate::cases::note_case;
use crate::sizes::{note_optional_size, note_size};
use crate::waits::{note_wait, note_waits};
use expr_sizes::Writer;
use name_checks::FirstFault;
use std::alloc::Global;
use v_names::Scope;
use v_tree::{CaseItem, Expr, Stmt, Target};
use vf_base::NoMemory;

/// Notes what is wrong with an assignment of a process and its delay.
fn note_process_assignment(
    alloc: Global,
    scope: &Scope<'_>,
    target: &Target,
    delay: &Option<Expr>,
    value: &Expr,
    first: &mut FirstFault,
) -> Result<(), NoMemory>
    ensures { OnOk result (first.new ≡ noted first.old (assigned_faults ByProcess scope.now (target_of target.now)
        (expression_of value.now) ++ optional_faults (size_faults scope.now) (expression_in delay.now))) }
{
    note_assigned(alloc, Writer::Process, scope, target, value, first)?;
    note_optional_size(alloc, scope, delay, first)?;
    Ok(())
}

/// Notes what is wrong with a statement.
#[cycle(statement)]
pub fn note_statement(
    alloc: Global,
    scope: &Scope<'_>,
    stmt: &Stmt,
    first: &mut FirstFault,
) -> Result<(), NoMemory>
    ensures { OnOk result (first.new ≡ noted first.old (statement_faults scope.now (statement_of stmt.now))) }
{
    match stmt {
        Stmt::Null { .. } | Stmt::IgnoredTask { .. } | Stmt::Finish { .. } => Ok(()),
        Stmt::Block { statements, .. } => {
            note_statements(alloc, scope, statements, first)?;
            Ok(())
        }
        Stmt::If {
            condition,
            first: one,
            second,
            ..
        } => {
            note_size(alloc, scope, condition, first)?;
            note_statement(alloc, scope, one, first)?;
            match second {
                None => Ok(()),
                Some(second) => {
                    note_statement(alloc, scope, second, first)?;
                    Ok(())
                }
            }
        }
        Stmt::Case { value, items, .. } => {
            note_case(alloc, scope, value, items, first)?;
            note_case_items(alloc, scope, items, first)?;
            Ok(())
        }
        Stmt::For {
            first_target,
            first: start,
            condition,
            next_target,
            next,
            body,
            ..
        } => {
            note_assigned(alloc, Writer::Process, scope, first_target, start, first)?;
            note_size(alloc, scope, condition, first)?;
            note_assigned(alloc, Writer::Process, scope, next_target, next, first)?;
            note_statement(alloc, scope, body, first)?;
            Ok(())
        }
        Stmt::While {
            condition,
            body,
            ..
        } => {
            note_size(alloc, scope, condition, first)?;
            note_statement(alloc, scope, body, first)?;
            Ok(())
        }
        Stmt::Repeat { count, body, .. } => {
            note_size(alloc, scope, count, first)?;
            note_statement(alloc, scope, body, first)?;
            Ok(())
        }
        Stmt::Forever { body, .. } => {
            note_statement(alloc, scope, body, first)?;
            Ok(())
        }
        Stmt::Wait {
            condition,
            body,
            ..
        } => {
            note_wait(alloc, scope, condition, first)?;
            note_statement(alloc, scope, body, first)?;
            Ok(())
        }
        Stmt::Event { waits, body, .. } => {
            note_waits(alloc, scope, waits, first)?;
            note_statement(alloc, scope, body, first)?;
            Ok(())
        }
        Stmt::Delay { delay, body, .. } => {
            note_size(alloc, scope, delay, first)?;
            note_statement(alloc, scope, body, first)?;
            Ok(())
        }
        Stmt::Blocking {
            target,
            delay,
            value,
            ..
        } => {
            note_process_assignment(alloc, scope, target, delay, value, first)?;
            Ok(())
        }
        Stmt::Nonblocking {
            target,
            delay,
            value,
            ..
        } => {
            note_process_assignment(alloc, scope, target, delay, value, first)?;
            Ok(())
        }
    }
}

/// Notes what is wrong with some statements.
#[cycle(statement)]
fn note_statements(
    alloc: Global,
    scope: &Scope<'_>,
    statements: &[Stmt],
    first: &mut FirstFault,
) -> Result<(), NoMemory>
    ensures { OnOk result (first.new ≡ noted first.old (statements_faults scope.now (statements_of statements.now))) }
{
    'statements: for stmt in statements {
        note_statement(alloc, scope, stmt, first)?;
    }
    Ok(())
}

/// Notes what is wrong with the statements of the items of a `case`.
#[cycle(statement)]
fn note_case_items(
    alloc: Global,
    scope: &Scope<'_>,
    items: &[CaseItem],
    first: &mut FirstFault,
) -> Result<(), NoMemory>
    ensures { OnOk result (first.new ≡ noted first.old (items_faults scope.now (case_items_of items.now))) }
{
    'items: for item in items {
        note_case_item(alloc, scope, item, first)?;
    }
    Ok(())
}

/// Notes what is wrong with the statement of an item of a `case`.
#[cycle(statement)]
fn note_case_item(
    alloc: Global,
    scope: &Scope<'_>,
    item: &CaseItem,
    first: &mut FirstFault,
) -> Result<(), NoMemory>
    ensures { OnOk result (first.new ≡ noted first.old (case_item_faults scope.now item.now)) }
{
    match item {
        CaseItem::Labelled { statement, .. } => {
            note_statement(alloc, scope, statement, first)?;
            Ok(())
        }
        CaseItem::Default { statement } => {
            note_statement(alloc, scope, statement, first)?;
            Ok(())
        }
    }
}
