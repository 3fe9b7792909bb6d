// What is wrong with the names of statements.

ghost use Rattle.std.specs.Prelude.{◌≡◌, OnOk, ◌++◌, map, flat_map};
ghost use Rattle.v_tree.specs.Views.{expression_of, expression_in, target_of, waits_of, entry_of, statement_of, statements_of, case_items_of};
ghost use Rattle.v_names.specs.Constants.{DelayValue, name_faults, constant_faults, optional_faults, fixed_select_faults};
ghost use Rattle.v_names.specs.Names.{target_faults, entry_faults, statement_name_faults, statements_name_faults, case_name_faults};
ghost use Rattle.name_checks.specs.Noted.{noted};
ghost use Rattle.name_checks.specs.CodeFaults.{case_item_faults};

use crate::constants::{note_constant, note_optional_constant};
use crate::expressions::{note_fixed_select, note_names, note_parts, note_target};
use crate::first_fault::FirstFault;
use std::alloc::Global;
use v_names::{ConstantPlace, Scope};
use v_tree::{CaseItem, Entry, Expr, Stmt, Target, Waits};
use vf_base::NoMemory;

/// Notes what is wrong with the entries of an event control.
fn note_entries(
    alloc: Global,
    scope: &Scope<'_>,
    entries: &[Entry],
    first: &mut FirstFault,
) -> Result<(), NoMemory>
    ensures { OnOk result (first.new ≡ noted first.old (flat_map (λ e. fixed_select_faults scope.now e.select) (map entry_of entries.now))) }
{
    'entries: for entry in entries {
        note_fixed_select(alloc, scope, &entry.select, first)?;
    }
    Ok(())
}

/// Notes what is wrong with an event control.
fn note_waits(
    alloc: Global,
    scope: &Scope<'_>,
    waits: &Waits,
    first: &mut FirstFault,
) -> Result<(), NoMemory>
    ensures { OnOk result (first.new ≡ noted first.old (entry_faults scope.now (waits_of waits.now))) }
{
    match waits {
        Waits::AnyRead => Ok(()),
        Waits::Entries(entries) => {
            note_entries(alloc, scope, entries.as_slice(), first)?;
            Ok(())
        }
    }
}

/// Notes what is wrong with an assignment of a process.
fn note_assignment(
    alloc: Global,
    scope: &Scope<'_>,
    target: &Target,
    delay: &Option<Expr>,
    value: &Expr,
    first: &mut FirstFault,
) -> Result<(), NoMemory>
    ensures { OnOk result (first.new ≡ noted first.old (target_faults scope.now (target_of target.now) ++ (optional_faults
        (constant_faults scope.now DelayValue) (expression_in delay.now) ++ name_faults scope.now (expression_of value.now)))) }
{
    note_target(alloc, scope, target, first)?;
    note_optional_constant(alloc, scope, ConstantPlace::DelayValue, delay, first)?;
    note_names(alloc, scope, value, first)?;
    Ok(())
}

/// Notes what is wrong with the names of a statement.
#[cycle(statement)]
pub fn note_statement(
    alloc: Global,
    scope: &Scope<'_>,
    stmt: &Stmt,
    first: &mut FirstFault,
) -> Result<(), NoMemory>
    ensures { OnOk result (first.new ≡ noted first.old (statement_name_faults scope.now (statement_of stmt.now))) }
{
    match stmt {
        Stmt::Null { .. } | Stmt::IgnoredTask { .. } | Stmt::Finish { .. } => Ok(()),
        Stmt::Block { statements, .. } => {
            note_statements(alloc, scope, statements, first)?;
            Ok(())
        }
        Stmt::If {
            condition,
            first: one,
            second,
            ..
        } => {
            note_names(alloc, scope, condition, first)?;
            note_statement(alloc, scope, one, first)?;
            match second {
                None => Ok(()),
                Some(second) => {
                    note_statement(alloc, scope, second, first)?;
                    Ok(())
                }
            }
        }
        Stmt::Case { value, items, .. } => {
            note_names(alloc, scope, value, first)?;
            note_case_items(alloc, scope, items, first)?;
            Ok(())
        }
        Stmt::For {
            first_target,
            first: start,
            condition,
            next_target,
            next,
            body,
            ..
        } => {
            note_target(alloc, scope, first_target, first)?;
            note_names(alloc, scope, start, first)?;
            note_names(alloc, scope, condition, first)?;
            note_target(alloc, scope, next_target, first)?;
            note_names(alloc, scope, next, first)?;
            note_statement(alloc, scope, body, first)?;
            Ok(())
        }
        Stmt::While {
            condition,
            body,
            ..
        } => {
            note_names(alloc, scope, condition, first)?;
            note_statement(alloc, scope, body, first)?;
            Ok(())
        }
        Stmt::Repeat { count, body, .. } => {
            note_names(alloc, scope, count, first)?;
            note_statement(alloc, scope, body, first)?;
            Ok(())
        }
        Stmt::Forever { body, .. } => {
            note_statement(alloc, scope, body, first)?;
            Ok(())
        }
        Stmt::Wait {
            condition,
            body,
            ..
        } => {
            note_names(alloc, scope, condition, first)?;
            note_statement(alloc, scope, body, first)?;
            Ok(())
        }
        Stmt::Event { waits, body, .. } => {
            note_waits(alloc, scope, waits, first)?;
            note_statement(alloc, scope, body, first)?;
            Ok(())
        }
        Stmt::Delay { delay, body, .. } => {
            note_constant(alloc, scope, ConstantPlace::DelayValue, delay, first)?;
            note_statement(alloc, scope, body, first)?;
            Ok(())
        }
        Stmt::Blocking {
            target,
            delay,
            value,
            ..
        } => {
            note_assignment(alloc, scope, target, delay, value, first)?;
            Ok(())
        }
        Stmt::Nonblocking {
            target,
            delay,
            value,
            ..
        } => {
            note_assignment(alloc, scope, target, delay, value, first)?;
            Ok(())
        }
    }
}

/// Notes what is wrong with the names of some statements.
#[cycle(statement)]
fn note_statements(
    alloc: Global,
    scope: &Scope<'_>,
    statements: &[Stmt],
    first: &mut FirstFault,
) -> Result<(), NoMemory>
    ensures { OnOk result (first.new ≡ noted first.old (statements_name_faults scope.now (statements_of statements.now))) }
{
    'statements: for stmt in statements {
        note_statement(alloc, scope, stmt, first)?;
    }
    Ok(())
}

/// Notes what is wrong with the names of the items of a case.
#[cycle(statement)]
fn note_case_items(
    alloc: Global,
    scope: &Scope<'_>,
    items: &[CaseItem],
    first: &mut FirstFault,
) -> Result<(), NoMemory>
    ensures { OnOk result (first.new ≡ noted first.old (case_name_faults scope.now (case_items_of items.now))) }
{
    'items: for item in items {
        note_case_item(alloc, scope, item, first)?;
    }
    Ok(())
}

/// Notes what is wrong with the names of an item of a case.
#[cycle(statement)]
fn note_case_item(
    alloc: Global,
    scope: &Scope<'_>,
    item: &CaseItem,
    first: &mut FirstFault,
) -> Result<(), NoMemory>
    ensures { OnOk result (first.new ≡ noted first.old (case_item_faults scope.now item.now)) }
{
    match item {
        CaseItem::Labelled { labels, statement } => {
            note_parts(alloc, scope, labels.as_slice(), first)?;
            note_statement(alloc, scope, statement, first)?;
            Ok(())
        }
        CaseItem::Default { statement } => {
            note_statement(alloc, scope, statement, first)?;
            Ok(())
        }
    }
}
