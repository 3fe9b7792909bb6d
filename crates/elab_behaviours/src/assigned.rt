// The names that a statement assigns, each with its place, in text order.

ghost use Rattle.std.specs.Prelude.{◌≡◌, ◌++◌, OnOk, flat_map, map};
ghost use Rattle.elab_behaviours.specs.Assignments.{assignments_listed, select_assigned, target_assigned, statement_assigned, item_assigned};

use key_index::Keyed;
use std::slice::from_ref;
use v_tree::{CaseItem, Select, Stmt, Target};
use vf_base::{NoMemory, Place};

/// Adds the names of some selects.
fn push_selects<'t>(
    selects: &'t [Select],
    names: &mut Vec<Keyed<'t, Place>>,
) -> Result<(), NoMemory>
    ensures { OnOk result (assignments_listed names.new.items ≡ assignments_listed names.old.items ++ map select_assigned selects.now) }
{
    'selects: for select in selects {
        names.push(Keyed {
            key: select.name.as_bytes(),
            item: select.place,
        })?;
    }
    Ok(())
}

/// Adds the names that a target assigns.
fn push_target<'t>(target: &'t Target, names: &mut Vec<Keyed<'t, Place>>) -> Result<(), NoMemory>
    ensures { OnOk result (assignments_listed names.new.items ≡ assignments_listed names.old.items ++ target_assigned target.now) }
{
    match target {
        Target::One(select) => {
            push_selects(from_ref(select), names)?;
            Ok(())
        }
        Target::Joined(_, selects) => {
            push_selects(selects.as_slice(), names)?;
            Ok(())
        }
    }
}

/// Adds the names that a statement assigns.
#[cycle(push_assignments)]
pub fn push_assignments<'t>(
    stmt: &'t Stmt,
    names: &mut Vec<Keyed<'t, Place>>,
) -> Result<(), NoMemory>
    ensures { OnOk result (assignments_listed names.new.items ≡ assignments_listed names.old.items ++ statement_assigned stmt.now) }
{
    match stmt {
        Stmt::Null { .. } | Stmt::IgnoredTask { .. } | Stmt::Finish { .. } => Ok(()),
        Stmt::Block { statements, .. } => {
            push_all(statements, names)?;
            Ok(())
        }
        Stmt::If { first, second, .. } => {
            push_assignments(first, names)?;
            match second {
                None => Ok(()),
                Some(second) => {
                    push_assignments(second, names)?;
                    Ok(())
                }
            }
        }
        Stmt::Case { items, .. } => {
            push_items(items, names)?;
            Ok(())
        }
        Stmt::For {
            first_target,
            next_target,
            body,
            ..
        } => {
            push_target(first_target, names)?;
            push_target(next_target, names)?;
            push_assignments(body, names)?;
            Ok(())
        }
        Stmt::While { body, .. } => {
            push_assignments(body, names)?;
            Ok(())
        }
        Stmt::Repeat { body, .. } => {
            push_assignments(body, names)?;
            Ok(())
        }
        Stmt::Forever { body, .. } => {
            push_assignments(body, names)?;
            Ok(())
        }
        Stmt::Wait { body, .. } => {
            push_assignments(body, names)?;
            Ok(())
        }
        Stmt::Event { body, .. } => {
            push_assignments(body, names)?;
            Ok(())
        }
        Stmt::Delay { body, .. } => {
            push_assignments(body, names)?;
            Ok(())
        }
        Stmt::Blocking { target, .. } => {
            push_target(target, names)?;
            Ok(())
        }
        Stmt::Nonblocking { target, .. } => {
            push_target(target, names)?;
            Ok(())
        }
    }
}

/// Adds the names that some statements assign.
#[cycle(push_assignments)]
fn push_all<'t>(statements: &'t [Stmt], names: &mut Vec<Keyed<'t, Place>>) -> Result<(), NoMemory>
    ensures { OnOk result (assignments_listed names.new.items ≡ assignments_listed names.old.items ++ flat_map statement_assigned statements.now) }
{
    'statements: for stmt in statements {
        push_assignments(stmt, names)?;
    }
    Ok(())
}

/// Adds the names that the items of a case assign.
#[cycle(push_assignments)]
fn push_items<'t>(items: &'t [CaseItem], names: &mut Vec<Keyed<'t, Place>>) -> Result<(), NoMemory>
    ensures { OnOk result (assignments_listed names.new.items ≡ assignments_listed names.old.items ++ flat_map item_assigned items.now) }
{
    'items: for item in items {
        push_item(item, names)?;
    }
    Ok(())
}

/// Adds the names that an item of a case assigns.
#[cycle(push_assignments)]
fn push_item<'t>(item: &'t CaseItem, names: &mut Vec<Keyed<'t, Place>>) -> Result<(), NoMemory>
    ensures { OnOk result (assignments_listed names.new.items ≡ assignments_listed names.old.items ++ item_assigned item.now) }
{
    match item {
        CaseItem::Labelled { statement, .. } => {
            push_assignments(statement, names)?;
            Ok(())
        }
        CaseItem::Default { statement } => {
            push_assignments(statement, names)?;
            Ok(())
        }
    }
}
