// The names that stand in expressions and statements, in text order.

ghost use Rattle.std.specs.Prelude.{◌≡◌, ◌++◌, OnOk, flat_map, map};
ghost use Rattle.v_tree.specs.Views.{select_of, target_of};
ghost use Rattle.v_tree.specs.Trees.{selects_of};
ghost use Rattle.v_comb.specs.CombinationalForm.{target_index_names};
ghost use Rattle.v_comb.specs.Occurrences.{listed, names_of_expr, target_names_of, index_names_of_select, select_name};
ghost use Rattle.v_comb.specs.Occurrences.{assigned_names_of, assigned_names_of_item, names_read_of, names_read_of_item, label_names_of_item};

use std::slice::from_ref;
use v_tree::{CaseItem, Expr, Index, Select, Stmt, Target};
use vf_base::NoMemory;

/// Adds the names in an expression.
#[cycle(push_names)]
pub fn push_names<'t>(expr: &'t Expr, names: &mut Vec<&'t [u8]>) -> Result<(), NoMemory>
    ensures { OnOk result (listed names.new.items ≡ listed names.old.items ++ names_of_expr expr.now) }
{
    match expr {
        Expr::Number { .. } => Ok(()),
        Expr::Name { name, .. } => {
            names.push(name.as_bytes())?;
            Ok(())
        }
        Expr::BitSelect { name, index, .. } => {
            names.push(name.as_bytes())?;
            push_names(index, names)?;
            Ok(())
        }
        Expr::PartSelect { name, from, to, .. } => {
            names.push(name.as_bytes())?;
            push_names(from, names)?;
            push_names(to, names)?;
            Ok(())
        }
        Expr::Paren { inner, .. } => {
            push_names(inner, names)?;
            Ok(())
        }
        Expr::Unary { operand, .. } => {
            push_names(operand, names)?;
            Ok(())
        }
        Expr::Binary { left, right, .. } => {
            push_names(left, names)?;
            push_names(right, names)?;
            Ok(())
        }
        Expr::Conditional {
            condition,
            first,
            second,
            ..
        } => {
            push_names(condition, names)?;
            push_names(first, names)?;
            push_names(second, names)?;
            Ok(())
        }
        Expr::Concat { parts, .. } => {
            push_part_names(parts, names)?;
            Ok(())
        }
        Expr::Repeat { count, parts, .. } => {
            push_names(count, names)?;
            push_part_names(parts, names)?;
            Ok(())
        }
    }
}

/// Adds the names in some expressions.
#[cycle(push_names)]
pub fn push_part_names<'t>(parts: &'t [Expr], names: &mut Vec<&'t [u8]>) -> Result<(), NoMemory>
    ensures { OnOk result (listed names.new.items ≡ listed names.old.items ++ flat_map names_of_expr parts.now) }
{
    'parts: for part in parts {
        push_names(part, names)?;
    }
    Ok(())
}

/// Adds the names in the brackets of a select.
pub fn push_index_names<'t>(select: &'t Select, names: &mut Vec<&'t [u8]>) -> Result<(), NoMemory>
    ensures { OnOk result (listed names.new.items ≡ listed names.old.items ++ index_names_of_select select.now) }
{
    match &select.index {
        Index::Whole => Ok(()),
        Index::Bit(index) => {
            push_names(index, names)?;
            Ok(())
        }
        Index::Part(from, to) => {
            push_names(from, names)?;
            push_names(to, names)?;
            Ok(())
        }
    }
}

/// The selects of a target, from the left.
pub fn selects(target: &Target) -> &[Select]
    ensures { map select_of result.now ≡ selects_of (target_of target.now) }
{
    match target {
        Target::One(select) => from_ref(select),
        Target::Joined(_, selects) => selects.as_slice(),
    }
}

/// Adds the names in the brackets of some selects.
pub fn push_index_names_of<'t>(
    selects: &'t [Select],
    names: &mut Vec<&'t [u8]>,
) -> Result<(), NoMemory>
    ensures { OnOk result (listed names.new.items ≡ listed names.old.items ++ flat_map index_names_of_select selects.now) }
{
    'selects: for select in selects {
        push_index_names(select, names)?;
    }
    Ok(())
}

/// Adds the names of some selects.
fn push_select_names<'t>(selects: &'t [Select], names: &mut Vec<&'t [u8]>) -> Result<(), NoMemory>
    ensures { OnOk result (listed names.new.items ≡ listed names.old.items ++ flat_map select_name selects.now) }
{
    'selects: for select in selects {
        names.push(select.name.as_bytes())?;
    }
    Ok(())
}

/// Adds the names that a target assigns.
pub fn push_target_names<'t>(target: &'t Target, names: &mut Vec<&'t [u8]>) -> Result<(), NoMemory>
    ensures { OnOk result (listed names.new.items ≡ listed names.old.items ++ target_names_of target.now) }
{
    push_select_names(selects(target), names)?;
    Ok(())
}

/// Adds the names in the brackets of a target.
pub fn push_target_index_names<'t>(
    target: &'t Target,
    names: &mut Vec<&'t [u8]>,
) -> Result<(), NoMemory>
    ensures { OnOk result (listed names.new.items ≡ listed names.old.items ++ target_index_names (target_of target.now)) }
{
    push_index_names_of(selects(target), names)?;
    Ok(())
}

/// Adds the names that a statement assigns.
#[cycle(push_assigned)]
pub fn push_assigned<'t>(stmt: &'t Stmt, names: &mut Vec<&'t [u8]>) -> Result<(), NoMemory>
    ensures { OnOk result (listed names.new.items ≡ listed names.old.items ++ assigned_names_of stmt.now) }
{
    match stmt {
        Stmt::Null { .. } | Stmt::IgnoredTask { .. } | Stmt::Finish { .. } => Ok(()),
        Stmt::Block { statements, .. } => {
            push_all_assigned(statements, names)?;
            Ok(())
        }
        Stmt::If { first, second, .. } => {
            push_assigned(first, names)?;
            match second {
                None => Ok(()),
                Some(second) => {
                    push_assigned(second, names)?;
                    Ok(())
                }
            }
        }
        Stmt::Case { items, .. } => {
            push_items_assigned(items, names)?;
            Ok(())
        }
        Stmt::For {
            first_target,
            next_target,
            body,
            ..
        } => {
            push_target_names(first_target, names)?;
            push_target_names(next_target, names)?;
            push_assigned(body, names)?;
            Ok(())
        }
        Stmt::While { body, .. } => {
            push_assigned(body, names)?;
            Ok(())
        }
        Stmt::Repeat { body, .. } => {
            push_assigned(body, names)?;
            Ok(())
        }
        Stmt::Forever { body, .. } => {
            push_assigned(body, names)?;
            Ok(())
        }
        Stmt::Wait { body, .. } => {
            push_assigned(body, names)?;
            Ok(())
        }
        Stmt::Event { body, .. } => {
            push_assigned(body, names)?;
            Ok(())
        }
        Stmt::Delay { body, .. } => {
            push_assigned(body, names)?;
            Ok(())
        }
        Stmt::Blocking { target, .. } => {
            push_target_names(target, names)?;
            Ok(())
        }
        Stmt::Nonblocking { target, .. } => {
            push_target_names(target, names)?;
            Ok(())
        }
    }
}

/// Adds the names that some statements assign.
#[cycle(push_assigned)]
fn push_all_assigned<'t>(statements: &'t [Stmt], names: &mut Vec<&'t [u8]>) -> Result<(), NoMemory>
    ensures { OnOk result (listed names.new.items ≡ listed names.old.items ++ flat_map assigned_names_of statements.now) }
{
    'statements: for stmt in statements {
        push_assigned(stmt, names)?;
    }
    Ok(())
}

/// Adds the names that the items of a case assign.
#[cycle(push_assigned)]
fn push_items_assigned<'t>(items: &'t [CaseItem], names: &mut Vec<&'t [u8]>) -> Result<(), NoMemory>
    ensures { OnOk result (listed names.new.items ≡ listed names.old.items ++ flat_map assigned_names_of_item items.now) }
{
    'items: for item in items {
        push_item_assigned(item, names)?;
    }
    Ok(())
}

/// Adds the names that an item of a case assigns.
#[cycle(push_assigned)]
fn push_item_assigned<'t>(item: &'t CaseItem, names: &mut Vec<&'t [u8]>) -> Result<(), NoMemory>
    ensures { OnOk result (listed names.new.items ≡ listed names.old.items ++ assigned_names_of_item item.now) }
{
    match item {
        CaseItem::Labelled { statement, .. } => {
            push_assigned(statement, names)?;
            Ok(())
        }
        CaseItem::Default { statement } => {
            push_assigned(statement, names)?;
            Ok(())
        }
    }
}

/// Adds the names that a statement of combinational form reads.
#[cycle(push_reads)]
pub fn push_reads<'t>(stmt: &'t Stmt, names: &mut Vec<&'t [u8]>) -> Result<(), NoMemory>
    ensures { OnOk result (listed names.new.items ≡ listed names.old.items ++ names_read_of stmt.now) }
{
    match stmt {
        Stmt::Block { statements, .. } => {
            push_all_reads(statements, names)?;
            Ok(())
        }
        Stmt::If {
            condition,
            first,
            second,
            ..
        } => {
            push_names(condition, names)?;
            push_reads(first, names)?;
            match second {
                None => Ok(()),
                Some(second) => {
                    push_reads(second, names)?;
                    Ok(())
                }
            }
        }
        Stmt::Case { value, items, .. } => {
            push_names(value, names)?;
            push_items_reads(items, names)?;
            Ok(())
        }
        Stmt::Blocking { target, value, .. } => {
            push_target_index_names(target, names)?;
            push_names(value, names)?;
            Ok(())
        }
        _ => Ok(()),
    }
}

/// Adds the names that some statements read.
#[cycle(push_reads)]
fn push_all_reads<'t>(statements: &'t [Stmt], names: &mut Vec<&'t [u8]>) -> Result<(), NoMemory>
    ensures { OnOk result (listed names.new.items ≡ listed names.old.items ++ flat_map names_read_of statements.now) }
{
    'statements: for stmt in statements {
        push_reads(stmt, names)?;
    }
    Ok(())
}

/// Adds the names that the items of a case read.
#[cycle(push_reads)]
fn push_items_reads<'t>(items: &'t [CaseItem], names: &mut Vec<&'t [u8]>) -> Result<(), NoMemory>
    ensures { OnOk result (listed names.new.items ≡ listed names.old.items ++ flat_map names_read_of_item items.now) }
{
    'items: for item in items {
        push_item_reads(item, names)?;
    }
    Ok(())
}

/// Adds the names that an item of a case reads.
#[cycle(push_reads)]
fn push_item_reads<'t>(item: &'t CaseItem, names: &mut Vec<&'t [u8]>) -> Result<(), NoMemory>
    ensures { OnOk result (listed names.new.items ≡ listed names.old.items ++ names_read_of_item item.now) }
{
    match item {
        CaseItem::Labelled { labels, statement } => {
            push_part_names(labels.as_slice(), names)?;
            push_reads(statement, names)?;
            Ok(())
        }
        CaseItem::Default { statement } => {
            push_reads(statement, names)?;
            Ok(())
        }
    }
}

/// Adds the names in the labels of a case.
pub fn push_labels<'t>(items: &'t [CaseItem], names: &mut Vec<&'t [u8]>) -> Result<(), NoMemory>
    ensures { OnOk result (listed names.new.items ≡ listed names.old.items ++ flat_map label_names_of_item items.now) }
{
    'items: for item in items {
        push_item_labels(item, names)?;
    }
    Ok(())
}

/// Adds the names in the labels of an item of a case.
fn push_item_labels<'t>(item: &'t CaseItem, names: &mut Vec<&'t [u8]>) -> Result<(), NoMemory>
    ensures { OnOk result (listed names.new.items ≡ listed names.old.items ++ label_names_of_item item.now) }
{
    match item {
        CaseItem::Labelled { labels, .. } => {
            push_part_names(labels.as_slice(), names)?;
            Ok(())
        }
        CaseItem::Default { .. } => Ok(()),
    }
}
