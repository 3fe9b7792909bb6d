// The objects that a statement reads.

ghost use Rattle.std.specs.Prelude.{◌≡◌, ℕ, Bool, ◌++◌, OnOk, map};
ghost use Rattle.vf_base.specs.Base.{object_number};
ghost use Rattle.v_design.specs.Plain.{expression_of, expressions_of, target_of, statement_of};
ghost use Rattle.v_design.specs.PlainLemmas.{statements_of, items_of};
ghost use Rattle.v_design.specs.Expressions.{objects_of, parts_objects};
ghost use Rattle.v_design.specs.Reads.{index_objects, indexes_objects, read_objects, all_read, items_read};
ghost use Rattle.v_design.specs.Sized.{IsSizedTarget, IsSizedAssignment, IsSizedStatement, AreSizedStatements, AreSizedItems};
ghost use Rattle.vf_base.specs.Lists.{AllHold};
ghost use Rattle.object_reads.specs.SizedReads.{AreSized};

use crate::expression::push_reads;
use std::alloc::Global;
use v_design::{CaseItem, FlatExpr, FlatStmt, FlatTarget};
use vf_base::{NoMemory, ObjectId};

/// Adds the objects that some expressions read, each sized by itself.
///
/// # Errors
///
/// Want of memory.
pub fn push_all_reads(
    alloc: Global,
    exprs: &[FlatExpr],
    objects: &mut Vec<ObjectId>,
) -> Result<(), NoMemory>
    requires { AreSized (expressions_of exprs.now) }
    ensures { OnOk result (map object_number objects.new.items ≡ map object_number objects.old.items ++ parts_objects (expressions_of exprs.now)) }
{
    'exprs: for expr in exprs {
        push_reads(alloc, expr, objects)?;
    }
    Ok(())
}

/// Adds the objects that the index of a target reads.
fn push_index_reads(
    alloc: Global,
    target: &FlatTarget,
    objects: &mut Vec<ObjectId>,
) -> Result<(), NoMemory>
    requires { IsSizedTarget (target_of target.now) }
    ensures { OnOk result (map object_number objects.new.items ≡ map object_number objects.old.items ++ index_objects (target_of target.now)) }
{
    match target {
        FlatTarget::Whole(_) | FlatTarget::Part(_, _, _) => Ok(()),
        FlatTarget::Bit(_, index) | FlatTarget::Word(_, index) => {
            push_reads(alloc, index, objects)?;
            Ok(())
        }
    }
}

/// Adds the objects that the indexes of some targets read.
fn push_indexes_reads(
    alloc: Global,
    targets: &[FlatTarget],
    objects: &mut Vec<ObjectId>,
) -> Result<(), NoMemory>
    requires { AllHold IsSizedTarget (map target_of targets.now) }
    ensures { OnOk result (map object_number objects.new.items ≡ map object_number objects.old.items ++ indexes_objects (map target_of targets.now)) }
{
    'targets: for target in targets {
        push_index_reads(alloc, target, objects)?;
    }
    Ok(())
}

/// Adds the objects that an assignment reads.
fn push_assignment_reads(
    alloc: Global,
    targets: &[FlatTarget],
    value: &FlatExpr,
    objects: &mut Vec<ObjectId>,
) -> Result<(), NoMemory>
    requires { IsSizedAssignment (map target_of targets.now) (expression_of value.now) }
    ensures { OnOk result (map object_number objects.new.items ≡ map object_number objects.old.items ++ (indexes_objects (map target_of targets.now) ++ objects_of (expression_of value.now))) }
{
    push_indexes_reads(alloc, targets, objects)?;
    push_reads(alloc, value, objects)?;
    Ok(())
}

/// Adds the objects that a sized statement reads, in the order of the text, a case's default last. One that is read nowhere but in the condition of a wait
/// or in an event control isn't among them.
///
/// # Errors
///
/// Want of memory.
#[cycle(statements)]
pub fn push_statement_reads(
    alloc: Global,
    statement: &FlatStmt,
    objects: &mut Vec<ObjectId>,
) -> Result<(), NoMemory>
    requires { IsSizedStatement (statement_of statement.now) }
    ensures { OnOk result (map object_number objects.new.items ≡ map object_number objects.old.items ++ read_objects (statement_of statement.now)) }
{
    match statement {
        FlatStmt::Null => Ok(()),
        FlatStmt::Finish { .. } => Ok(()),
        FlatStmt::Block { statements, .. } => {
            push_statements_reads(alloc, statements, objects)?;
            Ok(())
        }
        FlatStmt::If {
            condition,
            first,
            second,
            ..
        } => {
            push_reads(alloc, condition, objects)?;
            push_statement_reads(alloc, first, objects)?;
            push_statement_reads(alloc, second, objects)?;
            Ok(())
        }
        FlatStmt::Case {
            value,
            items,
            default,
            ..
        } => {
            push_reads(alloc, value, objects)?;
            push_items_reads(alloc, items, objects)?;
            push_statement_reads(alloc, default, objects)?;
            Ok(())
        }
        FlatStmt::For {
            first_targets,
            first,
            condition,
            next_targets,
            next,
            body,
            ..
        } => {
            push_assignment_reads(alloc, first_targets, first, objects)?;
            push_reads(alloc, condition, objects)?;
            push_assignment_reads(alloc, next_targets, next, objects)?;
            push_statement_reads(alloc, body, objects)?;
            Ok(())
        }
        FlatStmt::While {
            condition,
            body,
            ..
        } => {
            push_reads(alloc, condition, objects)?;
            push_statement_reads(alloc, body, objects)?;
            Ok(())
        }
        FlatStmt::Repeat { count, body, .. } => {
            push_reads(alloc, count, objects)?;
            push_statement_reads(alloc, body, objects)?;
            Ok(())
        }
        FlatStmt::Forever { body, .. } => {
            push_statement_reads(alloc, body, objects)?;
            Ok(())
        }
        FlatStmt::Delay { body, .. } => {
            push_statement_reads(alloc, body, objects)?;
            Ok(())
        }
        FlatStmt::EventControl { body, .. } => {
            push_statement_reads(alloc, body, objects)?;
            Ok(())
        }
        FlatStmt::Wait { body, .. } => {
            push_statement_reads(alloc, body, objects)?;
            Ok(())
        }
        FlatStmt::Blocking { targets, value, .. } => {
            push_assignment_reads(alloc, targets, value, objects)?;
            Ok(())
        }
        FlatStmt::Nonblocking { targets, value, .. } => {
            push_assignment_reads(alloc, targets, value, objects)?;
            Ok(())
        }
    }
}

/// Adds the objects that some statements read.
#[cycle(statements)]
fn push_statements_reads(
    alloc: Global,
    statements: &[FlatStmt],
    objects: &mut Vec<ObjectId>,
) -> Result<(), NoMemory>
    requires { AreSizedStatements (statements_of statements.now) }
    ensures { OnOk result (map object_number objects.new.items ≡ map object_number objects.old.items ++ all_read (statements_of statements.now)) }
{
    'statements: for statement in statements {
        push_statement_reads(alloc, statement, objects)?;
    }
    Ok(())
}

/// Adds the objects that the items of a case read, labels included.
#[cycle(statements)]
fn push_items_reads(
    alloc: Global,
    items: &[CaseItem],
    objects: &mut Vec<ObjectId>,
) -> Result<(), NoMemory>
    requires { (width : ℕ) × (signed : Bool) × AreSizedItems width signed (items_of items.now) }
    ensures { OnOk result (map object_number objects.new.items ≡ map object_number objects.old.items ++ items_read (items_of items.now)) }
{
    'items: for item in items {
        push_all_reads(alloc, &item.labels, objects)?;
        push_statement_reads(alloc, &item.statement, objects)?;
    }
    Ok(())
}
