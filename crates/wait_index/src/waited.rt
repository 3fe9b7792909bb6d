// The objects on which a process may wait, as its text names them.

ghost use Rattle.std.specs.Prelude.{◌≡◌, ◌++◌, map, drop, IfOk};
ghost use Rattle.vf_base.specs.Base.{object_number};
ghost use Rattle.v_design.specs.Plain.{expression_of, expressions_of, statement_of, piece_of, entry_of};
ghost use Rattle.v_design.specs.PlainLemmas.{statements_of, items_of};
ghost use Rattle.v_design.specs.Expressions.{piece_objects};
ghost use Rattle.v_design.specs.Reads.{named_in, named_in_parts};
ghost use Rattle.wait_index.specs.Waits.{entry_objects, waited_objects, all_waited, items_waited};

use v_design::{CaseItem, FlatExpr, FlatStmt, PieceRef, WaitEntry};
use vf_base::{NoMemory, ObjectId};

/// Adds the objects of the pieces of a name.
fn add_pieces(pieces: &[PieceRef], objects: &mut Vec<ObjectId>) -> Result<(), NoMemory>
    ensures { IfOk result (λ _. map object_number objects.new.items ≡ map object_number objects.old.items ++ piece_objects (map piece_of pieces.now)) }
{
    'pieces: for piece in pieces {
        objects.push(piece.object)?;
    }
    Ok(())
}

/// Adds some objects.
fn add_all(more: &[ObjectId], objects: &mut Vec<ObjectId>) -> Result<(), NoMemory>
    ensures { IfOk result (λ _. map object_number objects.new.items ≡ map object_number objects.old.items ++ map object_number more.now) }
{
    objects.extend_from_slice(more)?;
    Ok(())
}

/// Adds the objects of the entries of an event control.
fn add_entries(entries: &[WaitEntry], objects: &mut Vec<ObjectId>) -> Result<(), NoMemory>
    ensures { IfOk result (λ _. map object_number objects.new.items ≡ map object_number objects.old.items ++ entry_objects (map entry_of entries.now)) }
{
    'entries: for entry in entries {
        objects.push(entry.object)?;
    }
    Ok(())
}

/// Adds the objects that an expression names.
#[cycle(named)]
fn add_named(expr: &FlatExpr, objects: &mut Vec<ObjectId>) -> Result<(), NoMemory>
    ensures { IfOk result (λ _. map object_number objects.new.items ≡ map object_number objects.old.items ++ piece_objects (named_in (expression_of expr.now))) }
{
    match expr {
        FlatExpr::Constant { .. } => Ok(()),
        FlatExpr::Name { vector, .. } => {
            add_pieces(vector.pieces.as_slice(), objects)?;
            Ok(())
        }
        FlatExpr::BitSelect { vector, index, .. } => {
            add_pieces(vector.pieces.as_slice(), objects)?;
            add_named(index, objects)?;
            Ok(())
        }
        FlatExpr::PartSelect { vector, .. } => {
            add_pieces(vector.pieces.as_slice(), objects)?;
            Ok(())
        }
        FlatExpr::WordSelect { memory, index, .. } => {
            add_named(index, objects)?;
            add_all(memory.words.as_slice(), objects)?;
            Ok(())
        }
        FlatExpr::Unary { operand, .. } => {
            add_named(operand, objects)?;
            Ok(())
        }
        FlatExpr::Binary { left, right, .. } => {
            add_named(left, objects)?;
            add_named(right, objects)?;
            Ok(())
        }
        FlatExpr::Conditional {
            condition,
            first,
            second,
            ..
        } => {
            add_named(condition, objects)?;
            add_named(first, objects)?;
            add_named(second, objects)?;
            Ok(())
        }
        FlatExpr::Concatenation { parts, .. } => {
            add_named_parts(parts, objects)?;
            Ok(())
        }
        FlatExpr::Replication { parts, .. } => {
            add_named_parts(parts, objects)?;
            Ok(())
        }
    }
}

/// Adds the objects that several expressions name.
#[cycle(named)]
fn add_named_parts(parts: &[FlatExpr], objects: &mut Vec<ObjectId>) -> Result<(), NoMemory>
    ensures { IfOk result (λ _. map object_number objects.new.items ≡ map object_number objects.old.items ++ piece_objects (named_in_parts (expressions_of parts.now))) }
{
    'parts: for part in parts {
        add_named(part, objects)?;
    }
    Ok(())
}

/// Adds the objects on which a statement may wait.
#[cycle(waited)]
pub(crate) fn add_statement(
    statement: &FlatStmt,
    objects: &mut Vec<ObjectId>,
) -> Result<(), NoMemory>
    ensures { IfOk result (λ _. map object_number objects.new.items ≡ map object_number objects.old.items ++ waited_objects (statement_of statement.now)) }
{
    match statement {
        FlatStmt::Null => Ok(()),
        FlatStmt::Block { statements, .. } => {
            add_statements(statements, objects)?;
            Ok(())
        }
        FlatStmt::If { first, second, .. } => {
            add_statement(first, objects)?;
            add_statement(second, objects)?;
            Ok(())
        }
        FlatStmt::Case { items, default, .. } => {
            add_items(items, objects)?;
            add_statement(default, objects)?;
            Ok(())
        }
        FlatStmt::For { body, .. } => {
            add_statement(body, objects)?;
            Ok(())
        }
        FlatStmt::While { body, .. } => {
            add_statement(body, objects)?;
            Ok(())
        }
        FlatStmt::Repeat { body, .. } => {
            add_statement(body, objects)?;
            Ok(())
        }
        FlatStmt::Forever { body, .. } => {
            add_statement(body, objects)?;
            Ok(())
        }
        FlatStmt::Delay { body, .. } => {
            add_statement(body, objects)?;
            Ok(())
        }
        FlatStmt::EventControl { entries, body, .. } => {
            add_entries(entries.as_slice(), objects)?;
            add_statement(body, objects)?;
            Ok(())
        }
        FlatStmt::Wait {
            condition,
            body,
            ..
        } => {
            add_named(condition, objects)?;
            add_statement(body, objects)?;
            Ok(())
        }
        FlatStmt::Blocking { .. } => Ok(()),
        FlatStmt::Nonblocking { .. } => Ok(()),
        FlatStmt::Finish { .. } => Ok(()),
    }
}

/// Adds the objects on which several statements may wait.
#[cycle(waited)]
fn add_statements(statements: &[FlatStmt], objects: &mut Vec<ObjectId>) -> Result<(), NoMemory>
    ensures { IfOk result (λ _. map object_number objects.new.items ≡ map object_number objects.old.items ++ all_waited (statements_of statements.now)) }
{
    'statements: for statement in statements {
        add_statement(statement, objects)?;
    }
    Ok(())
}

/// Adds the objects on which the items of a case may wait.
#[cycle(waited)]
fn add_items(items: &[CaseItem], objects: &mut Vec<ObjectId>) -> Result<(), NoMemory>
    ensures { IfOk result (λ _. map object_number objects.new.items ≡ map object_number objects.old.items ++ items_waited (items_of items.now)) }
{
    'items: for item in items {
        add_statement(&item.statement, objects)?;
    }
    Ok(())
}
