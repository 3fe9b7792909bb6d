// The objects that an expression reads, in the order of the text.

ghost use Rattle.std.specs.Prelude.{◌≡◌, ◌++◌, IfOk, map};
ghost use Rattle.vf_base.specs.Base.{object_number};
ghost use Rattle.v_design.specs.Plain.{expression_of, expressions_of, target_of, piece_of};
ghost use Rattle.v_design.specs.Expressions.{piece_objects, objects_of};
ghost use Rattle.v_design.specs.Sized.{IsSized, AreSizedAlone, IsSizedTarget};
ghost use Rattle.v_elab.specs.Statements.{objects_in_text, part_objects_in_text, index_objects_in_text};

use process_operands::{names_nothing, pieces_read};
use std::alloc::Global;
use v_design::{FlatExpr, FlatTarget, PieceRef};
use vf_base::{NoMemory, ObjectId};

/// Adds the objects of some pieces.
fn add_pieces(pieces: &[PieceRef], objects: &mut Vec<ObjectId>) -> Result<(), NoMemory>
    ensures { IfOk result (λ _. map object_number objects.new.items ≡ map object_number objects.old.items ++ piece_objects (map piece_of pieces.now)) }
{
    'pieces: for piece in pieces {
        objects.push(piece.object)?;
    }
    Ok(())
}

/// Adds some objects.
fn add_all(more: &[ObjectId], objects: &mut Vec<ObjectId>) -> Result<(), NoMemory>
    ensures { IfOk result (λ _. map object_number objects.new.items ≡ map object_number objects.old.items ++ map object_number more.now) }
{
    'objects: for object in more {
        objects.push(*object)?;
    }
    Ok(())
}

/// Adds the objects of the pieces that an expression reads where it has no memory.
fn add_read(alloc: Global, expr: &FlatExpr, objects: &mut Vec<ObjectId>) -> Result<(), NoMemory>
    requires { IsSized (expression_of expr.now) }
    ensures { IfOk result (λ _. map object_number objects.new.items ≡ map object_number objects.old.items ++ objects_of (expression_of expr.now)) }
{
    let pieces = pieces_read(alloc, expr)?;
    add_pieces(&pieces, objects)?;
    Ok(())
}

/// Adds the objects that an expression reads, in the order of the text: a memory stands before its index.
///
/// # Errors
///
/// Want of memory.
#[cycle(reads)]
pub fn add_objects(
    alloc: Global,
    expr: &FlatExpr,
    objects: &mut Vec<ObjectId>,
) -> Result<(), NoMemory>
    requires { IsSized (expression_of expr.now) }
    ensures { IfOk result (λ _. map object_number objects.new.items ≡ map object_number objects.old.items ++ objects_in_text (expression_of expr.now)) }
{
    match expr {
        FlatExpr::Constant { .. } => Ok(()),
        FlatExpr::Name { vector, .. } => {
            add_pieces(vector.pieces.as_slice(), objects)?;
            Ok(())
        }
        FlatExpr::PartSelect { .. } => {
            add_read(alloc, expr, objects)?;
            Ok(())
        }
        FlatExpr::BitSelect { vector, index, .. } => {
            if names_nothing(index) {
                add_read(alloc, expr, objects)?;
                Ok(())
            } else {
                add_pieces(vector.pieces.as_slice(), objects)?;
                add_objects(alloc, index, objects)?;
                Ok(())
            }
        }
        FlatExpr::WordSelect { memory, index, .. } => {
            add_all(memory.words.as_slice(), objects)?;
            add_objects(alloc, index, objects)?;
            Ok(())
        }
        FlatExpr::Unary { operand, .. } => {
            add_objects(alloc, operand, objects)?;
            Ok(())
        }
        FlatExpr::Binary { left, right, .. } => {
            add_objects(alloc, left, objects)?;
            add_objects(alloc, right, objects)?;
            Ok(())
        }
        FlatExpr::Conditional {
            condition,
            first,
            second,
            ..
        } => {
            add_objects(alloc, condition, objects)?;
            add_objects(alloc, first, objects)?;
            add_objects(alloc, second, objects)?;
            Ok(())
        }
        FlatExpr::Concatenation { parts, .. } => {
            add_parts(alloc, parts, objects)?;
            Ok(())
        }
        FlatExpr::Replication { parts, .. } => {
            add_parts(alloc, parts, objects)?;
            Ok(())
        }
    }
}

/// Adds the objects that the parts of an expression read.
#[cycle(reads)]
fn add_parts(alloc: Global, parts: &[FlatExpr], objects: &mut Vec<ObjectId>) -> Result<(), NoMemory>
    requires { AreSizedAlone (expressions_of parts.now) }
    ensures { IfOk result (λ _. map object_number objects.new.items ≡ map object_number objects.old.items ++ part_objects_in_text (expressions_of parts.now)) }
{
    'parts: for part in parts {
        add_objects(alloc, part, objects)?;
    }
    Ok(())
}

/// Adds the objects that the index of a target reads.
///
/// # Errors
///
/// Want of memory.
pub fn add_index_objects(
    alloc: Global,
    target: &FlatTarget,
    objects: &mut Vec<ObjectId>,
) -> Result<(), NoMemory>
    requires { IsSizedTarget (target_of target.now) }
    ensures { IfOk result (λ _. map object_number objects.new.items ≡ map object_number objects.old.items ++ index_objects_in_text (target_of target.now)) }
{
    match target {
        FlatTarget::Whole(_) | FlatTarget::Part(_, _, _) => Ok(()),
        FlatTarget::Bit(_, index) | FlatTarget::Word(_, index) => {
            add_objects(alloc, index, objects)?;
            Ok(())
        }
    }
}
