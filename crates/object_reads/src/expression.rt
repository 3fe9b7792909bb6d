// The objects that an expression reads.

ghost use Rattle.std.specs.Prelude.{◌≡◌, ◌++◌, OnOk, map};
ghost use Rattle.vf_base.specs.Base.{object_number};
ghost use Rattle.v_design.specs.Plain.{expression_of, piece_of};
ghost use Rattle.v_design.specs.Expressions.{objects_of, piece_objects};
ghost use Rattle.v_design.specs.Sized.{IsSized};

use process_operands::pieces_read;
use std::alloc::Global;
use v_design::{FlatExpr, PieceRef};
use vf_base::{NoMemory, ObjectId};

/// Adds the objects of some pieces.
fn push_objects(pieces: &[PieceRef], objects: &mut Vec<ObjectId>) -> Result<(), NoMemory>
    ensures { OnOk result (map object_number objects.new.items ≡ map object_number objects.old.items ++ piece_objects (map piece_of pieces.now)) }
{
    'pieces: for piece in pieces {
        objects.push(piece.object)?;
    }
    Ok(())
}

/// Adds the objects that an expression reads whose parts have the sizes that they take from each other.
///
/// # Errors
///
/// Want of memory.
pub fn push_reads(
    alloc: Global,
    expr: &FlatExpr,
    objects: &mut Vec<ObjectId>,
) -> Result<(), NoMemory>
    requires { IsSized (expression_of expr.now) }
    ensures { OnOk result (map object_number objects.new.items ≡ map object_number objects.old.items ++ objects_of (expression_of expr.now)) }
{
    let pieces = pieces_read(alloc, expr)?;
    push_objects(&pieces, objects)?;
    Ok(())
}
