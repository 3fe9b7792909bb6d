// Variables as targets.

ghost use Rattle.std.specs.Prelude.{◌≡◌, ◌≤◌, map, IfOk};
ghost use Rattle.vf_base.specs.Base.{object_number};
ghost use Rattle.v_design.specs.Plain as plain;
ghost use Rattle.v_design.specs.Plain.{piece_of, vector_of};
ghost use Rattle.v_design.specs.Sized.{most_bits, pieces_width};
ghost use Rattle.v_names.specs.SizedTrees.{Holders};
ghost use Rattle.v_elab.specs.Statements.{first_object, variable_of};
ghost use Rattle.object_names.specs.Instances.{HoldNames};

use object_names::InstanceNames;
use std::alloc::Global;
use v_design::{PieceRef, VariableRef, VectorRef};
use vf_base::{NoMemory, ObjectId, Text};

/// The object of the least significant bits, number 0 where there is none.
fn first_object(pieces: &[PieceRef]) -> ObjectId
    ensures { object_number result ≡ first_object (map piece_of pieces.now) }
{
    match pieces {
        [] => ObjectId(0),
        [first, ..] => first.object,
    }
}

/// How many bits the pieces of a name have that is no wider than a vector may be.
fn pieces_width(pieces: &[PieceRef]) -> u8
    requires { pieces_width (map piece_of pieces.now) ≤ most_bits }
    ensures { result ≡ pieces_width (map piece_of pieces.now) }
{
    let mut width: u8 = 0;
    'pieces: for piece in pieces {
        width += piece.width;
    }
    width
}

/// A vector as a variable, which one object holds.
fn variable_of(vector: &VectorRef) -> VariableRef
    requires { pieces_width (vector_of vector.now).pieces ≤ most_bits }
    ensures { plain.variable_of result ≡ variable_of (vector_of vector.now) }
{
    let pieces = vector.pieces.as_slice();
    let width = pieces_width(pieces);
    VariableRef {
        object: first_object(pieces),
        width,
        high: vector.high,
        low: vector.low,
    }
}

/// The variable that a name is which is no wider than a vector may be.
pub(crate) fn variable_named(
    alloc: Global,
    names: InstanceNames<'_>,
    name: &Text,
) -> Result<VariableRef, NoMemory>
    requires { (holders : Holders) × HoldNames holders names × (pieces_width (holders.vector name.now).pieces ≤ most_bits) }
    ensures { IfOk result (λ v. (holders : Holders) → HoldNames holders names.entry → plain.variable_of v ≡ variable_of (holders.vector name.now)) }
{
    let vector = names.vector(alloc, name)?;
    let variable = variable_of(&vector);
    Ok(variable)
}
