// The pieces that an expression reads.

ghost use Rattle.std.specs.Prelude.{◌≡◌, ◌≤◌, ◌<◌, ◌+◌, ◌++◌, [], ◌∷◌, map, IfOk, Bool, true};
ghost use Rattle.v_design.specs.Plain.{expression_of, expressions_of, piece_of, vector_of, memory_of};
ghost use Rattle.v_design.specs.Assignments.{part_width};
ghost use Rattle.v_design.specs.Sized.{IsSized, AreSizedAlone};
ghost use Rattle.v_design.specs.Expressions.{pieces_read, parts_read, slice_pieces, slices_at, bit_slices, part_places, place_of_number, index_number, no_values, is_constant, memory_pieces};

use crate::constant::names_nothing;
use crate::expression::read_value;
use crate::part::{index_within, stands_within};
use expr_eval::is_signed;
use std::alloc::Global;
use v_design::{FlatExpr, MemoryRef, PieceRef, VectorRef};
use vf_base::NoMemory;

/// The pieces that an expression reads, in text order; a memory stands for all its words.
///
/// # Errors
///
/// Want of memory.
pub fn pieces_read(alloc: Global, expr: &FlatExpr) -> Result<Vec<PieceRef>, NoMemory>
    requires { IsSized (expression_of expr.now) }
    ensures { IfOk result (λ pieces. map piece_of pieces.items ≡ pieces_read (expression_of expr.now)) }
{
    let mut pieces = Vec::new(alloc);
    push_read(expr, &mut pieces)?;
    Ok(pieces)
}

/// Some pieces more.
fn push_pieces(more: &[PieceRef], pieces: &mut Vec<PieceRef>) -> Result<(), NoMemory>
    ensures { IfOk result (λ _. map piece_of pieces.new.items ≡ map piece_of pieces.old.items ++ map piece_of more.now) }
{
    'pieces: for piece in more {
        pieces.push(*piece)?;
    }
    Ok(())
}

/// The words of a memory as pieces.
fn push_words(memory: &MemoryRef, pieces: &mut Vec<PieceRef>) -> Result<(), NoMemory>
    ensures { IfOk result (λ _. map piece_of pieces.new.items ≡ map piece_of pieces.old.items ++ memory_pieces (memory_of memory.now)) }
{
    let words = memory.words.as_slice();
    'words: for word in words {
        pieces.push(PieceRef {
            object: *word,
            width: memory.width,
        })?;
    }
    Ok(())
}

/// The pieces that hold some bit of a part-select.
fn push_part(
    vector: &VectorRef,
    from: u32,
    to: u32,
    pieces: &mut Vec<PieceRef>,
) -> Result<(), NoMemory>
    requires { part_width from to ≤ 128 }
    ensures { IfOk result (λ _. map piece_of pieces.new.items ≡ map piece_of pieces.old.items ++ slice_pieces (slices_at
        (part_places vector.now.high vector.now.low from to) 0 (map piece_of vector.now.pieces))) }
{
    let mut low: u128 = 0;
    let own = vector.pieces.as_slice();
    'pieces: for piece in own {
        let high = low + u128::from(piece.width);
        if stands_within(vector, from, to, low, high) {
            pieces.push(*piece)?;
        }
        low = high;
    }
    Ok(())
}

/// The piece that holds the bit which a constant index selects; none where it selects no bit.
fn push_bit(
    vector: &VectorRef,
    index: Option<u128>,
    pieces: &mut Vec<PieceRef>,
) -> Result<(), NoMemory>
    ensures { IfOk result (λ _. map piece_of pieces.new.items ≡ map piece_of pieces.old.items ++ slice_pieces (slices_at
        (place_of_number vector.now.high vector.now.low index ∷ []) 0 (map piece_of vector.now.pieces))) }
{
    match index {
        None => Ok(()),
        Some(number) => match index_within(vector, number) {
            None => Ok(()),
            Some(within) => {
                push_part(vector, within, within, pieces)?;
                Ok(())
            }
        },
    }
}

/// The pieces that a bit-select reads of its name: those that hold the bit, or all where the index isn't constant.
fn push_select(
    vector: &VectorRef,
    index: &FlatExpr,
    pieces: &mut Vec<PieceRef>,
) -> Result<(), NoMemory>
    requires { IsSized (expression_of index.now) }
    ensures { IfOk result (λ _. map piece_of pieces.new.items ≡ map piece_of pieces.old.items ++ slice_pieces (bit_slices (is_constant
        (expression_of index.now)) (vector_of vector.now) (index_number no_values (expression_of index.now)))) }
{
    if names_nothing(index) {
        let mut used = 0;
        match read_value(index, &[], &mut used) {
            Err(_) => unreachable!(),
            Ok(value) => {
                push_bit(vector, value.as_natural(is_signed(index)), pieces)?;
                Ok(())
            }
        }
    } else {
        push_pieces(vector.pieces.as_slice(), pieces)?;
        Ok(())
    }
}

/// The pieces that an expression reads.
#[cycle(pieces)]
fn push_read(expr: &FlatExpr, pieces: &mut Vec<PieceRef>) -> Result<(), NoMemory>
    requires { IsSized (expression_of expr.now) }
    ensures { IfOk result (λ _. map piece_of pieces.new.items ≡ map piece_of pieces.old.items ++ pieces_read (expression_of expr.now)) }
{
    match expr {
        FlatExpr::Constant { .. } => Ok(()),
        FlatExpr::Name { vector, .. } => {
            push_pieces(vector.pieces.as_slice(), pieces)?;
            Ok(())
        }
        FlatExpr::BitSelect { vector, index, .. } => {
            push_select(vector, index, pieces)?;
            push_read(index, pieces)?;
            Ok(())
        }
        FlatExpr::PartSelect {
            vector,
            from,
            to,
            ..
        } => {
            push_part(vector, *from, *to, pieces)?;
            Ok(())
        }
        FlatExpr::WordSelect { memory, index, .. } => {
            push_read(index, pieces)?;
            push_words(memory, pieces)?;
            Ok(())
        }
        FlatExpr::Unary { operand, .. } => {
            push_read(operand, pieces)?;
            Ok(())
        }
        FlatExpr::Binary { left, right, .. } => {
            push_read(left, pieces)?;
            push_read(right, pieces)?;
            Ok(())
        }
        FlatExpr::Conditional {
            condition,
            first,
            second,
            ..
        } => {
            push_read(condition, pieces)?;
            push_read(first, pieces)?;
            push_read(second, pieces)?;
            Ok(())
        }
        FlatExpr::Concatenation { parts, .. } => {
            push_parts(parts, pieces)?;
            Ok(())
        }
        FlatExpr::Replication { parts, .. } => {
            push_parts(parts, pieces)?;
            Ok(())
        }
    }
}

/// The pieces that several expressions read.
#[cycle(pieces)]
fn push_parts(parts: &[FlatExpr], pieces: &mut Vec<PieceRef>) -> Result<(), NoMemory>
    requires { AreSizedAlone (expressions_of parts.now) }
    ensures { IfOk result (λ _. map piece_of pieces.new.items ≡ map piece_of pieces.old.items ++ parts_read (expressions_of parts.now)) }
{
    'parts: for part in parts {
        push_read(part, pieces)?;
    }
    Ok(())
}
