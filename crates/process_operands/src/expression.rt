// The value of an expression over the operands that were read for it.

ghost use Rattle.std.specs.Prelude.{◌≡◌, ◌≤◌, ◌<◌, ◌+◌, ◌*◌, [], ◌∷◌, ◌++◌, map, length, take, drop, IfOk, IfErr, ℕ, Bool};
ghost use Rattle.four_value.specs.Values.{resized};
ghost use Rattle.v_design.specs.Plain.{expression_of, expressions_of, piece_of, vector_of, memory_of};
ghost use Rattle.v_design.specs.Sized.{IsSized, AreSizedAlone, own_width_of_parts, pieces_width};
ghost use Rattle.v_design.specs.Trees.{BitSelect};
ghost use Rattle.v_design.specs.Expressions.{Needs, Has, read_expression, read_parts, read_slice, read_slices, whole_slices, word_at, width_of};
ghost use Rattle.process_operands.specs.Sought.{got};
ghost use Rattle.vf_base.specs.Base.{object_number};

use crate::constant::names_nothing;
use crate::operand::{joined_bits, next_operand, pass_pieces};
use crate::part::{bit_of_index, read_constant_bit, read_part};
use expr_eval::{chosen, is_signed, put_right, repeated_bits, word_of_index};
use four_value::{Bit, Vec4, binary, unary};
use v_design::{FlatExpr, MemoryRef, VectorRef};
use vf_base::ObjectId;

/// The value of an expression over the operands from the `used`th on, which then counts those that it takes.
///
/// # Errors
///
/// The object that is to be read next, where an operand is missing.
#[cycle(read)]
pub fn read_value(expr: &FlatExpr, operands: &[Vec4], used: &mut usize) -> Result<Vec4, ObjectId>
    requires { IsSized (expression_of expr.now) }
    ensures has { IfOk result (λ value. read_expression (expression_of expr.now) (drop used.old operands.now) ≡ Has value (drop used.new operands.now)) }
    ensures width { IfOk result (λ value. length value ≡ width_of (expression_of expr.now)) }
    ensures needs { IfErr result (λ object. read_expression (expression_of expr.now) (drop used.old operands.now) ≡ Needs (object_number object)) }
{
    match expr {
        FlatExpr::Constant {
            width,
            signed,
            value,
        } => Ok(value.resize_by_sign(*signed, *width)),
        FlatExpr::Name {
            width,
            signed,
            vector,
        } => {
            let bits = read_name(vector, operands, used)?;
            Ok(bits.resize_by_sign(*signed, *width))
        }
        FlatExpr::BitSelect {
            width,
            signed,
            vector,
            index,
        } => {
            let bit = read_bit(vector, index, operands, used)?;
            Ok(Vec4::of_bit(bit).resize_by_sign(*signed, *width))
        }
        FlatExpr::PartSelect {
            width,
            signed,
            vector,
            from,
            to,
        } => {
            let part = read_part(vector, *from, *to, operands, used)?;
            Ok(part.resize_by_sign(*signed, *width))
        }
        FlatExpr::WordSelect {
            width,
            signed,
            memory,
            index,
        } => {
            let number = read_value(index, operands, used)?.as_natural(is_signed(index));
            let word = read_word(memory, number, operands, used)?;
            Ok(word.resize_by_sign(*signed, *width))
        }
        FlatExpr::Unary {
            width,
            signed,
            operator,
            operand,
        } => {
            let a = read_value(operand, operands, used)?;
            Ok(unary(*operator, a).resize_by_sign(*signed, *width))
        }
        FlatExpr::Binary {
            width,
            signed,
            operator,
            left,
            right,
        } => {
            let a = read_value(left, operands, used)?;
            let b = read_value(right, operands, used)?;
            Ok(binary(*operator, is_signed(left), a, b).resize_by_sign(*signed, *width))
        }
        FlatExpr::Conditional {
            width,
            signed,
            condition,
            first,
            second,
        } => {
            let c = read_value(condition, operands, used)?;
            let a = read_value(first, operands, used)?;
            let b = read_value(second, operands, used)?;
            Ok(chosen(c, a, b).resize_by_sign(*signed, *width))
        }
        FlatExpr::Concatenation {
            width,
            signed,
            parts,
        } => {
            let bits = read_joined(parts, operands, used)?;
            Ok(bits.resize_by_sign(*signed, *width))
        }
        FlatExpr::Replication {
            width,
            signed,
            count,
            parts,
        } => {
            let bits = read_joined(parts, operands, used)?;
            Ok(repeated_bits(*count, bits).resize_by_sign(*signed, *width))
        }
    }
}

/// The bits of a name, cut to 128.
fn read_name(vector: &VectorRef, operands: &[Vec4], used: &mut usize) -> Result<Vec4, ObjectId>
    requires { 1 ≤ pieces_width (map piece_of vector.now.pieces) }
    ensures has { IfOk result (λ bits. got (take 128) (read_slices (whole_slices (map piece_of vector.now.pieces)) (drop used.old operands.now)) ≡ Has bits (drop used.new operands.now)) }
    ensures needs { IfErr result (λ object. read_slices (whole_slices (map piece_of vector.now.pieces)) (drop used.old operands.now) ≡ Needs (object_number object)) }
{
    let own = pass_pieces(vector.pieces.as_slice(), operands, used)?;
    Ok(joined_bits(own))
}

/// The word of a memory that an index selects, all x where it selects none.
fn read_word(
    memory: &MemoryRef,
    index: Option<u128>,
    operands: &[Vec4],
    used: &mut usize,
) -> Result<Vec4, ObjectId>
    requires { (1 ≤ memory.now.width) × (memory.now.width ≤ 128) }
    ensures has { IfOk result (λ word. read_slice (word_at (memory_of memory.now) index) memory.now.width (drop used.old operands.now) ≡ Has word (drop used.new operands.now)) }
    ensures needs { IfErr result (λ object. read_slice (word_at (memory_of memory.now) index) memory.now.width (drop used.old operands.now) ≡ Needs (object_number object)) }
{
    match word_of_index(memory, index) {
        None => Ok(Vec4::filled(Bit::X, memory.width)),
        Some(object) => {
            let word = next_operand(object, operands, used)?;
            Ok(word)
        }
    }
}

/// The bit of a name that an index selects: a constant one reads the piece that holds the bit, any other all pieces.
#[cycle(read)]
fn read_bit(
    vector: &VectorRef,
    index: &FlatExpr,
    operands: &[Vec4],
    used: &mut usize,
) -> Result<Bit, ObjectId>
    requires { IsSized (expression_of index.now) }
    ensures has { IfOk result (λ bit. (width : ℕ) (signed : Bool) →
        read_expression (BitSelect width signed (vector_of vector.now) (expression_of index.now)) (drop used.old operands.now) ≡ Has (resized signed width
        (bit ∷ [])) (drop used.new operands.now)) }
    ensures needs { IfErr result (λ object. (width : ℕ) (signed : Bool) →
        read_expression (BitSelect width signed (vector_of vector.now) (expression_of index.now)) (drop used.old operands.now) ≡ Needs (object_number object)) }
{
    if names_nothing(index) {
        let number = read_value(index, operands, used)?.as_natural(is_signed(index));
        let bit = read_constant_bit(vector, number, operands, used)?;
        Ok(bit)
    } else {
        let own = pass_pieces(vector.pieces.as_slice(), operands, used)?;
        let number = read_value(index, operands, used)?.as_natural(is_signed(index));
        Ok(bit_of_index(vector, own, number))
    }
}

/// The bits of the parts of a concatenation, the leftmost part being the most significant.
#[cycle(read)]
fn read_joined(parts: &[FlatExpr], operands: &[Vec4], used: &mut usize) -> Result<Vec4, ObjectId>
    requires sized { AreSizedAlone (expressions_of parts.now) }
    requires some { 1 ≤ own_width_of_parts (expressions_of parts.now) }
    requires few { own_width_of_parts (expressions_of parts.now) ≤ 128 }
    ensures has { IfOk result (λ bits. read_parts (expressions_of parts.now) (drop used.old operands.now) ≡ Has bits (drop used.new operands.now)) }
    ensures width { IfOk result (λ bits. length bits ≡ own_width_of_parts (expressions_of parts.now)) }
    ensures needs { IfErr result (λ object. read_parts (expressions_of parts.now) (drop used.old operands.now) ≡ Needs (object_number object)) }
{
    let mut bits: Option<Vec4> = None;
    'parts: for part in parts {
        let value = read_value(part, operands, used)?;
        bits = Some(put_right(bits, value));
    }
    match bits {
        Some(bits) => Ok(bits),
        None => unreachable!(),
    }
}
