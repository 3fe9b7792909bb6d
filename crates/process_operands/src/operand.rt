// Operands that were read, one after the other.

ghost use Rattle.std.specs.Prelude.{◌≡◌, ◌≤◌, ◌<◌, ◌+◌, [], ◌∷◌, ◌++◌, length, map, take, drop, IfOk, IfErr};
ghost use Rattle.v_design.specs.Plain.{piece_of};
ghost use Rattle.v_design.specs.Expressions.{Needs, Has, read_slices, whole_slices};
ghost use Rattle.vf_base.specs.Lists.{joined};
ghost use Rattle.expr_eval.specs.Operands.{bits_so_far};
ghost use Rattle.vf_base.specs.Base.{object_number};

use four_value::Vec4;
use v_design::PieceRef;
use vf_base::{MAX_BITS, ObjectId};

/// The next operand, which is the value of an object.
pub(crate) fn next_operand(
    object: ObjectId,
    operands: &[Vec4],
    used: &mut usize,
) -> Result<Vec4, ObjectId>
    ensures has { IfOk result (λ value. drop used.old operands.now ≡ value ∷ drop used.new operands.now) }
    ensures needs { IfErr result (λ needed. (drop used.old operands.now ≡ []) × (needed ≡ object)) }
{
    if *used < operands.len() {
        let value = operands[*used];
        *used += 1;
        Ok(value)
    } else {
        Err(object)
    }
}

/// The operands of all pieces of a name.
pub(crate) fn pass_pieces<'o>(
    pieces: &[PieceRef],
    operands: &'o [Vec4],
    used: &mut usize,
) -> Result<&'o [Vec4], ObjectId>
    ensures count { IfOk result (λ own. length own.now ≡ length pieces.now) }
    ensures has { IfOk result (λ own. read_slices (whole_slices (map piece_of pieces.now)) (drop used.old operands.now) ≡ Has (joined own.now) (drop used.new operands.now)) }
    ensures needs { IfErr result (λ object. read_slices (whole_slices (map piece_of pieces.now)) (drop used.old operands.now) ≡ Needs (object_number object)) }
{
    let there = operands.len().saturating_sub(*used);
    if pieces.len() <= there {
        let first = operands.len() - there;
        let last = first + pieces.len();
        let own = &operands[first..last];
        *used = last;
        Ok(own)
    } else {
        Err(pieces[there].object)
    }
}

/// Bits with more significant ones put on their left. What is past 128 bits is cut: no part of a sized expression has as many.
pub(crate) fn put_above(low: Option<Vec4>, high: Vec4) -> Vec4
    ensures { result ≡ take 128 (bits_so_far low ++ high) }
{
    let _at_most_128 = high.width();
    match low {
        None => high,
        Some(low) => match high.join(low) {
            Ok(both) => both,
            Err(_) => cut_above(low, high),
        },
    }
}

/// As `put_above`, where there isn't room for all bits.
fn cut_above(low: Vec4, high: Vec4) -> Vec4
    requires { 128 < length low + length high }
    ensures { result ≡ take 128 (low ++ high) }
{
    let room = MAX_BITS - low.width();
    if room == 0 {
        return low;
    }
    match high.part(0, room).join(low) {
        Ok(both) => both,
        Err(_) => unreachable!(),
    }
}

/// The bits of the operands of a name, which has at least one. What is past 128 bits is cut.
pub(crate) fn joined_bits(operands: &[Vec4]) -> Vec4
    requires { 1 ≤ length operands.now }
    ensures { result ≡ take 128 (joined operands.now) }
{
    let mut bits: Option<Vec4> = None;
    'operands: for operand in operands {
        bits = Some(put_above(bits, *operand));
    }
    match bits {
        Some(bits) => bits,
        None => unreachable!(),
    }
}
