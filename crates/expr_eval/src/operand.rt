// The values of operands: names, selects of them, and words of memories.

ghost use Rattle.std.specs.Prelude.{◌≡◌, ◌≤◌, ◌<◌, ◌+◌, [], ◌∷◌, ◌++◌, length, map, Option, Some, None, option_map, get_or};
ghost use Rattle.four_value.specs.Values.{LogicValue, bit_at, unknown};
ghost use Rattle.v_design.specs.Plain.{vector_of, memory_of, piece_of};
ghost use Rattle.v_design.specs.Trees.{Piece};
ghost use Rattle.v_design.specs.Sized.{pieces_width};
ghost use Rattle.v_design.specs.Assignments.{value_at, part_width};
ghost use Rattle.v_design.specs.Expressions.{vector_value, place_of, place_of_number, part_places, part_indexes, bit_at_place, word_at, object_value, memory_pieces};
ghost use Rattle.vf_base.specs.Base.{object_number};
ghost use Rattle.expr_eval.specs.Operands.{AreThere, bits_so_far};

use four_value::{Bit, Vec4};
use v_design::{MemoryRef, PieceRef, Values, VectorRef};
use vf_base::ObjectId;

/// Bits with more significant ones put on their left.
pub fn put_left(low: Option<Vec4>, high: Vec4) -> Vec4
    requires { length (bits_so_far low) + length high ≤ 128 }
    ensures { result ≡ bits_so_far low ++ high }
{
    match low {
        None => high,
        Some(low) => match high.join(low) {
            Ok(both) => both,
            Err(_) => high,
        },
    }
}

/// Bits with less significant ones put on their right.
pub fn put_right(high: Option<Vec4>, low: Vec4) -> Vec4
    requires { length (bits_so_far high) + length low ≤ 128 }
    ensures { result ≡ low ++ bits_so_far high }
{
    match high {
        None => low,
        Some(high) => match high.join(low) {
            Ok(both) => both,
            Err(_) => low,
        },
    }
}

/// The bits of all pieces of a name.
pub(crate) fn vector_bits<V: Values>(pieces: &[PieceRef], values: &V) -> Vec4
    requires there { AreThere (V.values values.now) (map piece_of pieces.now) }
    requires some { 1 ≤ pieces_width (map piece_of pieces.now) }
    requires few { pieces_width (map piece_of pieces.now) ≤ 128 }
    ensures { result ≡ vector_value (value_at (V.values values.now)) (map piece_of pieces.now) }
{
    let mut bits: Option<Vec4> = None;
    'pieces: for piece in pieces {
        let value = values.value(piece.object);
        bits = Some(put_left(bits, value));
    }
    match bits {
        Some(bits) => bits,
        None => unreachable!(),
    }
}

/// The place of an index by the declared bounds; none outside them.
pub fn place_of_index(high: u32, low: u32, index: u128) -> Option<u32>
    ensures { result ≡ place_of high low index }
{
    let (first, last) = (u128::from(high), u128::from(low));
    if last <= first {
        if last <= index && index <= first {
            Some((index - last) as u32)
        } else {
            None
        }
    } else if first <= index && index <= last {
        Some((last - index) as u32)
    } else {
        None
    }
}

/// The bit at a place of a name; x past its last bit.
fn bit_at_place_of<V: Values>(pieces: &[PieceRef], values: &V, place: u32) -> Bit
    requires { AreThere (V.values values.now) (map piece_of pieces.now) }
    ensures { result ≡ bit_at (vector_value (value_at (V.values values.now)) (map piece_of pieces.now)) place }
{
    let mut left = place;
    'pieces: for piece in pieces {
        let value = values.value(piece.object);
        let width = u32::from(value.width());
        if left < width {
            return value.bit(left);
        }
        left -= width;
    }
    Bit::X
}

/// The bit of a name that an index selects; x where it selects none.
pub(crate) fn bit_of_index<V: Values>(vector: &VectorRef, values: &V, index: Option<u128>) -> Bit
    requires { AreThere (V.values values.now) (map piece_of vector.now.pieces) }
    ensures { result ≡ bit_at_place (vector_value (value_at (V.values values.now)) (map piece_of vector.now.pieces)) (place_of_number vector.now.high vector.now.low index) }
{
    match index {
        None => Bit::X,
        Some(number) => match place_of_index(vector.high, vector.low, number) {
            None => Bit::X,
            Some(place) => bit_at_place_of(vector.pieces.as_slice(), values, place),
        },
    }
}

/// The word of a memory that an index selects; none where it selects none.
pub fn word_of_index(memory: &MemoryRef, index: Option<u128>) -> Option<ObjectId>
    ensures { option_map object_number result ≡ word_at (memory_of memory.now) index }
{
    let words = memory.words.as_slice();
    let first = u128::from(memory.first.min(memory.last));
    match index {
        None => None,
        Some(address) => {
            if first <= address && address - first < words.len() as u128 {
                Some(words[(address - first) as usize])
            } else {
                None
            }
        }
    }
}

/// The index of a part-select's bit, counted from its least significant one.
pub fn part_index(from: u32, to: u32, bit: u32) -> u32
    requires { bit < part_width from to }
    ensures { result ≡ get_or (part_indexes from to) bit 0 }
{
    if to <= from { to + bit } else { to - bit }
}

/// The number of bits of a part-select.
pub fn width_of_part(from: u32, to: u32) -> u64
    ensures { result ≡ part_width from to }
{
    if to <= from {
        u64::from(from - to) + 1
    } else {
        u64::from(to - from) + 1
    }
}

/// The bits of a part-select, x for each that lies outside the declared bounds.
pub(crate) fn part_bits<V: Values>(vector: &VectorRef, values: &V, from: u32, to: u32) -> Vec4
    requires there { AreThere (V.values values.now) (map piece_of vector.now.pieces) }
    requires some { 1 ≤ part_width from to }
    requires few { part_width from to ≤ 128 }
    ensures { result ≡ map (bit_at_place (vector_value (value_at (V.values values.now)) (map piece_of vector.now.pieces))) (part_places vector.now.high vector.now.low from to) }
{
    let mut part: Option<Vec4> = None;
    'bits: for place in 0..width_of_part(from, to) as u32 {
        let index = part_index(from, to, place);
        let bit = bit_of_index(vector, values, Some(u128::from(index)));
        part = Some(put_left(part, Vec4::of_bit(bit)));
    }
    match part {
        Some(part) => part,
        None => unreachable!(),
    }
}

/// The word of a memory that an index selects, all x where it selects none.
pub(crate) fn word_bits<V: Values>(memory: &MemoryRef, values: &V, index: Option<u128>) -> Vec4
    requires there { AreThere (V.values values.now) (memory_pieces (memory_of memory.now)) }
    requires width { (1 ≤ memory.now.width) × (memory.now.width ≤ 128) }
    ensures { result ≡ object_value (value_at (V.values values.now)) memory.now.width (word_at (memory_of memory.now) index) }
{
    match word_of_index(memory, index) {
        None => Vec4::filled(Bit::X, memory.width),
        Some(object) => values.value(object),
    }
}
