// Selects of the bits of a name, of which only the pieces that hold them are read.

ghost use Rattle.std.specs.Prelude.{◌≡◌, ◌≤◌, ◌<◌, ◌+◌, [], ◌∷◌, ◌++◌, map, length, drop, Option, None, IfOk, IfErr, IfSome, IfNone};
ghost use Rattle.four_value.specs.Values.{LogicValue, unknown};
ghost use Rattle.v_design.specs.Plain.{piece_of};
ghost use Rattle.v_design.specs.Assignments.{part_width};
ghost use Rattle.vf_base.specs.Lists.{joined};
ghost use Rattle.v_design.specs.Expressions.{Needs, Has, read_slices, slices_at, place_of, place_of_number, part_places, bit_at_place, some_place_within};
ghost use Rattle.vf_base.specs.Base.{object_number};
ghost use Rattle.process_operands.specs.Sought.{sought_bit, got};

use crate::operand::next_operand;
use expr_eval::{part_index, place_of_index, put_left, width_of_part};
use four_value::{Bit, Vec4};
use v_design::VectorRef;
use vf_base::ObjectId;

/// A bit that is looked for among pieces: it, or how many places further it stands.
#[derive(Clone, Copy)]
pub(crate) enum Sought {
    Found(Bit),
    Further(u64),
}

impl Sought {
    /// The bit at a place; x where there is none.
    fn at(place: Option<u32>) -> Sought
        ensures { (bits : LogicValue) → sought_bit result bits ≡ bit_at_place bits place }
    {
        match place {
            None => Sought::Found(Bit::X),
            Some(place) => Sought::Further(u64::from(place)),
        }
    }

    /// Past the bits of a value.
    fn past_value(self, value: Vec4) -> Sought
        ensures { (rest : LogicValue) → sought_bit result rest ≡ sought_bit self (value ++ rest) }
    {
        match self {
            Sought::Found(bit) => Sought::Found(bit),
            Sought::Further(places) => {
                let width = u64::from(value.width());
                if places < width {
                    Sought::Found(value.bit(places as u32))
                } else {
                    Sought::Further(places - width)
                }
            }
        }
    }

    /// Past so many bits that aren't read.
    fn past_unread(self, width: u64) -> Sought
        ensures { (rest : LogicValue) → sought_bit result rest ≡ sought_bit self (unknown width ++ rest) }
    {
        match self {
            Sought::Found(bit) => Sought::Found(bit),
            Sought::Further(places) => {
                if places < width {
                    Sought::Found(Bit::X)
                } else {
                    Sought::Further(places - width)
                }
            }
        }
    }

    /// The bit, where no bits are left; x where it stands further.
    fn bit(self) -> Bit
        ensures { result ≡ sought_bit self [] }
    {
        match self {
            Sought::Found(bit) => bit,
            Sought::Further(_) => Bit::X,
        }
    }
}

/// The bit that an index selects among the operands of a name; x where it selects none.
pub(crate) fn bit_of_index(vector: &VectorRef, operands: &[Vec4], index: Option<u128>) -> Bit
    ensures { result ≡ bit_at_place (joined operands.now) (place_of_number vector.now.high vector.now.low index) }
{
    let place = match index {
        None => None,
        Some(number) => place_of_index(vector.high, vector.low, number),
    };
    let mut sought = Sought::at(place);
    'operands: for operand in operands {
        sought = sought.past_value(*operand);
    }
    sought.bit()
}

/// Whether some bit of a part-select stands from one place of a name up to another.
pub(crate) fn stands_within(vector: &VectorRef, from: u32, to: u32, low: u128, high: u128) -> bool
    requires { part_width from to ≤ 128 }
    ensures { result ≡ some_place_within low high (part_places vector.now.high vector.now.low from to) }
{
    'bits: for bit in 0..width_of_part(from, to) as u32 {
        let index = u128::from(part_index(from, to, bit));
        if let Some(place) = place_of_index(vector.high, vector.low, index) {
            if low <= u128::from(place) && u128::from(place) < high {
                return true;
            }
        }
    }
    false
}

/// One bit of a part-select, over the operands of the pieces that hold some bit of it.
fn read_bit_of_part(
    vector: &VectorRef,
    from: u32,
    to: u32,
    place: Option<u32>,
    operands: &[Vec4],
    used: &mut usize,
) -> Result<Bit, ObjectId>
    requires { part_width from to ≤ 128 }
    ensures has { IfOk result (λ bit. got (λ bits. bit_at_place bits place) (read_slices (slices_at (part_places vector.now.high vector.now.low from to) 0
        (map piece_of vector.now.pieces)) (drop used.old operands.now)) ≡ Has bit (drop used.new operands.now)) }
    ensures needs { IfErr result (λ object. read_slices (slices_at (part_places vector.now.high vector.now.low from to) 0 (map piece_of vector.now.pieces))
        (drop used.old operands.now) ≡ Needs (object_number object)) }
{
    let mut sought = Sought::at(place);
    let mut low: u128 = 0;
    let pieces = vector.pieces.as_slice();
    'pieces: for piece in pieces {
        let width = u64::from(piece.width);
        let high = low + u128::from(width);
        if stands_within(vector, from, to, low, high) {
            let value = next_operand(piece.object, operands, used)?;
            sought = sought.past_value(value);
        } else {
            sought = sought.past_unread(width);
        }
        low = high;
    }
    Ok(sought.bit())
}

/// The bits of a part-select, over the operands of the pieces that hold some bit of it.
pub(crate) fn read_part(
    vector: &VectorRef,
    from: u32,
    to: u32,
    operands: &[Vec4],
    used: &mut usize,
) -> Result<Vec4, ObjectId>
    requires some { 1 ≤ part_width from to }
    requires few { part_width from to ≤ 128 }
    ensures has { IfOk result (λ part. got (λ bits. map (bit_at_place bits) (part_places vector.now.high vector.now.low from to)) (read_slices (slices_at
        (part_places vector.now.high vector.now.low from to) 0 (map piece_of vector.now.pieces)) (drop used.old operands.now)) ≡ Has part (drop used.new operands.now)) }
    ensures needs { IfErr result (λ object. read_slices (slices_at (part_places vector.now.high vector.now.low from to) 0 (map piece_of vector.now.pieces))
        (drop used.old operands.now) ≡ Needs (object_number object)) }
{
    let first = *used;
    let mut part: Option<Vec4> = None;
    'bits: for bit in 0..width_of_part(from, to) as u32 {
        let index = u128::from(part_index(from, to, bit));
        let place = place_of_index(vector.high, vector.low, index);
        *used = first;
        let value = read_bit_of_part(vector, from, to, place, operands, used)?;
        part = Some(put_left(part, Vec4::of_bit(value)));
    }
    match part {
        Some(part) => Ok(part),
        None => unreachable!(),
    }
}

/// An index, where it lies within the declared bounds of a name.
pub(crate) fn index_within(vector: &VectorRef, index: u128) -> Option<u32>
    ensures some { IfSome result (λ within. within ≡ index) }
    ensures none { IfNone result (place_of vector.now.high vector.now.low index ≡ None) }
{
    let (first, last) = (u128::from(vector.high), u128::from(vector.low));
    if last <= first {
        if last <= index && index <= first {
            Some(index as u32)
        } else {
            None
        }
    } else if first <= index && index <= last {
        Some(index as u32)
    } else {
        None
    }
}

/// The bit that a constant index selects, over the operand of the piece that holds it; x, without an operand, where it selects none.
pub(crate) fn read_constant_bit(
    vector: &VectorRef,
    index: Option<u128>,
    operands: &[Vec4],
    used: &mut usize,
) -> Result<Bit, ObjectId>
    ensures has { IfOk result (λ bit. got (λ bits. bit_at_place bits (place_of_number vector.now.high vector.now.low index)) (read_slices (slices_at
        (place_of_number vector.now.high vector.now.low index ∷ []) 0 (map piece_of vector.now.pieces)) (drop used.old operands.now)) ≡ Has bit (drop used.new operands.now)) }
    ensures needs { IfErr result (λ object. read_slices (slices_at (place_of_number vector.now.high vector.now.low index ∷ []) 0
        (map piece_of vector.now.pieces)) (drop used.old operands.now) ≡ Needs (object_number object)) }
{
    match index {
        None => Ok(Bit::X),
        Some(index) => {
            let bit = read_known_bit(vector, index, operands, used)?;
            Ok(bit)
        }
    }
}

/// The bit that an index selects, over the operand of the piece that holds it; x, without an operand, where it selects none.
fn read_known_bit(
    vector: &VectorRef,
    index: u128,
    operands: &[Vec4],
    used: &mut usize,
) -> Result<Bit, ObjectId>
    ensures has { IfOk result (λ bit. got (λ bits. bit_at_place bits (place_of vector.now.high vector.now.low index)) (read_slices (slices_at
        (place_of vector.now.high vector.now.low index ∷ []) 0 (map piece_of vector.now.pieces)) (drop used.old operands.now)) ≡ Has bit (drop used.new operands.now)) }
    ensures needs { IfErr result (λ object. read_slices (slices_at (place_of vector.now.high vector.now.low index ∷ []) 0 (map piece_of vector.now.pieces))
        (drop used.old operands.now) ≡ Needs (object_number object)) }
{
    match index_within(vector, index) {
        None => Ok(Bit::X),
        Some(within) => {
            let place = place_of_index(vector.high, vector.low, index);
            let bit = read_bit_of_part(vector, within, within, place, operands, used)?;
            Ok(bit)
        }
    }
}
