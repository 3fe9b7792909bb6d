// The bits that a word spells for watching.

ghost use Rattle.std.specs.Prelude.{◌≡◌, ◌++◌, ◌∷◌, [], IfOk, OnOk, map};
ghost use Rattle.std.specs.Option.{option_and_then};
ghost use Rattle.vf_base.specs.Base.{object_number};
ghost use Rattle.vf_base.specs.Lists.{joined, map_numbered};
ghost use Rattle.v_design.specs.Plain.{object_of, name_joined, piece_of};
ghost use Rattle.v_design.specs.PlainDesigns.{design_of};
ghost use Rattle.fault_list.specs.Spelled.{bit_spelled, place_spelled, piece_bit};
ghost use Rattle.plan_read.specs.Plain.{watched_bits};
ghost use Rattle.plan_read.specs.Watched.{bit_of, object_bits, pieces_bits, bit_if, held_if, bits_in_object, bits_in_joined, bits_upwards, bits_spelled};

use crate::SiteNames;
use fault_list::{bit_spelled, joined_place, piece_bit};
use std::alloc::Global;
use v_design::{JoinedName, Object, ObjectKind, PieceRef};
use vf_base::{NoMemory, ObjectId, WatchBit};

/// Adds a bit of an object.
fn push_bit(bits: &mut Vec<WatchBit>, object: ObjectId, bit: u32) -> Result<(), NoMemory>
    ensures { OnOk result (watched_bits bits.new.items ≡ watched_bits bits.old.items ++ bit_of (object_number object) bit ∷ []) }
{
    bits.push(WatchBit { object, bit })?;
    Ok(())
}

/// Adds so many bits of an object, from the least significant.
fn add_object_bits(bits: &mut Vec<WatchBit>, object: ObjectId, width: u32) -> Result<(), NoMemory>
    ensures { OnOk result (watched_bits bits.new.items ≡ watched_bits bits.old.items ++ object_bits (object_number object) width) }
{
    'bits: for bit in 0..width {
        push_bit(bits, object, bit)?;
    }
    Ok(())
}

/// Adds the bits of a piece.
fn add_piece_bits(bits: &mut Vec<WatchBit>, piece: &PieceRef) -> Result<(), NoMemory>
    ensures { OnOk result (watched_bits bits.new.items ≡ watched_bits bits.old.items ++ object_bits (piece_of piece.now).object (piece_of piece.now).width) }
{
    add_object_bits(bits, piece.object, u32::from(piece.width))
}

/// Adds the bits of some pieces.
fn add_pieces_bits(bits: &mut Vec<WatchBit>, pieces: &[PieceRef]) -> Result<(), NoMemory>
    ensures { OnOk result (watched_bits bits.new.items ≡ watched_bits bits.old.items ++ pieces_bits (map piece_of pieces.now)) }
{
    'pieces: for piece in pieces {
        add_piece_bits(bits, piece)?;
    }
    Ok(())
}

/// Adds a bit of an object, if there is one.
fn add_bit(bits: &mut Vec<WatchBit>, object: ObjectId, bit: Option<u32>) -> Result<(), NoMemory>
    ensures { OnOk result (watched_bits bits.new.items ≡ watched_bits bits.old.items ++ bit_if (object_number object) bit) }
{
    if let Some(bit) = bit {
        push_bit(bits, object, bit)?;
    }
    Ok(())
}

/// Adds the bit at a place of some pieces, if there is one.
fn add_held(
    bits: &mut Vec<WatchBit>,
    pieces: &[PieceRef],
    place: Option<u32>,
) -> Result<(), NoMemory>
    ensures { OnOk result (watched_bits bits.new.items ≡ watched_bits bits.old.items ++ held_if (option_and_then (piece_bit (map piece_of pieces.now)) place)) }
{
    let Some(place) = place else {
        return Ok(());
    };
    if let Some((object, bit)) = piece_bit(pieces, place) {
        push_bit(bits, object, bit)?;
    }
    Ok(())
}

/// Adds the bits of a variable or a net piece that a word spells.
fn add_spelled(
    bits: &mut Vec<WatchBit>,
    number: ObjectId,
    object: &Object,
    word: &[u8],
) -> Result<(), NoMemory>
    ensures { OnOk result (watched_bits bits.new.items ≡ watched_bits bits.old.items ++ bits_in_object word.now (object_number number) (object_of object.now)) }
{
    match object.kind {
        ObjectKind::Word => Ok(()),
        ObjectKind::Var | ObjectKind::Net => {
            if object.name.as_bytes() == word {
                add_object_bits(bits, number, u32::from(object.width))
            } else {
                add_bit(bits, number, bit_spelled(object, word))
            }
        }
    }
}

/// Adds the bits of a joined name that a word spells.
fn add_joined(bits: &mut Vec<WatchBit>, name: &JoinedName, word: &[u8]) -> Result<(), NoMemory>
    ensures { OnOk result (watched_bits bits.new.items ≡ watched_bits bits.old.items ++ bits_in_joined word.now (name_joined name.now)) }
{
    if name.name.as_bytes() == word {
        add_pieces_bits(bits, name.pieces.as_slice())
    } else {
        add_held(bits, name.pieces.as_slice(), joined_place(name, word))
    }
}

/// Adds the bits that a word spells by objects' own names.
fn add_objects(bits: &mut Vec<WatchBit>, names: &SiteNames<'_>, word: &[u8]) -> Result<(), NoMemory>
    ensures { OnOk result (watched_bits bits.new.items ≡ watched_bits bits.old.items ++ joined (map_numbered (bits_in_object word.now) 0 (design_of names.now.design.now).objects)) }
{
    let objects = names.design.objects.as_slice();
    let mut at = names.first_object(word);
    'places: while let Some(place) = at {
        let object = &objects[place as usize];
        add_spelled(bits, ObjectId(place), object, word)?;
        at = names.next_object(place);
    }
    Ok(())
}

/// Adds the bits that a word spells by joined names.
fn add_names(bits: &mut Vec<WatchBit>, names: &SiteNames<'_>, word: &[u8]) -> Result<(), NoMemory>
    ensures { OnOk result (watched_bits bits.new.items ≡ watched_bits bits.old.items ++ joined (map (bits_in_joined word.now) (design_of names.now.design.now).joined)) }
{
    let joined = names.design.joined.as_slice();
    let mut at = names.first_joined(word);
    'places: while let Some(place) = at {
        let name = &joined[place as usize];
        add_joined(bits, name, word)?;
        at = names.next_joined(place);
    }
    Ok(())
}

/// The bits that a word spells, each name's from the least significant.
#[tactic(auto, unfolding(crate::specs::Watched::bits_upwards))]
fn bits_upwards_of(
    alloc: Global,
    names: &SiteNames<'_>,
    word: &[u8],
) -> Result<Vec<WatchBit>, NoMemory>
    ensures { IfOk result (λ bits. watched_bits bits.items ≡ bits_upwards (design_of names.now.design.now) word.now) }
{
    let mut bits = Vec::new(alloc);
    add_objects(&mut bits, names, word)?;
    add_names(&mut bits, names, word)?;
    Ok(bits)
}

/// The bits that a word spells, from the most significant down: NAME for all bits of a variable, a net or a joined name, NAME[INDEX] for one of them; none where
/// it spells none.
pub fn bits_of(alloc: Global, names: &SiteNames<'_>, word: &[u8]) -> Result<Vec<WatchBit>, NoMemory>
    ensures { IfOk result (λ bits. watched_bits bits.items ≡ bits_spelled (design_of names.now.design.now) word.now) }
{
    let mut bits = bits_upwards_of(alloc, names, word)?;
    bits.reverse();
    Ok(bits)
}
