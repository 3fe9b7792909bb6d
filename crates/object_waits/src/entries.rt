// The entries of an event control.

ghost use Rattle.std.specs.Prelude.{◌≡◌, ◌+◌, ◌<◌, ◌^◌, [], ◌∷◌, Some, None, IfOk, IfSome, IfNone, map};
ghost use Rattle.vf_base.specs.Base.{object_number};
ghost use Rattle.vf_base.specs.Lists.{without_repeats};
ghost use Rattle.v_design.specs.Plain.{piece_of, entry_of};
ghost use Rattle.v_design.specs.Expressions.{up_from};
ghost use Rattle.v_elab.specs.Statements.{run_within, entry_on, entries_on, places_by_edge, whole_entry};
ghost use Rattle.object_waits.specs.Selects.{run_places, width_by_edge};

use crate::object_list::first_occurrences;
use four_value::Edge;
use std::alloc::Global;
use v_design::{PieceRef, VectorRef, WaitEntry};
use vf_base::{NoMemory, ObjectId};

/// The bits that an entry selects of its name: from the select's least significant bit some that are outside the declared range, then a run of bits
/// upwards, counted from the name's least significant bit as 0, then some that are outside again.
#[derive(Clone, Copy, PartialEq, Eq, Debug)]
pub struct SelectedBits {
    pub outside_below: u8,
    pub low: u8,
    pub width: u8,
    pub outside_above: u8,
}

/// The bits of a run that an entry is on: with an edge the select's least significant bit alone.
fn width_by_edge(edge: Edge, outside_below: u8, width: u8) -> u8
    ensures { result ≡ width_by_edge edge outside_below width }
{
    match edge {
        Edge::Any => width,
        Edge::Pos | Edge::Neg => {
            if outside_below == 0 && 0 < width {
                1
            } else {
                0
            }
        }
    }
}

/// The entry on the bits of a run that a piece holds, where it holds some. The offset is that of the piece in its name.
fn entry_within(edge: Edge, low: u8, width: u8, offset: u128, piece: &PieceRef) -> Option<WaitEntry>
    requires { offset + 255 < 2 ^ 128 }
    ensures some { IfSome result (λ entry. entry_on (piece_of piece.now) edge (run_within offset (offset + piece.now.width) (map Some (up_from low width)) None) ≡ entry_of entry ∷ []) }
    ensures none { IfNone result (entry_on (piece_of piece.now) edge (run_within offset (offset + piece.now.width) (map Some (up_from low width)) None) ≡ []) }
{
    let first = offset.max(u128::from(low));
    let end = (offset + u128::from(piece.width)).min(u128::from(low) + u128::from(width));
    if first < end {
        Some(WaitEntry {
            object: piece.object,
            low: (first - offset) as u32,
            width: (end - first) as u8,
            edge,
        })
    } else {
        None
    }
}

/// The entries on a run of bits.
fn entries_of_run(
    alloc: Global,
    edge: Edge,
    low: u8,
    width: u8,
    pieces: &[PieceRef],
) -> Result<Vec<WaitEntry>, NoMemory>
    ensures { IfOk result (λ entries. map entry_of entries.items ≡ entries_on edge (map Some (up_from low width)) 0 (map piece_of pieces.now)) }
{
    let mut entries = Vec::new(alloc);
    let mut offset: u128 = 0;
    'pieces: for piece in pieces {
        if let Some(entry) = entry_within(edge, low, width, offset, piece) {
            entries.push(entry)?;
        }
        offset += u128::from(piece.width);
    }
    Ok(entries)
}

/// The entries on a select of a name: one for each piece that holds some of its bits, from the least significant; with an edge on its least
/// significant bit alone, and none where that bit is outside the range.
///
/// # Errors
///
/// Want of memory.
#[tactic(auto, using(crate::proofs::Runs::entries_same))]
pub fn entries_of_select(
    alloc: Global,
    edge: Edge,
    bits: SelectedBits,
    vector: &VectorRef,
) -> Result<Vec<WaitEntry>, NoMemory>
    ensures { IfOk result (λ entries. map entry_of entries.items ≡ entries_on edge (places_by_edge edge
        (run_places bits.outside_below bits.low bits.width bits.outside_above)) 0 (map piece_of vector.now.pieces)) }
{
    let width = width_by_edge(edge, bits.outside_below, bits.width);
    let entries = entries_of_run(alloc, edge, bits.low, width, vector.pieces.as_slice())?;
    Ok(entries)
}

/// The entry on a whole object.
fn whole_entry(object: ObjectId, widths: &[u8]) -> WaitEntry
    ensures { entry_of result ≡ whole_entry widths.now (object_number object) }
{
    let width = match widths.get(object.0 as usize) {
        None => 0,
        Some(width) => *width,
    };
    WaitEntry {
        object,
        low: 0,
        width,
        edge: Edge::Any,
    }
}

/// The entries of `@*` on the objects that its statement reads, given in the order of the text, and the width of each object of the design: one on each
/// object as a whole, in the order of first occurrence.
///
/// # Errors
///
/// Want of memory.
pub fn star_entries(
    alloc: Global,
    objects: &[ObjectId],
    widths: &[u8],
) -> Result<Vec<WaitEntry>, NoMemory>
    ensures { IfOk result (λ entries. map entry_of entries.items ≡ map (whole_entry widths.now) (without_repeats [] (map object_number objects.now))) }
{
    let once = first_occurrences(alloc, objects)?;
    let entries = whole_entries(alloc, &once, widths)?;
    Ok(entries)
}

/// One entry on each of some objects as a whole.
fn whole_entries(
    alloc: Global,
    objects: &[ObjectId],
    widths: &[u8],
) -> Result<Vec<WaitEntry>, NoMemory>
    ensures { IfOk result (λ entries. map entry_of entries.items ≡ map (whole_entry widths.now) (map object_number objects.now)) }
{
    let mut entries = Vec::new(alloc);
    'objects: for object in objects {
        entries.push(whole_entry(*object, widths))?;
    }
    Ok(entries)
}
