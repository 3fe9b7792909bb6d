// The tables in which names are found.

ghost use Rattle.std.specs.Prelude.{◌≡◌, ◌++◌, ◌∷◌, [], IfOk, OnOk, map, option_map};
ghost use Rattle.vf_base.specs.Base.{object_number};
ghost use Rattle.v_elab.specs.Objects.{range_of_signal, memories_of};
ghost use Rattle.elab_wires.specs.Held.{all_pieces};
ghost use Rattle.elab_parts.specs.PartViews.{part_of, parts_of, range_of};
ghost use Rattle.elab_wires.specs.SignalTables.{signal_borrowed};
ghost use Rattle.elab_objects.specs.ObjectViews.{held_objects};
ghost use Rattle.object_names.specs.NameTables.{memory_keyed};
ghost use Rattle.object_names.specs.NameViews.{memories_listed, pieces_listed, objects_in};

use elab_objects::HeldObject;
use elab_parts::{DeclaredRange, Part, Signal, WalkedMemory};
use key_index::Keyed;
use std::alloc::Global;
use v_design::PieceRef;
use vf_base::{NoMemory, ObjectId};

/// An object by its number; more than such numbers count are in no memory.
fn object_id(number: usize) -> Result<ObjectId, NoMemory>
    ensures { IfOk result (λ object. object_number object ≡ number) }
{
    match u32::try_from(number) {
        Ok(number) => Ok(ObjectId(number)),
        Err(_) => Err(NoMemory),
    }
}

/// Adds a part to the list of those that are memories.
fn push_memory<'p>(
    part: &'p Part<'_>,
    items: &mut Vec<Keyed<'p, &'p WalkedMemory>>,
) -> Result<(), NoMemory>
    ensures { OnOk result (memories_listed items.new.items ≡ memories_listed items.old.items ++ map memory_keyed (memories_of (part_of part.now ∷ []))) }
{
    match part {
        Part::Memory(memory) => {
            items.push(Keyed {
                key: memory.name.as_bytes(),
                item: memory,
            })?;
            Ok(())
        }
        _ => Ok(()),
    }
}

/// The memories among some parts, each with its name.
pub fn list_memories<'p>(
    alloc: Global,
    parts: &'p [Part<'_>],
) -> Result<Vec<Keyed<'p, &'p WalkedMemory>>, NoMemory>
    ensures { IfOk result (λ items. memories_listed items.items ≡ map memory_keyed (memories_of (parts_of parts.now))) }
{
    let mut items = Vec::new(alloc);
    'parts: for part in parts {
        push_memory(part, &mut items)?;
    }
    Ok(items)
}

/// All objects as pieces, each with the name whose bits it holds.
pub fn list_pieces<'p>(
    alloc: Global,
    objects: &'p [HeldObject],
) -> Result<Vec<Keyed<'p, PieceRef>>, NoMemory>
    ensures { IfOk result (λ items. pieces_listed items.items ≡ all_pieces 0 (held_objects objects.now)) }
{
    let mut items = Vec::new(alloc);
    'objects: for (number, held) in objects.iter().enumerate() {
        let object = object_id(number)?;
        items.push(Keyed {
            key: held.object.name.as_bytes(),
            item: PieceRef {
                object,
                width: held.object.width,
            },
        })?;
    }
    Ok(items)
}

/// The declared range of a net or a variable, that of one bit where there is none.
pub fn range_in(signal: Option<&Signal>) -> DeclaredRange
    ensures { range_of result ≡ range_of_signal (option_map signal_borrowed signal.entry) }
{
    match signal {
        Some(signal) => signal.range,
        None => DeclaredRange {
            ranged: false,
            high: 0,
            low: 0,
        },
    }
}

/// The objects of some pieces.
pub fn objects_in(alloc: Global, pieces: &[PieceRef]) -> Result<Vec<ObjectId>, NoMemory>
    ensures { IfOk result (λ objects. map object_number objects.items ≡ objects_in pieces.now) }
{
    let mut objects = Vec::new(alloc);
    'pieces: for piece in pieces {
        objects.push(piece.object)?;
    }
    Ok(objects)
}
