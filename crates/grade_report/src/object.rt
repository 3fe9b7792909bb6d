// How a report names an object.

ghost use Rattle.std.specs.Prelude.{◌≡◌, ◌++◌, OnOk, count_by, map};
ghost use Rattle.std.specs.Fmt.{decimal};
ghost use Rattle.vf_base.specs.Base.{object_number};
ghost use Rattle.v_design.specs.Plain.{object_of};
ghost use Rattle.v_design.specs.PlainDesigns.{design_of};
ghost use Rattle.grade_report.specs.Objects.{is_piece_of, has_pieces, between, bounds_text, piece_text, text_by_kind, object_text};

use fault_list::{append, append_number};
use std::alloc::Global;
use v_design::{Design, Object, ObjectKind};
use vf_base::{NoMemory, ObjectId};

/// Whether an object is a net piece of a name.
fn is_piece_of(name: &[u8], object: &Object) -> bool
    ensures { result ≡ is_piece_of name.now (object_of object.now) }
{
    matches!(object.kind, ObjectKind::Net) && object.name.as_bytes() == name
}

/// How many net pieces a name has.
fn count_pieces(objects: &[Object], name: &[u8]) -> usize
    ensures { result ≡ count_by (λ object. is_piece_of name.now (object_of object)) objects.now }
{
    objects
        .iter()
        .filter(|object| is_piece_of(name, object))
        .count()
}

/// Whether a net of a name has several pieces.
fn has_pieces(design: &Design, name: &[u8]) -> bool
    ensures { result ≡ has_pieces (design_of design.now) name.now }
{
    1 < count_pieces(design.objects.as_slice(), name)
}

/// Adds the declared indexes of a piece: of one bit its index, else both.
fn append_bounds(alloc: Global, out: &mut Vec<u8>, high: u32, low: u32) -> Result<(), NoMemory>
    ensures { OnOk result (out.new.items ≡ out.old.items ++ bounds_text high low) }
{
    append_number(alloc, out, u64::from(high))?;
    if high != low {
        append(out, b":")?;
        append_number(alloc, out, u64::from(low))?;
    }
    Ok(())
}

/// Adds a net piece: its name, and its bounds where its net has several pieces.
fn append_piece(
    alloc: Global,
    out: &mut Vec<u8>,
    object: &Object,
    several: bool,
) -> Result<(), NoMemory>
    ensures { OnOk result (out.new.items ≡ out.old.items ++ piece_text several (object_of object.now)) }
{
    append(out, object.name.as_bytes())?;
    if several {
        append(out, b"[")?;
        append_bounds(alloc, out, object.high, object.low)?;
        append(out, b"]")?;
    }
    Ok(())
}

/// Adds a memory word: its name and its address.
fn append_word(alloc: Global, out: &mut Vec<u8>, object: &Object) -> Result<(), NoMemory>
    ensures { OnOk result (out.new.items ≡ out.old.items ++ (object_of object.now).name ++ between (decimal object.now.address)) }
{
    append(out, object.name.as_bytes())?;
    append(out, b"[")?;
    append_number(alloc, out, u64::from(object.address))?;
    append(out, b"]")?;
    Ok(())
}

/// Adds the name of an object that is there.
fn append_object_of(
    alloc: Global,
    out: &mut Vec<u8>,
    design: &Design,
    object: &Object,
) -> Result<(), NoMemory>
    ensures { OnOk result (out.new.items ≡ out.old.items ++ text_by_kind (design_of design.now) (object_of object.now) object.now.kind) }
{
    let name = object.name.as_bytes();
    match object.kind {
        ObjectKind::Var => append(out, name),
        ObjectKind::Word => append_word(alloc, out, object),
        ObjectKind::Net => append_piece(alloc, out, object, has_pieces(design, name)),
    }
}

/// Adds the name of an object.
pub fn append_object(
    alloc: Global,
    out: &mut Vec<u8>,
    design: &Design,
    object: ObjectId,
) -> Result<(), NoMemory>
    ensures { OnOk result (out.new.items ≡ out.old.items ++ object_text (design_of design.now) (object_number object)) }
{
    match design.objects.as_slice().get(object.0 as usize) {
        Some(object) => append_object_of(alloc, out, design, object),
        None => Ok(()),
    }
}
