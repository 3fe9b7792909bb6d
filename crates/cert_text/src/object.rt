// The text of an object, as a report names it.

ghost use Rattle.std.specs.Prelude.{◌≡◌, ◌++◌, IfOk, OnOk, nat_lt, count_by};
ghost use Rattle.std.specs.Option.{ForSome};
ghost use Rattle.std.specs.Str.{bytes_eq};
ghost use Rattle.v_design.specs.Plain.{object_of};
ghost use Rattle.v_design.specs.PlainDesigns.{design_of};
ghost use Rattle.vf_base.specs.Base.{object_number};
ghost use Rattle.grade_report.specs.Objects.{is_piece_of, has_pieces, between, bounds_text, object_text};
ghost use Rattle.cert_laws.specs.Claims.{is_object};
ghost use Rattle.cert_text.specs.Behind.{behind_name, prints_as};

use fault_list::{append, append_number};
use std::alloc::Global;
use v_design::{Design, Object, ObjectKind};
use vf_base::{NoMemory, ObjectId};

/// Whether an object is a net piece of a name.
fn is_piece_of(name: &[u8], object: &Object) -> bool
    ensures { result ≡ is_piece_of name.now (object_of object.now) }
{
    matches!(object.kind, ObjectKind::Net) && object.name.as_bytes() == name
}

/// How many net pieces a name has.
fn count_pieces(objects: &[Object], name: &[u8]) -> usize
    ensures { result ≡ count_by (λ object. is_piece_of name.now (object_of object)) objects.now }
{
    objects
        .iter()
        .filter(|object| is_piece_of(name, object))
        .count()
}

/// Whether a net of a name has several pieces.
fn has_pieces(design: &Design, name: &[u8]) -> bool
    ensures { result ≡ has_pieces (design_of design.now) name.now }
{
    1 < count_pieces(design.objects.as_slice(), name)
}

/// Writes indexes between brackets, of one bit its index, else both, in place of what stood there.
fn write_bounds(alloc: Global, text: &mut Vec<u8>, high: u32, low: u32) -> Result<(), NoMemory>
    ensures { OnOk result (text.new.items ≡ between (bounds_text high low)) }
{
    text.clear();
    append(text, b"[")?;
    append_number(alloc, text, u64::from(high))?;
    if high != low {
        append(text, b":")?;
        append_number(alloc, text, u64::from(low))?;
    }
    append(text, b"]")?;
    Ok(())
}

/// Whether a net of a name has several pieces: as `several` says, if it does, else all objects are looked through.
fn several_of(design: &Design, name: &[u8], several: Option<bool>) -> bool
    requires { ForSome several (λ several. several ≡ has_pieces (design_of design.now) name.now) }
    ensures { result ≡ has_pieces (design_of design.now) name.now }
{
    match several {
        Some(several) => several,
        None => has_pieces(design, name),
    }
}

/// Whether some bytes are what stands behind the name of a net piece; `several` is asked where there are none.
fn is_behind_piece(
    alloc: Global,
    design: &Design,
    text: &mut Vec<u8>,
    object: &Object,
    several: Option<bool>,
    bytes: &[u8],
) -> Result<bool, NoMemory>
    requires { ForSome several (λ several. several ≡ has_pieces (design_of design.now) ((object_of object.now).name ++ bytes.now)) }
    ensures { IfOk result (λ same. same ≡ bytes_eq bytes.now (behind_name (design_of design.now) (object_of object.now) ObjectKind.Net)) }
{
    if bytes.is_empty() {
        return Ok(!several_of(design, object.name.as_bytes(), several));
    }
    write_bounds(alloc, text, object.high, object.low)?;
    if bytes != text.as_slice() {
        return Ok(false);
    }
    Ok(has_pieces(design, object.name.as_bytes()))
}

/// Whether some bytes are what stands behind the name of an object in its text.
fn is_behind(
    alloc: Global,
    design: &Design,
    text: &mut Vec<u8>,
    object: &Object,
    several: Option<bool>,
    bytes: &[u8],
) -> Result<bool, NoMemory>
    requires { ForSome several (λ several. several ≡ has_pieces (design_of design.now) ((object_of object.now).name ++ bytes.now)) }
    ensures { IfOk result (λ same. same ≡ bytes_eq bytes.now (behind_name (design_of design.now) (object_of object.now) object.now.kind)) }
{
    match object.kind {
        ObjectKind::Var => Ok(bytes.is_empty()),
        ObjectKind::Word => {
            write_bounds(alloc, text, object.address, object.address)?;
            Ok(bytes == text.as_slice())
        }
        ObjectKind::Net => is_behind_piece(alloc, design, text, object, several, bytes),
    }
}

/// Whether an object prints as a word; `several` says, if it is known already, whether a net of this name has several pieces.
fn prints_as(
    alloc: Global,
    design: &Design,
    text: &mut Vec<u8>,
    object: &Object,
    several: Option<bool>,
    word: &[u8],
) -> Result<bool, NoMemory>
    requires { ForSome several (λ several. several ≡ has_pieces (design_of design.now) word.now) }
    ensures { IfOk result (λ same. same ≡ prints_as (design_of design.now) word.now (object_of object.now)) }
{
    match word.strip_prefix(object.name.as_bytes()) {
        Some(bytes) => is_behind(alloc, design, text, object, several, bytes),
        None => Ok(false),
    }
}

/// Whether a word is the text of an object of the design.
pub fn is_object(alloc: Global, design: &Design, word: &[u8]) -> Result<bool, NoMemory>
    ensures { IfOk result (λ named. named ≡ is_object (design_of design.now) word.now) }
{
    let objects = design.objects.as_slice();
    let several = has_pieces(design, word);
    let mut text = Vec::new(alloc);
    'objects: for object in objects {
        if prints_as(alloc, design, &mut text, object, Some(several), word)? {
            return Ok(true);
        }
    }
    Ok(false)
}

/// Whether an object that is there prints as a word. All objects are looked through only for a net piece whose name, alone or with its bounds, is the word.
fn prints_found(
    alloc: Global,
    design: &Design,
    object: &Object,
    word: &[u8],
) -> Result<bool, NoMemory>
    ensures { IfOk result (λ same. same ≡ prints_as (design_of design.now) word.now (object_of object.now)) }
{
    let mut text = Vec::new(alloc);
    let same = prints_as(alloc, design, &mut text, object, None, word)?;
    Ok(same)
}

/// Whether the object of a number prints as a word; one that isn't there prints as none.
pub fn prints_object(
    alloc: Global,
    design: &Design,
    object: ObjectId,
    word: &[u8],
) -> Result<bool, NoMemory>
    ensures { IfOk result (λ same. same ≡ bytes_eq word.now (object_text (design_of design.now) (object_number object))) }
{
    match design.objects.as_slice().get(object.0 as usize) {
        Some(found) => prints_found(alloc, design, found, word),
        None => Ok(word.is_empty()),
    }
}
