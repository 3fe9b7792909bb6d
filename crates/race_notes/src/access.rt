// Accesses noted one by one.

ghost use Rattle.std.specs.Prelude.{◌≡◌, ◌++◌, ℕ, false, true, cond, map, Option, OnOk};
ghost use Rattle.std.specs.Fn.{FnReturnsAt};
ghost use Rattle.four_value.specs.Values.{LogicValue};
ghost use Rattle.v_design.specs.Logs.{is_write};
ghost use Rattle.v_design.specs.Trees.{Entry};
ghost use Rattle.vf_base.specs.Base.{object_number};
ghost use Rattle.vf_base.specs.Lists.{has};
ghost use Rattle.causal_monitor.specs.Notes.{act_of};
ghost use Rattle.block_told.specs.Tells.{noted_seen};
ghost use Rattle.race_notes.specs.Notes.{is_reading, note_at, empty_note};
ghost use Rattle.race_notes.specs.Access.{with_access, updated, IsToldLike, AreNoted, written_in, ListsNoted, KeepsListed};

use crate::note::ObjectNote;
use causal_monitor::Noted;
use std::collections::HashMap;
use vf_base::{AccessKind, NoMemory, ObjectId};

/// An object of which nothing is noted.
fn empty_note() -> ObjectNote
    ensures { result ≡ empty_note }
{
    ObjectNote {
        suspect: false,
        met: false,
        read: false,
        written: false,
        again: false,
        since: None,
    }
}

/// What is noted of an object.
pub(crate) fn note_at(objects: &HashMap<u32, ObjectNote>, object: ObjectId) -> ObjectNote
    ensures { result ≡ note_at objects.now.entries (object_number object) }
{
    objects.get(&object.0).copied().unwrap_or(empty_note())
}

/// Notes something of an object in place of what was noted.
fn put_note(
    objects: &mut HashMap<u32, ObjectNote>,
    object: ObjectId,
    note: ObjectNote,
) -> Result<(), NoMemory>
    ensures { OnOk result ((other : ℕ) → note_at objects.new.entries other ≡ updated (note_at objects.old.entries) (object_number object) note other) }
{
    objects.insert(object.0, note)?;
    Ok(())
}

/// Whether an access of a kind reads its object.
fn is_read(kind: AccessKind) -> bool
    ensures { (old new : Option LogicValue) (entry : Entry) → result ≡ is_reading (act_of kind old new entry) }
{
    matches!(kind, AccessKind::Read)
}

/// Whether it writes it.
fn is_write(kind: AccessKind) -> bool
    ensures { (old new : Option LogicValue) (entry : Entry) → result ≡ is_write (act_of kind old new entry) }
{
    matches!(kind, AccessKind::Write)
}

/// What is noted of an object after one access more, in a block that begins with a moment, which has its like in the good machine's or hasn't.
fn with_access(note: ObjectNote, kind: AccessKind, like: bool, begins: u32) -> ObjectNote
    ensures { (old new : Option LogicValue) (entry : Entry) → result ≡ with_access begins like (act_of kind old new entry) note }
{
    let reads = is_read(kind);
    let writes = is_write(kind);
    ObjectNote {
        suspect: note.suspect | !like,
        met: note.met | like,
        read: note.read | reads,
        written: note.written | writes,
        again: note.again | ((note.read | note.written) & (reads | writes)),
        since: note.since.or(Some(begins)),
    }
}

/// Puts an object behind others where nothing was noted of it yet.
fn list_object(
    noted: &mut Vec<ObjectId>,
    object: ObjectId,
    note: ObjectNote,
) -> Result<(), NoMemory>
    ensures { OnOk result (ListsNoted (object_number object) note (map object_number noted.old.items) (map object_number noted.new.items)) }
{
    if note.since.is_none() {
        noted.push(object)?;
    }
    Ok(())
}

/// Notes an access of a block that begins with a moment, which has its like in the good machine's or hasn't.
fn note_access(
    objects: &mut HashMap<u32, ObjectNote>,
    noted: &mut Vec<ObjectId>,
    access: &Noted,
    like: bool,
    begins: u32,
) -> Result<(), NoMemory>
    ensures objects { OnOk result ((other : ℕ) → note_at objects.new.entries other
        ≡ updated (note_at objects.old.entries) (noted_seen access.now).object (with_access begins like (noted_seen access.now).act (note_at objects.old.entries (noted_seen access.now).object)) other) }
    ensures noted { OnOk result (ListsNoted (noted_seen access.now).object (note_at objects.old.entries (noted_seen access.now).object)
        (map object_number noted.old.items) (map object_number noted.new.items)) }
{
    let object = access.access.object;
    let note = note_at(objects, object);
    list_object(noted, object, note)?;
    put_note(
        objects,
        object,
        with_access(note, access.access.kind, like, begins),
    )
}

/// Notes the accesses of a block that begins with a moment. Of each it is told whether the good machine's block is known to have its like.
pub(crate) fn note_accesses<F: Fn(&Noted) -> bool>(
    objects: &mut HashMap<u32, ObjectNote>,
    noted: &mut Vec<ObjectId>,
    accesses: &[Noted],
    begins: u32,
    has_like: F,
) -> Result<(), NoMemory>
    requires { F.IsAlwaysCallable has_like }
    ensures objects { OnOk result (AreNoted (IsToldLike (FnReturnsAt F.Fn has_like)) begins (map noted_seen accesses.now) (note_at objects.old.entries) (note_at objects.new.entries)) }
    ensures noted { OnOk result (KeepsListed (note_at objects.old.entries) (note_at objects.new.entries) (map object_number noted.old.items) (map object_number noted.new.items)) }
{
    'accesses: for place in 0..accesses.len() {
        let access = accesses[place];
        let like = has_like(&access);
        note_access(objects, noted, &access, like, begins)?;
    }
    Ok(())
}

/// Puts the objects that accesses write behind others, as often as they do.
pub(crate) fn list_written(written: &mut Vec<ObjectId>, accesses: &[Noted]) -> Result<(), NoMemory>
    ensures { OnOk result (map object_number written.new.items ≡ map object_number written.old.items ++ written_in (map noted_seen accesses.now)) }
{
    'accesses: for access in accesses {
        if is_write(access.access.kind) {
            written.push(access.access.object)?;
        }
    }
    Ok(())
}
