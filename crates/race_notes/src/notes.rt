// The notes of a phase.

ghost use Rattle.std.specs.Prelude.{◌≡◌, ◌↔◌, ℕ, [], map, OnOk, IfSome, IsTrue};
ghost use Rattle.std.specs.Fn.{FnReturnsAt};
ghost use Rattle.vf_base.specs.Base.{object_number};
ghost use Rattle.block_told.specs.Tells.{noted_seen};
ghost use Rattle.race_notes.specs.Notes.{note_at, HasNoNotes};
ghost use Rattle.race_notes.specs.Access.{IsToldLike};
ghost use Rattle.race_notes.specs.Told.{NotesBlock};
ghost use Rattle.race_notes.specs.Spans.{IsWithinSpan};

use crate::access::{list_written, note_accesses, note_at};
use crate::note::{ObjectNote, OwnSpan};
use crate::spans::span_end;
use block_told::BlockTold;
use causal_monitor::Noted;
use std::alloc::Global;
use std::collections::HashMap;
use std::marker::Model;
use vf_base::{NoMemory, ObjectId};

/// What is noted of the own blocks of a phase, which contracts see as the phase's first moment, a note of each object that they access, which objects these are, the objects
/// that blocks of either machine wrote, and the moments of the blocks.
#[derive(Drop)]
pub struct RaceNotes {
    first: u32,
    objects: HashMap<u32, ObjectNote>,
    noted: Vec<ObjectId>,
    changed: Vec<ObjectId>,
    spans: Vec<OwnSpan>,
}

impl Model for RaceNotes {
    ghost use Rattle.std.specs.Prelude.{map};
    ghost use Rattle.vf_base.specs.Base.{object_number};
    ghost use Rattle.race_notes.specs.Notes.{NotesKept};

    ghost Value = { NotesKept };

    ghost view = { λ n. record { first = n.first; objects = n.objects.entries; noted = map object_number n.noted.items; changed = map object_number n.changed.items; spans = n.spans.items } };
}

/// For so many objects, writes and blocks there is room with the first block that is noted.
const FIRST_ROOM: usize = 12;

/// Makes room in lists for the first block that is noted.
fn make_room(
    noted: &mut Vec<ObjectId>,
    changed: &mut Vec<ObjectId>,
    spans: &mut Vec<OwnSpan>,
) -> Result<(), NoMemory>
    ensures noted { OnOk result (noted.new.items ≡ noted.old.items) }
    ensures changed { OnOk result (changed.new.items ≡ changed.old.items) }
    ensures spans { OnOk result (spans.new.items ≡ spans.old.items) }
{
    if spans.capacity() > 0 {
        return Ok(());
    }
    noted.reserve(FIRST_ROOM)?;
    changed.reserve(FIRST_ROOM)?;
    spans.reserve(FIRST_ROOM)?;
    Ok(())
}

impl RaceNotes {
    /// Notes in which nothing is noted.
    pub fn new(alloc: Global) -> RaceNotes
        ensures { HasNoNotes 0 result }
    {
        RaceNotes {
            first: 0,
            objects: HashMap::new(alloc),
            noted: Vec::new(alloc),
            changed: Vec::new(alloc),
            spans: Vec::new(alloc),
        }
    }

    /// A phase begins with a moment: nothing is noted any more. The memory stays.
    pub fn clear(&mut self, first: u32)
        ensures { HasNoNotes first self.new }
    {
        self.first = first;
        self.objects.clear();
        self.noted.clear();
        self.changed.clear();
        self.spans.clear();
    }

    /// Notes a block of the faulty machine's own by what it tells, beside which the good machine's block has these moments and wrote these objects. Of each access it is
    /// told whether the good machine's block is known to have its like.
    ///
    /// # Errors
    ///
    /// Want of memory. The notes are to be cleared then.
    pub fn note<F: Fn(&Noted) -> bool>(
        &mut self,
        told: &BlockTold,
        span: OwnSpan,
        written: &[ObjectId],
        has_like: F,
    ) -> Result<(), NoMemory>
        requires { F.IsAlwaysCallable has_like }
        ensures { OnOk result (NotesBlock (IsToldLike (FnReturnsAt F.Fn has_like)) (map object_number written.now)
            (record { begins = span.begins; ends = span.ends; seen = map noted_seen told.now.accesses.items }) self.old self.new) }
    {
        let accesses = told.accesses.as_slice();
        make_room(&mut self.noted, &mut self.changed, &mut self.spans)?;
        note_accesses(
            &mut self.objects,
            &mut self.noted,
            accesses,
            span.begins,
            has_like,
        )?;
        list_written(&mut self.changed, accesses)?;
        self.changed.extend_from_slice(written)?;
        self.spans.push(span)?;
        Ok(())
    }

    /// Whether no block is noted.
    pub fn is_empty(&self) -> bool
        ensures { IsTrue result ↔ (self.now.spans ≡ []) }
    {
        self.spans.is_empty()
    }

    /// The moment with which the phase begins.
    pub fn first(&self) -> u32
        ensures { result ≡ self.now.first }
    {
        self.first
    }

    /// The objects of which something is noted, each once.
    pub fn noted(&self) -> &[ObjectId]
        ensures { map object_number result.now ≡ self.now.noted }
    {
        &self.noted
    }

    /// What is noted of an object.
    pub fn note_of(&self, object: ObjectId) -> ObjectNote
        ensures { result ≡ note_at self.now.objects (object_number object) }
    {
        note_at(&self.objects, object)
    }

    /// The objects that the blocks of either machine wrote, as often as they are told to.
    pub fn changed(&self) -> &[ObjectId]
        ensures { map object_number result.now ≡ self.now.changed }
    {
        &self.changed
    }

    /// The moment at which that block of the good machine's ends, among those beside own blocks, in which a moment lies; none where it lies in none.
    pub fn span_end(&self, moment: u32) -> Option<u32>
        ensures { IfSome result (IsWithinSpan self.now.spans moment) }
    {
        span_end(&self.spans, moment)
    }
}
