// The names of all instances.

ghost use Rattle.std.specs.Prelude.{◌≡◌, IfOk, [], map};
ghost use Rattle.vf_base.specs.Base.{object_number};
ghost use Rattle.v_elab.specs.Drivers.{signals_of};
ghost use Rattle.v_design.specs.Plain.{vector_of, memory_of};
ghost use Rattle.elab_parts.specs.PartViews.{parts_of};
ghost use Rattle.elab_objects.specs.ObjectViews.{held_objects};
ghost use Rattle.object_names.specs.NameTables.{AreNamesOf, vector_by, memory_by, memory_found, words_by};

use crate::tables::{list_memories, list_pieces, objects_in, range_in};
use elab_objects::HeldObject;
use elab_parts::{Part, WalkedMemory};
use elab_wires::Signals;
use key_index::Grouped;
use std::alloc::Global;
use std::marker::Model;
use v_design::{MemoryRef, PieceRef, VectorRef};
use vf_base::{NoMemory, ObjectId, Seq};

/// What the names of all instances mean in objects. Contracts see the nets and variables of the walk, its memories, and the pieces of its objects, each of these
/// under the name that it is found by.
#[derive(Drop)]
pub struct ObjectNames<'p> {
    signals: &'p Signals<'p>,
    memories: Grouped<'p, &'p WalkedMemory>,
    pieces: Grouped<'p, PieceRef>,
}

impl<'p> Model for ObjectNames<'p> {
    ghost use Rattle.object_names.specs.NameTables.{NameTables};

    ghost Value = { NameTables };

    ghost use Rattle.object_names.specs.NamesInside.{tables_in};

    ghost view = { tables_in };
}

/// What a name means that is no memory.
fn no_words(alloc: Global) -> MemoryRef
    ensures { memory_of result ≡ memory_found [] None }
{
    MemoryRef {
        first: 0,
        last: 0,
        width: 0,
        words: Seq::from_vec(Vec::new(alloc)),
    }
}

impl<'p> ObjectNames<'p> {
    /// The names of some parts and their objects.
    pub fn new(
        alloc: Global,
        signals: &'p Signals<'p>,
        parts: &'p [Part<'_>],
        objects: &'p [HeldObject],
    ) -> Result<ObjectNames<'p>, NoMemory>
        requires { signals.now ≡ signals_of (parts_of parts.now) }
        ensures { IfOk result (λ names. AreNamesOf (parts_of parts.now) (held_objects objects.now) names) }
    {
        let memories = Grouped::new(alloc, list_memories(alloc, parts)?)?;
        let pieces = Grouped::new(alloc, list_pieces(alloc, objects)?)?;
        Ok(ObjectNames {
            signals,
            memories,
            pieces,
        })
    }

    /// The net or variable of a hierarchical name.
    pub fn vector(&self, alloc: Global, name: &[u8]) -> Result<VectorRef, NoMemory>
        ensures { IfOk result (λ v. vector_of v ≡ vector_by self.now name.now) }
    {
        let range = range_in(self.signals.named(name));
        let pieces = self.pieces.all(alloc, self.signals.outermost(name))?;
        Ok(VectorRef {
            high: range.high,
            low: range.low,
            pieces: Seq::from_vec(pieces),
        })
    }

    /// The memory of a hierarchical name, one without words where there is none.
    pub fn memory(&self, alloc: Global, name: &[u8]) -> Result<MemoryRef, NoMemory>
        ensures { IfOk result (λ m. memory_of m ≡ memory_by self.now name.now) }
    {
        match self.memories.first(name) {
            None => Ok(no_words(alloc)),
            Some(memory) => {
                let words = self.words(alloc, memory.name.as_bytes())?;
                Ok(MemoryRef {
                    first: memory.first,
                    last: memory.last,
                    width: memory.range.width(),
                    words,
                })
            }
        }
    }

    /// The words of a memory by its hierarchical name, by address.
    fn words(&self, alloc: Global, name: &[u8]) -> Result<Seq<ObjectId>, NoMemory>
        ensures { IfOk result (λ words. map object_number words ≡ words_by self.now.pieces name.now) }
    {
        let pieces = self.pieces.all(alloc, name)?;
        let words = objects_in(alloc, &pieces)?;
        Ok(Seq::from_vec(words))
    }
}
