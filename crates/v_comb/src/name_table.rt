// Names by their places.

ghost use Rattle.std.specs.Prelude.{◌≡◌, [], length, OnOk, IfOk};
ghost use Rattle.std.specs.List.{list_all};
ghost use Rattle.v_comb.specs.NameTables.{with_name, place_of_name};
ghost use Rattle.v_tree.specs.Trees.{has_name};

use indexmap::IndexSet;
use std::alloc::Global;
use std::marker::Model;
use vf_base::{NoMemory, Seq, Text};

/// Names in the order in which they were put in, each once. Contracts see the list of them; a name is found by its hash.
#[derive(Drop)]
pub struct NameTable<'t> {
    names: IndexSet<&'t [u8]>,
}

impl<'t> Model for NameTable<'t> {
    ghost use Rattle.std.specs.Prelude.{List, ℕ};

    ghost Value = { List (List ℕ) };

    ghost use Rattle.v_comb.specs.NameTables.{names_of};

    ghost view = { names_of };
}

impl<'t> NameTable<'t> {
    /// A table without names, which takes no memory.
    pub fn new(alloc: Global) -> NameTable<'t>
        ensures { result ≡ [] }
    {
        NameTable {
            names: IndexSet::new(alloc),
        }
    }

    /// How many names there are.
    pub fn len(&self) -> usize
        ensures { result ≡ length self.now }
    {
        self.names.len()
    }

    /// Puts a name in, unless it is there.
    pub fn put(&mut self, name: &'t [u8]) -> Result<(), NoMemory>
        ensures { OnOk result (self.new ≡ with_name self.old name.now) }
    {
        match self.names.insert(name) {
            Ok(_) => Ok(()),
            Err(_) => Err(NoMemory),
        }
    }

    /// The place of a name, if it is there.
    pub fn place_of(&self, name: &[u8]) -> Option<usize>
        ensures { result ≡ place_of_name self.now name.now }
    {
        self.names.get_index_of(name)
    }

    /// Whether a name is there.
    pub fn has(&self, name: &[u8]) -> bool
        ensures { result ≡ has_name self.now name.now }
    {
        self.names.contains(name)
    }

    /// Whether all names are in another table too.
    pub fn are_among(&self, other: &NameTable<'_>) -> bool
        ensures { result ≡ list_all (has_name other.now) self.now }
    {
        'names: for name in self.names.as_slice() {
            if !other.has(name) {
                return false;
            }
        }
        true
    }

    /// The names as texts, in order.
    pub fn texts(&self, alloc: Global) -> Result<Seq<Text>, NoMemory>
        ensures { IfOk result (λ texts. texts ≡ self.now) }
    {
        let mut texts = Vec::new(alloc);
        for name in self.names.as_slice() {
            texts.push(Text::from_bytes(alloc, name)?)?;
        }
        Ok(Seq::from_vec(texts))
    }
}
