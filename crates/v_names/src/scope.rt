// The names of a module.

ghost use Rattle.std.specs.Prelude.{◌≡◌, ℕ, List, [], ◌∷◌, ◌++◌, None, option_map, OnOk};
ghost use Rattle.v_tree.specs.Trees.{same_name};
ghost use Rattle.v_names.specs.Scopes.{looked_up, entry_if};
ghost use Rattle.v_names.specs.ScopeViews.{entry_of};

use crate::entry::Entry;
use indexmap::IndexMap;
use std::alloc::Global;
use std::marker::Model;
use vf_base::{NoMemory, Text};

/// The names of a module with what they mean, each once, in the order of their declarations. A name is found by its hash.
#[derive(Drop)]
pub struct Scope<'m> {
    entries: IndexMap<&'m [u8], Entry>,
}

impl<'m> Model for Scope<'m> {
    ghost use Rattle.std.specs.Prelude.{List};
    ghost use Rattle.v_names.specs.Scopes.{ScopeName};

    ghost Value = { List ScopeName };

    ghost use Rattle.v_names.specs.ScopeViews.{scope_names};

    ghost view = { scope_names };
}

impl<'m> Scope<'m> {
    /// A scope without names, which takes no memory.
    pub fn new(alloc: Global) -> Scope<'m>
        ensures { result ≡ [] }
    {
        Scope {
            entries: IndexMap::new(alloc),
        }
    }

    /// What a name means; none where it isn't declared.
    pub fn lookup(&self, name: &Text) -> Option<Entry>
        ensures { option_map entry_of result ≡ looked_up self.now name.now }
    {
        self.entries.get(name.as_bytes()).copied()
    }

    /// Puts in a name that isn't declared yet, behind the others.
    pub fn declare(&mut self, name: &'m [u8], entry: Entry) -> Result<(), NoMemory>
        requires { looked_up self.old name.now ≡ None }
        ensures { OnOk result (self.new ≡ self.old ++ record { name = name.now; entry = entry_of entry } ∷ []) }
    {
        match self.entries.insert(name, entry) {
            Ok(_) => Ok(()),
            Err(_) => Err(NoMemory),
        }
    }

    /// Gives a name this meaning, in place of what it meant.
    pub fn put(&mut self, name: &'m [u8], meaning: Entry) -> Result<(), NoMemory>
        ensures { OnOk result ((other : List ℕ) → looked_up self.new other ≡ entry_if (same_name name.now other) (entry_of meaning) (looked_up self.old other)) }
    {
        match self.entries.insert(name, meaning) {
            Ok(_) => Ok(()),
            Err(_) => Err(NoMemory),
        }
    }
}
