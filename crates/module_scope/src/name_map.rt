// What is kept of names.

ghost use Rattle.std.specs.Prelude.{◌≡◌, ℕ, List, [], cond, Some, OnOk};
ghost use Rattle.v_tree.specs.Trees.{same_name};
ghost use Rattle.module_scope.specs.Kept.{kept};

use indexmap::IndexMap;
use std::alloc::Global;
use std::marker::Model;
use vf_base::NoMemory;

/// What is kept of each of some names, found by the name's hash. Contracts see the names with it.
#[derive(Drop)]
pub struct NameMap<'m, V: Copy + Drop> {
    entries: IndexMap<&'m [u8], V>,
}

impl<'m, V: Copy + Drop> Model for NameMap<'m, V> {
    ghost use Rattle.std.specs.Prelude.{List, ℕ};
    ghost use Rattle.module_scope.specs.Kept.{kept_pairs};

    ghost Value = { List (List ℕ × V) };

    ghost view = { λ m. kept_pairs m.entries.entries };
}

impl<'m, V: Copy + Drop> NameMap<'m, V> {
    /// A map in which nothing is kept, which takes no memory.
    pub fn new(alloc: Global) -> NameMap<'m, V>
        ensures { result ≡ [] }
    {
        NameMap {
            entries: IndexMap::new(alloc),
        }
    }

    /// What is kept of a name.
    pub fn get(&self, name: &[u8]) -> Option<V>
        ensures { result ≡ kept self.now name.now }
    {
        self.entries.get(name).copied()
    }

    /// Keeps something of a name, in place of what was kept of it.
    pub fn put(&mut self, name: &'m [u8], value: V) -> Result<(), NoMemory>
        ensures { OnOk result ((other : List ℕ) → kept self.new other ≡ cond (same_name name.now other) (Some value) (kept self.old other)) }
    {
        match self.entries.insert(name, value) {
            Ok(_) => Ok(()),
            Err(_) => Err(NoMemory),
        }
    }
}
