// The modules of a text by their names.

ghost use Rattle.std.specs.Prelude.{◌≡◌, List, [], IfOk, option_map};
ghost use Rattle.vf_base.specs.Base.{source_place};
ghost use Rattle.v_tree.specs.Trees.{SourceModule};
ghost use Rattle.v_tree.specs.Views.{unit_of};
ghost use Rattle.v_names.specs.Faults.{DeclaredTwice, fault_at};
ghost use Rattle.v_elab.specs.Refusals.{Faulty};
ghost use Rattle.v_elab.specs.Walk.{module_named};
ghost use Rattle.v_elab.specs.Flat.{second_module};
ghost use Rattle.elab_walk.specs.ModuleViews.{AreModules, module_seen};

use module_scope::NameMap;
use std::alloc::Global;
use v_tree::{Module, Unit};
use vf_base::{NoMemory, Place};

/// The modules of a text, each found by the hash of its name; of two with one name the first counts.
#[derive(Drop)]
pub struct Modules<'u> {
    by_name: NameMap<'u, &'u Module>,
}

impl<'u> Modules<'u> {
    /// The modules of a text.
    pub fn new(alloc: Global, unit: &'u Unit) -> Result<Modules<'u>, NoMemory>
        ensures { IfOk result (λ modules. AreModules (unit_of unit.now).modules modules) }
    {
        let modules = unit.modules.as_slice();
        let mut by_name = NameMap::new(alloc);
        'modules: for place in (0..modules.len()).rev() {
            let module = &modules[place];
            by_name.put(module.name.as_bytes(), module)?;
        }
        Ok(Modules { by_name })
    }

    /// The module of a name, if there is one.
    pub fn named(&self, name: &[u8]) -> Option<&'u Module>
        ensures { (all : List SourceModule) → AreModules all self.now → option_map module_seen result ≡ module_named all name.now }
    {
        self.by_name.get(name)
    }
}

/// The place of the first module whose name a module before it has, if there is one.
pub fn second_module(alloc: Global, unit: &Unit) -> Result<Option<Place>, NoMemory>
    ensures { IfOk result (λ place. second_module [] (unit_of unit.now).modules ≡ option_map (λ p. Faulty (fault_at (source_place p) DeclaredTwice)) place) }
{
    let mut earlier = NameMap::new(alloc);
    'modules: for module in unit.modules.as_slice() {
        if earlier.get(module.name.as_bytes()).is_some() {
            return Ok(Some(module.place));
        }
        earlier.put(module.name.as_bytes(), module.place)?;
    }
    Ok(None)
}
