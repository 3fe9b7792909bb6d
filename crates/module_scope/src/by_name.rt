// The names that a module declares, found by their hashes, and the scope of a module whose names may be wrong.

ghost use Rattle.std.specs.Prelude.{◌≡◌, ℕ, List, IfOk, map, option_map};
ghost use Rattle.v_tree.specs.Views.{module_of};
ghost use Rattle.v_names.specs.Names.{of_name, names_declared, scope_of};
ghost use Rattle.module_scope.specs.Kept.{kept};
ghost use Rattle.module_scope.specs.Declarations.{declaration_seen, declarations_seen, listed};
ghost use Rattle.module_scope.specs.Givens.{given_parameter};
ghost use Rattle.module_scope.specs.Settled.{AreApart};

use crate::declaration::{Declaration, declarations_of};
use crate::given::{Given, given_values};
use crate::name_map::NameMap;
use crate::once::names_once;
use crate::settle;
use std::alloc::Global;
use v_names::Scope;
use v_tree::Module;
use vf_base::NoMemory;

/// The names that a module declares, each once, in text order, with what a second declaration of a port adds.
pub fn declared_names<'m>(
    alloc: Global,
    module: &'m Module,
) -> Result<Vec<Declaration<'m>>, NoMemory>
    ensures declared { IfOk result (λ list. declarations_seen list.items ≡ names_declared (module_of «module».now)) }
    ensures apart { IfOk result (λ list. AreApart (declarations_seen list.items)) }
{
    let all = declarations_of(alloc, module)?;
    let list = names_once(alloc, &all.list)?;
    Ok(list)
}

/// Each declared name with its declaration.
pub fn declarations_by_name<'m>(
    alloc: Global,
    declared: &[Declaration<'m>],
) -> Result<NameMap<'m, Declaration<'m>>, NoMemory>
    requires { AreApart (declarations_seen declared.now) }
    ensures { IfOk result (λ found. (name : List ℕ) → of_name name (declarations_seen declared.now) ≡ listed (option_map declaration_seen (kept found name))) }
{
    let mut found = NameMap::new(alloc);
    'declared: for declaration in declared {
        found.put(declaration.name.as_bytes(), *declaration)?;
    }
    Ok(found)
}

/// The scope of a module, with the parameters that an instance sets, whatever is wrong with the module's names.
pub fn scope_of_module<'m>(
    alloc: Global,
    module: &'m Module,
    given: &[Given],
) -> Result<Scope<'m>, NoMemory>
    ensures { IfOk result (λ scope. scope ≡ scope_of (module_of «module».now) (map given_parameter given.now)) }
{
    let values = given_values(alloc, given)?;
    let all = declarations_of(alloc, module)?;
    let declared = names_once(alloc, &all.list)?;
    let scope = settle::scope_of(alloc, &declared, &all.groups, &values)?;
    Ok(scope)
}
