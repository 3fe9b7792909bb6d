// The scope of a module, or the first thing that is wrong with its names.

ghost use Rattle.std.specs.Prelude.{◌≡◌, [], ◌++◌, IfOk, MatchResult, Ok, map, flat_map, option_map};
ghost use Rattle.v_tree.specs.Views.{module_of, heads_of, parameters_of, item_of};
ghost use Rattle.v_names.specs.Faults.{first_fault};
ghost use Rattle.v_names.specs.FaultViews.{fault_of};
ghost use Rattle.v_names.specs.Names.{names, twice_faults, parameters_faults, heads_faults, item_name_faults};
ghost use Rattle.module_scope.specs.Declarations.{declarations_seen};
ghost use Rattle.module_scope.specs.Groups.{AreGrouped};
ghost use Rattle.module_scope.specs.Givens.{given_parameter};
ghost use Rattle.module_scope.specs.NameFaults.{IsNameFault};

use crate::declaration::{Declaration, declarations_of};
use crate::given::{Given, given_values};
use crate::once::names_once;
use crate::settle::scope_of;
use crate::twice::{note_all_twice, note_ports};
use name_checks::{Bounds, FirstFault, note_items, note_parameter_groups};
use std::alloc::Global;
use thiserror::Error;
use v_names::{Found, Scope};
use v_tree::Module;
use vf_base::NoMemory;

/// Why a module has no scope.
#[derive(Clone, Copy, Debug, PartialEq, Eq, Error)]
pub enum NameFault {
    /// The first thing that is wrong with its names: by its place in the text, and at one place by its reason.
    #[error("a name of the module is wrong")]
    Found(Found),
    #[error("out of memory")]
    NoMemory,
}

impl From<NoMemory> for NameFault {
    ghost use Rattle.std.specs.Prelude.{◌≡◌};
    ghost use Rattle.module_scope.specs.declared.module_scope.NameFault.TheVariants.{NoMemory as none};

    ghost from_gives = { λ _ fault. fault ≡ none };

    fn from(_: NoMemory) -> Self {
        NameFault::NoMemory
    }
}

/// The first thing that is wrong with the names of a module in a scope, if there is one.
fn module_fault(
    alloc: Global,
    scope: &Scope<'_>,
    module: &Module,
    declarations: &[Declaration<'_>],
    groups: &[Bounds<'_>],
) -> Result<Option<Found>, NoMemory>
    requires { AreGrouped groups.now declarations.now }
    ensures { IfOk result (λ found. option_map fault_of found ≡ first_fault (twice_faults scope.now [] (declarations_seen declarations.now) ++ (flat_map
        (parameters_faults scope.now) (map parameters_of «module».now.params) ++ (heads_faults scope.now (heads_of «module».now.ports) ++ flat_map
        (item_name_faults scope.now) (map item_of «module».now.items))))) }
{
    let mut first = FirstFault::new();
    note_all_twice(alloc, scope, declarations, groups, &mut first)?;
    note_parameter_groups(alloc, scope, module.params.as_slice(), &mut first)?;
    note_ports(alloc, scope, &module.ports, &mut first)?;
    note_items(alloc, scope, module.items.as_slice(), &mut first)?;
    Ok(first.found())
}

/// The scope of a module, with the parameters that an instance sets, or the first thing that is wrong with the module's names.
///
/// Each name must be declared, and once, except a port that is declared once more as a `reg` or a `wire` of the same range. Where a constant
/// must stand, each name must be a parameter's, and the value must be one of its place. A parameter that rests on itself has no value. The
/// names of other modules, and those before a connection's expression, aren't looked at.
pub fn names<'m>(alloc: Global, module: &'m Module, given: &[Given]) -> Result<Scope<'m>, NameFault>
    ensures { MatchResult result (λ scope. names (module_of «module».now) (map given_parameter given.now) ≡ Ok scope)
        (λ fault. IsNameFault (names (module_of «module».now) (map given_parameter given.now)) fault) }
{
    let values = given_values(alloc, given)?;
    let declarations = declarations_of(alloc, module)?;
    let declared = names_once(alloc, &declarations.list)?;
    let scope = scope_of(alloc, &declared, &declarations.groups, &values)?;
    let found = module_fault(
        alloc,
        &scope,
        module,
        &declarations.list,
        &declarations.groups,
    )?;
    match found {
        None => Ok(scope),
        Some(found) => Err(NameFault::Found(found)),
    }
}
