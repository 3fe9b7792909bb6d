// The first thing that is wrong with an item.

ghost use Rattle.std.specs.Prelude.{◌≡◌, OnOk, IfOk, map, flat_map, option_map};
ghost use Rattle.v_tree.specs.Trees.{SourceParameter, SourceReg, ParameterItem, PortItem};
ghost use Rattle.v_tree.specs.Views.{content_of, parameter_of, parameters_of, ports_of, reg_of, item_of};
ghost use Rattle.v_names.specs.Faults.{first_fault};
ghost use Rattle.v_names.specs.FaultViews.{fault_of};
ghost use Rattle.v_elab.specs.ItemFaults.{size_faults, content_size_faults, item_faults};
ghost use Rattle.name_checks.specs.Noted.{noted};

use crate::assigned::{note_assignments, note_gates, note_wires};
use crate::sizes::{note_bounds, note_declared_range, note_size};
use crate::statements::note_statement;
use name_checks::FirstFault;
use std::alloc::Global;
use v_names::{Found, Scope};
use v_tree::{Content, Item, Param, Params, Ports, Reg};
use vf_base::NoMemory;

/// Notes what is wrong with the sizes of the values of parameters.
fn note_values(
    alloc: Global,
    scope: &Scope<'_>,
    params: &[Param],
    first: &mut FirstFault,
) -> Result<(), NoMemory>
    ensures { OnOk result (first.new ≡ noted first.old (flat_map (λ (p : SourceParameter). size_faults scope.now p.value) (map parameter_of params.now))) }
{
    'params: for param in params {
        note_size(alloc, scope, &param.value, first)?;
    }
    Ok(())
}

/// Notes what is wrong with the sizes of what stands behind the name of a variable.
fn note_content(
    alloc: Global,
    scope: &Scope<'_>,
    content: &Content,
    first: &mut FirstFault,
) -> Result<(), NoMemory>
    ensures { OnOk result (first.new ≡ noted first.old (content_size_faults scope.now (content_of content.now))) }
{
    match content {
        Content::Nothing => Ok(()),
        Content::First(value) => {
            note_size(alloc, scope, value, first)?;
            Ok(())
        }
        Content::Memory(addresses) => {
            note_bounds(alloc, scope, addresses, first)?;
            Ok(())
        }
    }
}

/// Notes what is wrong with the sizes of the contents of some variables.
fn note_regs(
    alloc: Global,
    scope: &Scope<'_>,
    regs: &[Reg],
    first: &mut FirstFault,
) -> Result<(), NoMemory>
    ensures { OnOk result (first.new ≡ noted first.old (flat_map (λ (r : SourceReg). content_size_faults scope.now r.content) (map reg_of regs.now))) }
{
    'regs: for reg in regs {
        note_content(alloc, scope, &reg.content, first)?;
    }
    Ok(())
}

/// Notes what is wrong with parameters that are declared together.
fn note_params(
    alloc: Global,
    scope: &Scope<'_>,
    group: &Params,
    first: &mut FirstFault,
) -> Result<(), NoMemory>
    ensures { OnOk result (first.new ≡ noted first.old (item_faults scope.now (ParameterItem (parameters_of group.now)))) }
{
    note_declared_range(alloc, scope, &group.range, first)?;
    note_values(alloc, scope, group.params.as_slice(), first)?;
    Ok(())
}

/// Notes what is wrong with an item.
fn note_item(
    alloc: Global,
    scope: &Scope<'_>,
    item: &Item,
    first: &mut FirstFault,
) -> Result<(), NoMemory>
    ensures { OnOk result (first.new ≡ noted first.old (item_faults scope.now (item_of item.now))) }
{
    match item {
        Item::Params(group) => {
            note_params(alloc, scope, group, first)?;
            Ok(())
        }
        Item::Ports(group) => {
            note_declared_range(alloc, scope, &group.range, first)?;
            Ok(())
        }
        Item::Wire { range, wires, .. } => {
            note_declared_range(alloc, scope, range, first)?;
            note_wires(alloc, scope, wires.as_slice(), first)?;
            Ok(())
        }
        Item::Reg { range, regs, .. } => {
            note_declared_range(alloc, scope, range, first)?;
            note_regs(alloc, scope, regs.as_slice(), first)?;
            Ok(())
        }
        Item::Integer { regs, .. } => {
            note_regs(alloc, scope, regs.as_slice(), first)?;
            Ok(())
        }
        Item::Assign { assignments, .. } => {
            note_assignments(alloc, scope, assignments.as_slice(), first)?;
            Ok(())
        }
        Item::Gate { gates, .. } => {
            note_gates(alloc, scope, gates.as_slice(), first)?;
            Ok(())
        }
        Item::Instance { .. } => Ok(()),
        Item::Initial { body, .. } => {
            note_statement(alloc, scope, body, first)?;
            Ok(())
        }
        Item::Always { body, .. } => {
            note_statement(alloc, scope, body, first)?;
            Ok(())
        }
    }
}

/// The first thing that is wrong with the sizes and the kinds of names of an item, by its place in the text and at one place by its reason;
/// none where nothing is. Nothing is said of instances, whose connections are looked at with their modules.
pub fn item_fault(alloc: Global, scope: &Scope<'_>, item: &Item) -> Result<Option<Found>, NoMemory>
    ensures { IfOk result (λ found. option_map fault_of found ≡ first_fault (item_faults scope.now (item_of item.now))) }
{
    let mut first = FirstFault::new();
    note_item(alloc, scope, item, &mut first)?;
    Ok(first.found())
}

/// The first thing that is wrong with the sizes of parameters that are declared together.
pub fn params_fault(
    alloc: Global,
    scope: &Scope<'_>,
    group: &Params,
) -> Result<Option<Found>, NoMemory>
    ensures { IfOk result (λ found. option_map fault_of found ≡ first_fault (item_faults scope.now (ParameterItem (parameters_of group.now)))) }
{
    let mut first = FirstFault::new();
    note_params(alloc, scope, group, &mut first)?;
    Ok(first.found())
}

/// The first thing that is wrong with the range of ports that are declared together.
pub fn ports_fault(
    alloc: Global,
    scope: &Scope<'_>,
    group: &Ports,
) -> Result<Option<Found>, NoMemory>
    ensures { IfOk result (λ found. option_map fault_of found ≡ first_fault (item_faults scope.now (PortItem (ports_of group.now)))) }
{
    let mut first = FirstFault::new();
    note_declared_range(alloc, scope, &group.range, &mut first)?;
    Ok(first.found())
}
