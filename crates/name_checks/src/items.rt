// What is wrong with the names of items.

ghost use Rattle.std.specs.Prelude.{◌≡◌, ◌≤◌, ◌++◌, OnOk, map, flat_map};
ghost use Rattle.v_tree.specs.Trees.{SourceReg, SourceWire, SourceAssignment, SourceConnection, SourceInstance, SourcePorts};
ghost use Rattle.v_tree.specs.Views.{expression_of, range_in, content_of, reg_of, wire_of, assignment_of, gate_of, connection_of, instance_of, parameter_of, parameters_of, ports_of, item_of};
ghost use Rattle.v_names.specs.Constants.{most_bound, ParameterValue, name_faults, constant_faults, optional_faults, bound_faults};
ghost use Rattle.v_names.specs.Names.{content_faults, fixed_target_faults, gate_name_faults, actual_faults, parameter_faults_within, parameters_faults, item_name_faults};
ghost use Rattle.name_checks.specs.Noted.{noted};

use crate::bounds::bounds_of;
use crate::constants::{
    note_bounds, note_constant, note_constant_names, note_optional_constant, note_range,
    note_value_within,
};
use crate::expressions::{note_fixed_target, note_names, note_optional_names};
use crate::first_fault::FirstFault;
use crate::range::{context_width, range_of};
use crate::statements::note_statement;
use std::alloc::Global;
use v_names::{ConstantPlace, Scope};
use v_tree::{
    Assignment, Connection, Content, Expr, Gate, Instance, Item, Param, Params, Ports, Reg, Wire,
};
use vf_base::{MAX_ADDRESS, NoMemory};

/// Notes what is wrong with what stands behind the name of a variable.
fn note_content(
    alloc: Global,
    scope: &Scope<'_>,
    content: &Content,
    first: &mut FirstFault,
) -> Result<(), NoMemory>
    ensures { OnOk result (first.new ≡ noted first.old (content_faults scope.now (content_of content.now))) }
{
    match content {
        Content::Nothing => Ok(()),
        Content::First(value) => {
            note_constant(alloc, scope, ConstantPlace::AnyValue, value, first)?;
            Ok(())
        }
        Content::Memory(addresses) => {
            note_bounds(alloc, scope, MAX_ADDRESS, addresses, first)?;
            Ok(())
        }
    }
}

/// Notes what is wrong with the value of a parameter, in the context of its range's width.
fn note_parameter_value(
    alloc: Global,
    scope: &Scope<'_>,
    width: u8,
    param: &Param,
    first: &mut FirstFault,
) -> Result<(), NoMemory>
    requires { width ≤ 128 }
    ensures { OnOk result (first.new ≡ noted first.old (parameter_faults_within width scope.now (parameter_of param.now))) }
{
    note_constant_names(alloc, scope, &param.value, first)?;
    note_value_within(
        alloc,
        scope,
        width,
        ConstantPlace::ParameterValue,
        &param.value,
        first,
    )?;
    Ok(())
}

/// Notes what is wrong with the values of parameters, in the context of their range's width.
fn note_parameter_values(
    alloc: Global,
    scope: &Scope<'_>,
    width: u8,
    params: &[Param],
    first: &mut FirstFault,
) -> Result<(), NoMemory>
    requires { width ≤ 128 }
    ensures { OnOk result (first.new ≡ noted first.old (flat_map (parameter_faults_within width scope.now) (map parameter_of params.now))) }
{
    'params: for param in params {
        note_parameter_value(alloc, scope, width, param, first)?;
    }
    Ok(())
}

/// Notes what is wrong with parameters that are declared together.
fn note_parameters(
    alloc: Global,
    scope: &Scope<'_>,
    group: &Params,
    first: &mut FirstFault,
) -> Result<(), NoMemory>
    ensures { OnOk result (first.new ≡ noted first.old (parameters_faults scope.now (parameters_of group.now))) }
{
    note_range(alloc, scope, &group.range, first)?;
    let range = range_of(alloc, scope, bounds_of(&group.range))?;
    let width = context_width(range);
    note_parameter_values(alloc, scope, width, group.params.as_slice(), first)?;
    Ok(())
}

/// Notes what is wrong with the first contents and the memories of some variables.
fn note_regs(
    alloc: Global,
    scope: &Scope<'_>,
    regs: &[Reg],
    first: &mut FirstFault,
) -> Result<(), NoMemory>
    ensures { OnOk result (first.new ≡ noted first.old (flat_map (λ (r : SourceReg). content_faults scope.now r.content) (map reg_of regs.now))) }
{
    'regs: for reg in regs {
        note_content(alloc, scope, &reg.content, first)?;
    }
    Ok(())
}

/// Notes what is wrong with the values of some nets.
fn note_wires(
    alloc: Global,
    scope: &Scope<'_>,
    wires: &[Wire],
    first: &mut FirstFault,
) -> Result<(), NoMemory>
    ensures { OnOk result (first.new ≡ noted first.old (flat_map (λ (w : SourceWire). optional_faults (name_faults scope.now) w.value) (map wire_of wires.now))) }
{
    'wires: for wire in wires {
        note_optional_names(alloc, scope, &wire.value, first)?;
    }
    Ok(())
}

/// Notes what is wrong with some assignments of nets.
fn note_assignments(
    alloc: Global,
    scope: &Scope<'_>,
    assignments: &[Assignment],
    first: &mut FirstFault,
) -> Result<(), NoMemory>
    ensures { OnOk result (first.new ≡ noted first.old (flat_map
        (λ (a : SourceAssignment). fixed_target_faults scope.now a.target ++ name_faults scope.now a.value) (map assignment_of assignments.now))) }
{
    'assignments: for assignment in assignments {
        note_fixed_target(alloc, scope, &assignment.target, first)?;
        note_names(alloc, scope, &assignment.value, first)?;
    }
    Ok(())
}

/// Notes what is wrong with the inputs of a gate.
fn note_inputs(
    alloc: Global,
    scope: &Scope<'_>,
    inputs: &[Expr],
    first: &mut FirstFault,
) -> Result<(), NoMemory>
    ensures { OnOk result (first.new ≡ noted first.old (flat_map (name_faults scope.now) (map expression_of inputs.now))) }
{
    'inputs: for input in inputs {
        note_names(alloc, scope, input, first)?;
    }
    Ok(())
}

/// Notes what is wrong with some gates.
fn note_gates(
    alloc: Global,
    scope: &Scope<'_>,
    gates: &[Gate],
    first: &mut FirstFault,
) -> Result<(), NoMemory>
    ensures { OnOk result (first.new ≡ noted first.old (flat_map (gate_name_faults scope.now) (map gate_of gates.now))) }
{
    'gates: for gate in gates {
        note_fixed_target(alloc, scope, &gate.output, first)?;
        note_inputs(alloc, scope, gate.inputs.as_slice(), first)?;
    }
    Ok(())
}

/// Notes what is wrong with the parameters that an instance sets.
fn note_set_parameters(
    alloc: Global,
    scope: &Scope<'_>,
    connections: &[Connection],
    first: &mut FirstFault,
) -> Result<(), NoMemory>
    ensures { OnOk result (first.new ≡ noted first.old (flat_map (λ (c : SourceConnection). optional_faults (constant_faults scope.now ParameterValue) c.actual) (map connection_of connections.now))) }
{
    'connections: for connection in connections {
        note_optional_constant(
            alloc,
            scope,
            ConstantPlace::ParameterValue,
            &connection.actual,
            first,
        )?;
    }
    Ok(())
}

/// Notes what is wrong with the connections of an instance.
fn note_actuals(
    alloc: Global,
    scope: &Scope<'_>,
    connections: &[Connection],
    first: &mut FirstFault,
) -> Result<(), NoMemory>
    ensures { OnOk result (first.new ≡ noted first.old (flat_map (actual_faults scope.now) (map connection_of connections.now))) }
{
    'connections: for connection in connections {
        note_optional_names(alloc, scope, &connection.actual, first)?;
    }
    Ok(())
}

/// Notes what is wrong with some instances.
fn note_instances(
    alloc: Global,
    scope: &Scope<'_>,
    instances: &[Instance],
    first: &mut FirstFault,
) -> Result<(), NoMemory>
    ensures { OnOk result (first.new ≡ noted first.old (flat_map (λ (i : SourceInstance). flat_map (actual_faults scope.now) i.connections) (map instance_of instances.now))) }
{
    'instances: for instance in instances {
        note_actuals(alloc, scope, instance.connections.as_slice(), first)?;
    }
    Ok(())
}

/// Notes what is wrong with groups of parameters.
pub fn note_parameter_groups(
    alloc: Global,
    scope: &Scope<'_>,
    groups: &[Params],
    first: &mut FirstFault,
) -> Result<(), NoMemory>
    ensures { OnOk result (first.new ≡ noted first.old (flat_map (parameters_faults scope.now) (map parameters_of groups.now))) }
{
    'groups: for group in groups {
        note_parameters(alloc, scope, group, first)?;
    }
    Ok(())
}

/// Notes what is wrong with the ranges of groups of ports.
pub fn note_port_groups(
    alloc: Global,
    scope: &Scope<'_>,
    groups: &[Ports],
    first: &mut FirstFault,
) -> Result<(), NoMemory>
    ensures { OnOk result (first.new ≡ noted first.old (flat_map (λ (g : SourcePorts). optional_faults (bound_faults scope.now most_bound) g.range) (map ports_of groups.now))) }
{
    'groups: for group in groups {
        note_range(alloc, scope, &group.range, first)?;
    }
    Ok(())
}

/// Notes what is wrong with the names and the constants of an item.
fn note_item(
    alloc: Global,
    scope: &Scope<'_>,
    item: &Item,
    first: &mut FirstFault,
) -> Result<(), NoMemory>
    ensures { OnOk result (first.new ≡ noted first.old (item_name_faults scope.now (item_of item.now))) }
{
    match item {
        Item::Params(group) => {
            note_parameters(alloc, scope, group, first)?;
            Ok(())
        }
        Item::Ports(group) => {
            note_range(alloc, scope, &group.range, first)?;
            Ok(())
        }
        Item::Wire { range, wires, .. } => {
            note_range(alloc, scope, range, first)?;
            note_wires(alloc, scope, wires.as_slice(), first)?;
            Ok(())
        }
        Item::Reg { range, regs, .. } => {
            note_range(alloc, scope, range, first)?;
            note_regs(alloc, scope, regs.as_slice(), first)?;
            Ok(())
        }
        Item::Integer { regs, .. } => {
            note_regs(alloc, scope, regs.as_slice(), first)?;
            Ok(())
        }
        Item::Assign { assignments, .. } => {
            note_assignments(alloc, scope, assignments.as_slice(), first)?;
            Ok(())
        }
        Item::Gate { gates, .. } => {
            note_gates(alloc, scope, gates.as_slice(), first)?;
            Ok(())
        }
        Item::Instance {
            parameters,
            instances,
            ..
        } => {
            note_set_parameters(alloc, scope, parameters.as_slice(), first)?;
            note_instances(alloc, scope, instances.as_slice(), first)?;
            Ok(())
        }
        Item::Initial { body, .. } => {
            note_statement(alloc, scope, body, first)?;
            Ok(())
        }
        Item::Always { body, .. } => {
            note_statement(alloc, scope, body, first)?;
            Ok(())
        }
    }
}

/// Notes what is wrong with the names and the constants of some items.
pub fn note_items(
    alloc: Global,
    scope: &Scope<'_>,
    items: &[Item],
    first: &mut FirstFault,
) -> Result<(), NoMemory>
    ensures { OnOk result (first.new ≡ noted first.old (flat_map (item_name_faults scope.now) (map item_of items.now))) }
{
    'items: for item in items {
        note_item(alloc, scope, item, first)?;
    }
    Ok(())
}
