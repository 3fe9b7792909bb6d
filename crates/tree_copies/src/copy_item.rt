// Copies of modules and their items.

ghost use Rattle.std.specs.Prelude.{◌≡◌, map, IfOk};
ghost use Rattle.v_tree.specs.Views.{name_of, name_in, range_of, range_in, parameter_of, parameters_of, ports_of, wire_of, content_of};
ghost use Rattle.v_tree.specs.Views.{reg_of, assignment_of, gate_of, connection_of, instance_of, item_of, heads_of, module_of, unit_of};

use crate::copy_statement::copy_stmt;
use crate::select::{copy_assigned, copy_optional, copy_parts, copy_target};
use std::alloc::Global;
use v_copy::{both, copy_expr, copy_text};
use v_tree::{
    Assignment, Connection, Content, Gate, Heads, Instance, Item, Module, Name, Param, Params,
    Ports, Range, Reg, Unit, Wire,
};
use vf_base::{NoMemory, Seq, Text};

/// A name with its place.
fn copy_name(alloc: Global, name: &Name) -> Result<Name, NoMemory>
    ensures { IfOk result (λ copy. name_of copy ≡ name_of name.now) }
{
    let text = copy_text(alloc, &name.name)?;
    Ok(Name {
        name: text,
        place: name.place,
    })
}

/// Names with their places.
fn copy_names(alloc: Global, names: &[Name]) -> Result<Seq<Name>, NoMemory>
    ensures { IfOk result (λ copy. map name_of copy ≡ map name_of names.now) }
{
    let mut copies = Vec::new(alloc);
    'names: for name in names {
        let copy = copy_name(alloc, name)?;
        copies.push(copy)?;
    }
    Ok(Seq::from_vec(copies))
}

/// A name that may be there.
fn copy_name_in(alloc: Global, name: &Option<Name>) -> Result<Option<Name>, NoMemory>
    ensures { IfOk result (λ copy. name_in copy ≡ name_in name.now) }
{
    match name {
        Some(name) => {
            let copy = copy_name(alloc, name)?;
            Ok(Some(copy))
        }
        None => Ok(None),
    }
}

/// A range.
fn copy_range(alloc: Global, range: &Range) -> Result<Range, NoMemory>
    ensures { IfOk result (λ copy. range_of copy ≡ range_of range.now) }
{
    let high = copy_expr(alloc, &range.high);
    let low = copy_expr(alloc, &range.low);
    let (high, low) = both(high, low)?;
    Ok(Range {
        place: range.place,
        high,
        low,
    })
}

/// A range that may be there.
fn copy_range_in(alloc: Global, range: &Option<Range>) -> Result<Option<Range>, NoMemory>
    ensures { IfOk result (λ copy. range_in copy ≡ range_in range.now) }
{
    match range {
        Some(range) => {
            let copy = copy_range(alloc, range)?;
            Ok(Some(copy))
        }
        None => Ok(None),
    }
}

/// A parameter.
fn copy_param(alloc: Global, param: &Param) -> Result<Param, NoMemory>
    ensures { IfOk result (λ copy. parameter_of copy ≡ parameter_of param.now) }
{
    let name = copy_text(alloc, &param.name)?;
    let value = copy_expr(alloc, &param.value)?;
    Ok(Param {
        name,
        place: param.place,
        value,
    })
}

/// Parameters of one declaration.
fn copy_param_list(alloc: Global, params: &[Param]) -> Result<Seq<Param>, NoMemory>
    ensures { IfOk result (λ copy. map parameter_of copy ≡ map parameter_of params.now) }
{
    let mut copies = Vec::new(alloc);
    'params: for param in params {
        let copy = copy_param(alloc, param)?;
        copies.push(copy)?;
    }
    Ok(Seq::from_vec(copies))
}

/// Parameters that are declared together.
fn copy_params(alloc: Global, group: &Params) -> Result<Params, NoMemory>
    ensures { IfOk result (λ copy. parameters_of copy ≡ parameters_of group.now) }
{
    let range = copy_range_in(alloc, &group.range);
    let params = copy_param_list(alloc, group.params.as_slice());
    let (range, params) = both(range, params)?;
    Ok(Params {
        place: group.place,
        is_local: group.is_local,
        signed: group.signed,
        range,
        params,
    })
}

/// The declarations of parameters in the head of a module.
fn copy_param_groups(alloc: Global, groups: &[Params]) -> Result<Seq<Params>, NoMemory>
    ensures { IfOk result (λ copy. map parameters_of copy ≡ map parameters_of groups.now) }
{
    let mut copies = Vec::new(alloc);
    'groups: for group in groups {
        let copy = copy_params(alloc, group)?;
        copies.push(copy)?;
    }
    Ok(Seq::from_vec(copies))
}

/// Ports that are declared together.
fn copy_ports(alloc: Global, group: &Ports) -> Result<Ports, NoMemory>
    ensures { IfOk result (λ copy. ports_of copy ≡ ports_of group.now) }
{
    let range = copy_range_in(alloc, &group.range);
    let names = copy_names(alloc, group.names.as_slice());
    let (range, names) = both(range, names)?;
    Ok(Ports {
        place: group.place,
        direction: group.direction,
        is_reg: group.is_reg,
        signed: group.signed,
        range,
        names,
    })
}

/// The declarations of ports in the head of a module.
fn copy_port_groups(alloc: Global, groups: &[Ports]) -> Result<Seq<Ports>, NoMemory>
    ensures { IfOk result (λ copy. map ports_of copy ≡ map ports_of groups.now) }
{
    let mut copies = Vec::new(alloc);
    'groups: for group in groups {
        let copy = copy_ports(alloc, group)?;
        copies.push(copy)?;
    }
    Ok(Seq::from_vec(copies))
}

/// A net.
fn copy_wire(alloc: Global, wire: &Wire) -> Result<Wire, NoMemory>
    ensures { IfOk result (λ copy. wire_of copy ≡ wire_of wire.now) }
{
    let name = copy_text(alloc, &wire.name)?;
    let value = copy_optional(alloc, &wire.value)?;
    Ok(Wire {
        name,
        place: wire.place,
        value,
    })
}

/// Nets of one declaration.
fn copy_wires(alloc: Global, wires: &[Wire]) -> Result<Seq<Wire>, NoMemory>
    ensures { IfOk result (λ copy. map wire_of copy ≡ map wire_of wires.now) }
{
    let mut copies = Vec::new(alloc);
    'wires: for wire in wires {
        let copy = copy_wire(alloc, wire)?;
        copies.push(copy)?;
    }
    Ok(Seq::from_vec(copies))
}

/// What stands behind the name of a variable.
fn copy_content(alloc: Global, content: &Content) -> Result<Content, NoMemory>
    ensures { IfOk result (λ copy. content_of copy ≡ content_of content.now) }
{
    match content {
        Content::Nothing => Ok(Content::Nothing),
        Content::First(value) => {
            let value = copy_expr(alloc, value)?;
            Ok(Content::First(value))
        }
        Content::Memory(bounds) => {
            let bounds = copy_range(alloc, bounds)?;
            Ok(Content::Memory(bounds))
        }
    }
}

/// A variable.
fn copy_reg(alloc: Global, reg: &Reg) -> Result<Reg, NoMemory>
    ensures { IfOk result (λ copy. reg_of copy ≡ reg_of reg.now) }
{
    let name = copy_text(alloc, &reg.name)?;
    let content = copy_content(alloc, &reg.content)?;
    Ok(Reg {
        name,
        place: reg.place,
        content,
    })
}

/// Variables of one declaration.
fn copy_regs(alloc: Global, regs: &[Reg]) -> Result<Seq<Reg>, NoMemory>
    ensures { IfOk result (λ copy. map reg_of copy ≡ map reg_of regs.now) }
{
    let mut copies = Vec::new(alloc);
    'regs: for reg in regs {
        let copy = copy_reg(alloc, reg)?;
        copies.push(copy)?;
    }
    Ok(Seq::from_vec(copies))
}

/// An assignment of a net.
fn copy_assignment(alloc: Global, assignment: &Assignment) -> Result<Assignment, NoMemory>
    ensures { IfOk result (λ copy. assignment_of copy ≡ assignment_of assignment.now) }
{
    let (target, value) = copy_assigned(alloc, &assignment.target, &assignment.value)?;
    Ok(Assignment { target, value })
}

/// Assignments of nets.
fn copy_assignments(alloc: Global, assignments: &[Assignment]) -> Result<Seq<Assignment>, NoMemory>
    ensures { IfOk result (λ copy. map assignment_of copy ≡ map assignment_of assignments.now) }
{
    let mut copies = Vec::new(alloc);
    'assignments: for assignment in assignments {
        let copy = copy_assignment(alloc, assignment)?;
        copies.push(copy)?;
    }
    Ok(Seq::from_vec(copies))
}

/// A gate.
fn copy_gate(alloc: Global, gate: &Gate) -> Result<Gate, NoMemory>
    ensures { IfOk result (λ copy. gate_of copy ≡ gate_of gate.now) }
{
    let name = copy_name_in(alloc, &gate.name);
    let output = copy_target(alloc, &gate.output);
    let inputs = copy_parts(alloc, gate.inputs.as_slice());
    let (name, (output, inputs)) = both(name, both(output, inputs))?;
    Ok(Gate {
        name,
        output,
        inputs: Seq::from_vec(inputs),
    })
}

/// Gates of one kind.
fn copy_gates(alloc: Global, gates: &[Gate]) -> Result<Seq<Gate>, NoMemory>
    ensures { IfOk result (λ copy. map gate_of copy ≡ map gate_of gates.now) }
{
    let mut copies = Vec::new(alloc);
    'gates: for gate in gates {
        let copy = copy_gate(alloc, gate)?;
        copies.push(copy)?;
    }
    Ok(Seq::from_vec(copies))
}

/// A text that may be there.
fn copy_text_in(alloc: Global, text: &Option<Text>) -> Result<Option<Text>, NoMemory>
    ensures { IfOk result (λ copy. copy ≡ text.now) }
{
    match text {
        Some(text) => {
            let copy = copy_text(alloc, text)?;
            Ok(Some(copy))
        }
        None => Ok(None),
    }
}

/// A connection.
fn copy_connection(alloc: Global, connection: &Connection) -> Result<Connection, NoMemory>
    ensures { IfOk result (λ copy. connection_of copy ≡ connection_of connection.now) }
{
    let name = copy_text_in(alloc, &connection.name)?;
    let actual = copy_optional(alloc, &connection.actual)?;
    Ok(Connection {
        name,
        place: connection.place,
        actual,
    })
}

/// Connections.
fn copy_connections(alloc: Global, connections: &[Connection]) -> Result<Seq<Connection>, NoMemory>
    ensures { IfOk result (λ copy. map connection_of copy ≡ map connection_of connections.now) }
{
    let mut copies = Vec::new(alloc);
    'connections: for connection in connections {
        let copy = copy_connection(alloc, connection)?;
        copies.push(copy)?;
    }
    Ok(Seq::from_vec(copies))
}

/// An instance.
fn copy_instance(alloc: Global, instance: &Instance) -> Result<Instance, NoMemory>
    ensures { IfOk result (λ copy. instance_of copy ≡ instance_of instance.now) }
{
    let name = copy_text(alloc, &instance.name)?;
    let connections = copy_connections(alloc, instance.connections.as_slice())?;
    Ok(Instance {
        name,
        place: instance.place,
        connections,
    })
}

/// Instances of one module.
fn copy_instances(alloc: Global, instances: &[Instance]) -> Result<Seq<Instance>, NoMemory>
    ensures { IfOk result (λ copy. map instance_of copy ≡ map instance_of instances.now) }
{
    let mut copies = Vec::new(alloc);
    'instances: for instance in instances {
        let copy = copy_instance(alloc, instance)?;
        copies.push(copy)?;
    }
    Ok(Seq::from_vec(copies))
}

/// An item with the same view.
fn copy_item(alloc: Global, item: &Item) -> Result<Item, NoMemory>
    ensures { IfOk result (λ copy. item_of copy ≡ item_of item.now) }
{
    match item {
        Item::Params(group) => {
            let group = copy_params(alloc, group)?;
            Ok(Item::Params(group))
        }
        Item::Ports(group) => {
            let group = copy_ports(alloc, group)?;
            Ok(Item::Ports(group))
        }
        Item::Wire {
            place,
            signed,
            range,
            wires,
        } => {
            let range = copy_range_in(alloc, range);
            let wires = copy_wires(alloc, wires.as_slice());
            let (range, wires) = both(range, wires)?;
            Ok(Item::Wire {
                place: *place,
                signed: *signed,
                range,
                wires,
            })
        }
        Item::Reg {
            place,
            signed,
            range,
            regs,
        } => {
            let range = copy_range_in(alloc, range);
            let regs = copy_regs(alloc, regs.as_slice());
            let (range, regs) = both(range, regs)?;
            Ok(Item::Reg {
                place: *place,
                signed: *signed,
                range,
                regs,
            })
        }
        Item::Integer { place, regs } => {
            let regs = copy_regs(alloc, regs.as_slice())?;
            Ok(Item::Integer {
                place: *place,
                regs,
            })
        }
        Item::Assign { place, assignments } => {
            let assignments = copy_assignments(alloc, assignments.as_slice())?;
            Ok(Item::Assign {
                place: *place,
                assignments,
            })
        }
        Item::Gate { place, kind, gates } => {
            let gates = copy_gates(alloc, gates.as_slice())?;
            Ok(Item::Gate {
                place: *place,
                kind: *kind,
                gates,
            })
        }
        Item::Instance {
            place,
            module_name,
            parameters,
            instances,
        } => {
            let module_name = copy_text(alloc, module_name);
            let parameters = copy_connections(alloc, parameters.as_slice());
            let instances = copy_instances(alloc, instances.as_slice());
            let (module_name, (parameters, instances)) = both(
                module_name,
                both(parameters, instances),
            )?;
            Ok(Item::Instance {
                place: *place,
                module_name,
                parameters,
                instances,
            })
        }
        Item::Initial { place, body } => {
            let body = copy_stmt(alloc, body)?;
            Ok(Item::Initial {
                place: *place,
                body,
            })
        }
        Item::Always { place, body } => {
            let body = copy_stmt(alloc, body)?;
            Ok(Item::Always {
                place: *place,
                body,
            })
        }
    }
}

/// The items of a module.
fn copy_items(alloc: Global, items: &[Item]) -> Result<Seq<Item>, NoMemory>
    ensures { IfOk result (λ copy. map item_of copy ≡ map item_of items.now) }
{
    let mut copies = Vec::new(alloc);
    'items: for item in items {
        let copy = copy_item(alloc, item)?;
        copies.push(copy)?;
    }
    Ok(Seq::from_vec(copies))
}

/// The list of ports of a module.
fn copy_heads(alloc: Global, heads: &Heads) -> Result<Heads, NoMemory>
    ensures { IfOk result (λ copy. heads_of copy ≡ heads_of heads.now) }
{
    match heads {
        Heads::Plain(names) => {
            let names = copy_names(alloc, names.as_slice())?;
            Ok(Heads::Plain(names))
        }
        Heads::Declared(groups) => {
            let groups = copy_port_groups(alloc, groups.as_slice())?;
            Ok(Heads::Declared(groups))
        }
    }
}

/// A module.
fn copy_module(alloc: Global, source: &Module) -> Result<Module, NoMemory>
    ensures { IfOk result (λ copy. module_of copy ≡ module_of source.now) }
{
    let name = copy_text(alloc, &source.name);
    let params = copy_param_groups(alloc, source.params.as_slice());
    let ports = copy_heads(alloc, &source.ports);
    let items = copy_items(alloc, source.items.as_slice());
    let ((name, params), (ports, items)) = both(both(name, params), both(ports, items))?;
    Ok(Module {
        name,
        place: source.place,
        params,
        ports,
        items,
    })
}

/// The modules of a text.
fn copy_modules(alloc: Global, modules: &[Module]) -> Result<Seq<Module>, NoMemory>
    ensures { IfOk result (λ copy. map module_of copy ≡ map module_of modules.now) }
{
    let mut copies = Vec::new(alloc);
    'modules: for source in modules {
        let copy = copy_module(alloc, source)?;
        copies.push(copy)?;
    }
    Ok(Seq::from_vec(copies))
}

/// A tree with the same view.
///
/// # Errors
///
/// `NoMemory` where there was no memory for the copy.
pub fn copy_tree(alloc: Global, unit: &Unit) -> Result<Unit, NoMemory>
    ensures { IfOk result (λ copy. unit_of copy ≡ unit_of unit.now) }
{
    let modules = copy_modules(alloc, unit.modules.as_slice())?;
    Ok(Unit { modules })
}
