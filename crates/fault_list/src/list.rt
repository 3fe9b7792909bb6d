// The list of all sites.

ghost use Rattle.std.specs.Prelude.{◌≡◌, ℕ, ◌+◌, ◌<◌, ◌≤◌, ◌^◌, ◌++◌, ◌∷◌, [], map, filter, length, IsTrue, OnOk, IfOk};
ghost use Rattle.vf_base.specs.Base.{object_number, node_number};
ghost use Rattle.vf_base.specs.Lists.{joined, map_numbered, has, AllHold};
ghost use Rattle.v_design.specs.Designs.{FlatDesign, VariableBit, OutputBit, GateTerminal, width_in};
ghost use Rattle.v_design.specs.Plain.{site_of, object_of, node_of, node_kind_of};
ghost use Rattle.v_design.specs.PlainDesigns.{design_of};
ghost use Rattle.v_design.specs.Expressions.{up_from};
ghost use Rattle.v_design.specs.Sites.{variable_sites, output_sites, terminal_sites, terminal_count, faults_of};
ghost use Rattle.v_design.specs.Paths.{net_pieces};
ghost use Rattle.fault_list.specs.Listed.{stuck, both, bits_of_outputs};

use crate::ascending::ascending;
use std::alloc::Global;
use v_design::{Design, Fault, Node, NodeKind, Object, ObjectKind, Site};
use vf_base::{NoMemory, NodeId, ObjectId};

/// Adds a site's two faults: at 0, then at 1.
fn push_both(faults: &mut Vec<Fault>, site: Site) -> Result<(), NoMemory>
    ensures { OnOk result (stuck faults.new.items ≡ stuck faults.old.items ++ both (site_of site ∷ [])) }
{
    faults.push(Fault { site, value: false })?;
    faults.push(Fault { site, value: true })?;
    Ok(())
}

/// Adds the faults of so many bits of a variable.
fn add_bits(faults: &mut Vec<Fault>, number: ObjectId, width: u32) -> Result<(), NoMemory>
    ensures { OnOk result (stuck faults.new.items ≡ stuck faults.old.items ++ both (map (VariableBit (object_number number)) (up_from 0 width))) }
{
    'bits: for bit in 0..width {
        push_both(faults, Site::Var(number, bit))?;
    }
    Ok(())
}

/// Adds the faults of an object's bits, if it is a variable.
fn add_variable(faults: &mut Vec<Fault>, number: ObjectId, object: &Object) -> Result<(), NoMemory>
    ensures { OnOk result (stuck faults.new.items ≡ stuck faults.old.items ++ both (variable_sites (object_number number) (object_of object.now))) }
{
    match object.kind {
        ObjectKind::Var => add_bits(faults, number, u32::from(object.width)),
        ObjectKind::Word | ObjectKind::Net => Ok(()),
    }
}

/// Adds the faults of all variables.
fn add_variables(faults: &mut Vec<Fault>, objects: &[Object]) -> Result<(), NoMemory>
    requires { length objects.now < 2 ^ 32 }
    ensures { OnOk result (stuck faults.new.items ≡ stuck faults.old.items ++ both (joined (map_numbered variable_sites 0 (map object_of objects.now)))) }
{
    'objects: for (number, object) in objects.iter().enumerate() {
        add_variable(faults, ObjectId(number as u32), object)?;
    }
    Ok(())
}

/// The outputs of a node, in ascending order: of a design whose net pieces they are, those pieces that the node drives.
fn outputs_in_order(alloc: Global, node: &Node) -> Result<Vec<u32>, NoMemory>
    ensures { IfOk result (λ outputs. (design : FlatDesign) → AllHold (λ object. IsTrue (has (net_pieces design) object)) (node_of node.now).outputs →
        outputs.items ≡ filter (has (node_of node.now).outputs) (net_pieces design)) }
{
    let mut outputs = Vec::new(alloc);
    for object in node.outputs.as_slice() {
        outputs.push(object.0)?;
    }
    let sorted = ascending(alloc, outputs)?;
    Ok(sorted)
}

/// The width of an object, 0 where there is none.
pub fn width_of(design: &Design, object: ObjectId) -> u32
    ensures { result ≡ width_in (design_of design.now) (object_number object) }
{
    let objects = design.objects.as_slice();
    let place = object.0 as usize;
    if place >= objects.len() {
        return 0;
    }
    u32::from(objects[place].width)
}

/// Adds the faults of so many bits of a node's output.
fn add_output_bits(
    faults: &mut Vec<Fault>,
    number: NodeId,
    object: ObjectId,
    width: u32,
) -> Result<(), NoMemory>
    ensures { OnOk result (stuck faults.new.items ≡ stuck faults.old.items ++ both (map (OutputBit (node_number number) (object_number object)) (up_from 0 width))) }
{
    'bits: for bit in 0..width {
        push_both(faults, Site::Out(number, object, bit))?;
    }
    Ok(())
}

/// Adds the faults of all bits of some outputs of a node.
fn add_outputs_of(
    faults: &mut Vec<Fault>,
    design: &Design,
    number: NodeId,
    outputs: &[u32],
) -> Result<(), NoMemory>
    ensures { OnOk result (stuck faults.new.items ≡ stuck faults.old.items ++ both (bits_of_outputs (design_of design.now) (node_number number) outputs.now)) }
{
    'outputs: for object in outputs {
        let object = ObjectId(*object);
        let width = width_of(design, object);
        add_output_bits(faults, number, object, width)?;
    }
    Ok(())
}

/// Adds the faults of all outputs of nodes.
fn add_outputs(alloc: Global, faults: &mut Vec<Fault>, design: &Design) -> Result<(), NoMemory>
    requires { length (design_of design.now).nodes < 2 ^ 32 }
    ensures { OnOk result (stuck faults.new.items ≡ stuck faults.old.items ++ both (joined (map_numbered (output_sites (design_of design.now)) 0 (design_of design.now).nodes))) }
{
    'nodes: for (number, node) in design.nodes.as_slice().iter().enumerate() {
        let outputs = outputs_in_order(alloc, node)?;
        add_outputs_of(faults, design, NodeId(number as u32), &outputs)?;
    }
    Ok(())
}

/// Adds the faults of a node's input terminals, which are counted from 1, if it is a gate.
fn add_terminals_of(
    faults: &mut Vec<Fault>,
    number: NodeId,
    kind: &NodeKind,
) -> Result<(), NoMemory>
    ensures { OnOk result (stuck faults.new.items ≡ stuck faults.old.items ++ both (map (GateTerminal (node_number number)) (up_from 1 (terminal_count (node_kind_of kind.now))))) }
{
    match kind {
        NodeKind::Gate(_, terminals) => add_terminals_up_to(faults, number, terminals.len()),
        NodeKind::Assign(_, _) | NodeKind::Block(_) => Ok(()),
    }
}

/// Adds the faults of so many input terminals. More than a terminal's number can count are more than a memory holds.
fn add_terminals_up_to(
    faults: &mut Vec<Fault>,
    number: NodeId,
    count: usize,
) -> Result<(), NoMemory>
    ensures { OnOk result (stuck faults.new.items ≡ stuck faults.old.items ++ both (map (GateTerminal (node_number number)) (up_from 1 count))) }
{
    if count >= u32::MAX as usize {
        return Err(NoMemory);
    }
    'terminals: for terminal in 0..count {
        push_both(faults, Site::Terminal(number, terminal as u32 + 1))?;
    }
    Ok(())
}

/// Adds the faults of all gates' input terminals.
fn add_terminals(faults: &mut Vec<Fault>, nodes: &[Node]) -> Result<(), NoMemory>
    requires { length nodes.now < 2 ^ 32 }
    ensures { OnOk result (stuck faults.new.items ≡ stuck faults.old.items ++ both (joined (map_numbered terminal_sites 0 (map node_of nodes.now)))) }
{
    'nodes: for (number, node) in nodes.iter().enumerate() {
        add_terminals_of(faults, NodeId(number as u32), &node.kind)?;
    }
    Ok(())
}

/// Every site of a design at 0 and at 1: the bits of variables by object from the least significant, the output bits of nodes by node and
/// object, then the input terminals of gates by node and number.
pub fn all_sites(alloc: Global, design: &Design) -> Result<Vec<Fault>, NoMemory>
    ensures { IfOk result (λ faults. stuck faults.items ≡ faults_of (design_of design.now)) }
{
    let mut faults = Vec::new(alloc);
    add_variables(&mut faults, design.objects.as_slice())?;
    add_outputs(alloc, &mut faults, design)?;
    add_terminals(&mut faults, design.nodes.as_slice())?;
    Ok(faults)
}
