// The classes of faults.

ghost use Rattle.std.specs.Prelude.{◌≡◌, ℕ, ◌≤◌, ◌<◌, ◌&&◌, true, nat_le, None, Some, length, slice_get, slice_index, IfOk, option_map};
ghost use Rattle.std.specs.HashMap.{get};
ghost use Rattle.vf_base.specs.Base.{object_number, node_number, fault_number};
ghost use Rattle.v_design.specs.Designs.{VariableBit, OutputBit, GateTerminal};
ghost use Rattle.v_design.specs.Plain.{fault_of, node_of};
ghost use Rattle.v_design.specs.PlainDesigns.{design_of};
ghost use Rattle.fault_list.specs.Listed.{stuck};
ghost use Rattle.fault_list.specs.Classes.{output_of, held_at, standing, AreClasses};
ghost use Rattle.fault_list.specs.SameKeys.{IsMet};
ghost use Rattle.fault_list.specs.SameKeys.{same_key};

use crate::key::{FaultKey, key_of};
use four_value::GateKind;
use std::alloc::Global;
use std::collections::HashMap;
use v_design::{Design, Fault, Node, NodeKind, Site};
use vf_base::{FaultId, NoMemory, NodeId};

/// The value at which a gate's input terminal that is held holds the output, if it does.
fn output_of(kind: GateKind, input: bool) -> Option<bool>
    ensures { result ≡ output_of kind input }
{
    match kind {
        GateKind::And => if input { None } else { Some(false) },
        GateKind::Nand => if input { None } else { Some(true) },
        GateKind::Or => if input { Some(true) } else { None },
        GateKind::Nor => if input { Some(false) } else { None },
        GateKind::Xor | GateKind::Xnor => None,
        GateKind::Buf => Some(input),
        GateKind::Not => Some(!input),
    }
}

/// Whether a gate with so many input terminals has this one; they are counted from 1.
fn is_terminal(terminal: u32, count: usize) -> bool
    ensures { result ≡ (nat_le 1 terminal && nat_le terminal count) }
{
    1 <= terminal && terminal as usize <= count
}

/// The fault that stands for a terminal's fault at a node: that of the output, where the terminal holds it.
fn held_at(number: NodeId, terminal: u32, input: bool, node: &Node) -> Fault
    ensures { fault_of result ≡ held_at (node_number number) terminal input (Some (node_of node.now)) }
{
    let own = Fault {
        site: Site::Terminal(number, terminal),
        value: input,
    };
    let NodeKind::Gate(kind, terminals) = &node.kind else {
        return own;
    };
    let Some(object) = node.outputs.as_slice().first() else {
        return own;
    };
    let Some(output) = output_of(*kind, input) else {
        return own;
    };
    if !is_terminal(terminal, terminals.len()) {
        return own;
    }
    Fault {
        site: Site::Out(number, *object, 0),
        value: output,
    }
}

/// The fault that stands for a fault's class.
fn standing(design: &Design, fault: Fault) -> Fault
    ensures { fault_of result ≡ standing (design_of design.now) (fault_of fault) }
{
    let Site::Terminal(number, terminal) = fault.site else {
        return fault;
    };
    match design.nodes.as_slice().get(number.0 as usize) {
        Some(node) => held_at(number, terminal, fault.value, node),
        None => fault,
    }
}

/// The place at which a key was first met: the one that is kept, else this one, which is kept from now on.
fn first_place(
    firsts: &mut HashMap<FaultKey, u32>,
    key: FaultKey,
    place: u32,
) -> Result<u32, NoMemory>
    ensures { IfOk result (λ first. IsMet (λ k. get same_key firsts.old k) key place first (λ k. get same_key firsts.new k)) }
{
    if let Some(first) = firsts.get(&key) {
        return Ok(*first);
    }
    let Ok(_) = firsts.insert(key, place) else {
        return Err(NoMemory);
    };
    Ok(place)
}

/// For each of some faults the place, in their list, of the first one of its class: two faults are of one class where they are equal, or
/// joined by a chain of pairs of a gate's terminal and its output whose faults have one effect.
pub fn classes(alloc: Global, design: &Design, faults: &[Fault]) -> Result<Vec<u32>, NoMemory>
    ensures count { IfOk result (λ places. length places.items ≡ length faults.now) }
    ensures classes { IfOk result (λ places. AreClasses (design_of design.now) (stuck faults.now) places.items) }
{
    if faults.len() > u32::MAX as usize {
        return Err(NoMemory);
    }
    let mut firsts = HashMap::new(alloc);
    let mut places = Vec::new(alloc);
    'faults: for (number, fault) in faults.iter().enumerate() {
        let key = key_of(standing(design, *fault));
        let first = first_place(&mut firsts, key, number as u32)?;
        places.push(first)?;
    }
    Ok(places)
}

/// The fault that stands for a fault's class: the first listed one.
pub fn representative(classes: &[u32], fault: FaultId) -> FaultId
    requires { fault_number fault < length classes.now }
    ensures { fault_number result ≡ slice_index classes.now (fault_number fault) }
{
    FaultId(classes[fault.0 as usize])
}
