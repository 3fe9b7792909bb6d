// The parts of an item.

ghost use Rattle.std.specs.Prelude.{◌≡◌, ◌≤◌, ◌+◌, ◌^◌, ◌++◌, OnOk};
ghost use Rattle.v_tree.specs.Trees.{PortItem};
ghost use Rattle.v_tree.specs.Views.{item_of, ports_of};
ghost use Rattle.v_names.specs.Names.{item_declarations};
ghost use Rattle.v_elab.specs.Walk as plain;
ghost use Rattle.v_elab.specs.Walk.{declared_parts, item_parts, gates_in};
ghost use Rattle.elab_parts.specs.PartViews.{parts_of};
ghost use Rattle.elab_items.specs.Heres.{IsHere};
ghost use Rattle.elab_items.specs.Narrow.{AreNarrow};
ghost use Rattle.elab_items.specs.Runs.{ItemTakesRuns};

use crate::blocks::process_part;
use crate::declared::{push_names, push_nets, push_part, push_regs};
use crate::gates::push_gates;
use crate::here::Here;
use crate::nodes::{push_assignments, push_wire_values};
use elab_parts::Part;
use std::alloc::Global;
use v_tree::{Item, Ports};
use vf_base::NoMemory;

/// How many gates stand in an item.
pub fn gates_in(item: &Item) -> usize
    ensures { result ≡ gates_in (item_of item.now) }
{
    match item {
        Item::Gate { gates, .. } => gates.as_slice().len(),
        _ => 0,
    }
}

/// Adds the parts of ports that are declared together, of which none is wider than a vector may be.
pub fn push_port_parts<'u>(
    alloc: Global,
    here: &Here<'_, 'u>,
    group: &'u Ports,
    parts: &mut Vec<Part<'u>>,
) -> Result<(), NoMemory>
    requires { AreNarrow here.now.scope.value (item_declarations (PortItem (ports_of group.now))) }
    ensures { OnOk result ((h : plain.Here) → IsHere h here.now → parts_of parts.new.items ≡ parts_of parts.old.items ++ declared_parts h (PortItem (ports_of group.now))) }
{
    push_names(alloc, here, group.names.as_slice(), parts)?;
    Ok(())
}

/// Adds the parts of an item that is no instance, declares nothing wider than a vector may be, and whose targets take runs of bits. `gates` counts the gates of the module that stand before the item, fewer than 2^64 in each item.
pub fn push_item_parts<'u>(
    alloc: Global,
    here: &Here<'_, 'u>,
    gates: u128,
    item: &'u Item,
    parts: &mut Vec<Part<'u>>,
) -> Result<(), NoMemory>
    requires gates { gates + 2 ^ 65 ≤ 2 ^ 128 }
    requires narrow { AreNarrow here.now.scope.value (item_declarations (item_of item.now)) }
    requires runs { ItemTakesRuns here.now.scope.value (item_of item.now) }
    ensures { OnOk result ((h : plain.Here) → IsHere h here.now → parts_of parts.new.items ≡ parts_of parts.old.items ++ item_parts h gates (item_of item.now)) }
{
    match item {
        Item::Params(_) => Ok(()),
        Item::Ports(group) => {
            push_port_parts(alloc, here, group, parts)?;
            Ok(())
        }
        Item::Wire { wires, .. } => {
            push_nets(alloc, here, wires.as_slice(), parts)?;
            push_wire_values(alloc, here, wires.as_slice(), parts)?;
            Ok(())
        }
        Item::Reg { regs, .. } => {
            push_regs(alloc, here, regs.as_slice(), parts)?;
            Ok(())
        }
        Item::Integer { regs, .. } => {
            push_regs(alloc, here, regs.as_slice(), parts)?;
            Ok(())
        }
        Item::Assign { assignments, .. } => {
            push_assignments(alloc, here, assignments.as_slice(), parts)?;
            Ok(())
        }
        Item::Gate {
            kind,
            gates: all,
            ..
        } => {
            push_gates(alloc, here, *kind, gates, all.as_slice(), parts)?;
            Ok(())
        }
        Item::Instance { .. } => Ok(()),
        Item::Initial { place, body } => {
            let part = process_part(alloc, here, false, *place, body)?;
            push_part(part, parts)?;
            Ok(())
        }
        Item::Always { place, body } => {
            let part = process_part(alloc, here, true, *place, body)?;
            push_part(part, parts)?;
            Ok(())
        }
    }
}
