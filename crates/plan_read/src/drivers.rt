// The node that drives each object.

ghost use Rattle.std.specs.Prelude.{◌≡◌, ◌<◌, ℕ, Some, None, IfOk, map, length, vec_len, slice_index_or, option_map, nat_eq, if◌then◌else◌};
ghost use Rattle.vf_base.specs.Base.{object_number, node_number};
ghost use Rattle.vf_base.specs.Lists.{has};
ghost use Rattle.v_design.specs.PlainDesigns.{design_of};
ghost use Rattle.fault_list.specs.Spelled.{driver_of};

use std::alloc::Global;
use v_design::Design;
use vf_base::{NoMemory, NodeId, ObjectId};

/// Notes a node as the driver of an object, if there is that object.
fn note_output(drivers: &mut Vec<Option<NodeId>>, output: ObjectId, node: NodeId)
    ensures len { vec_len drivers.new ≡ vec_len drivers.old }
    ensures noted { (object : ℕ) → object < vec_len drivers.old →
        slice_index_or drivers.new.items object None ≡ (if nat_eq (object_number output) object then Some node else slice_index_or drivers.old.items object None) }
{
    let place = output.0 as usize;
    if place >= drivers.len() {
        return;
    }
    drivers[place] = Some(node);
}

/// Notes a node as the driver of its outputs.
fn note_outputs(drivers: &mut Vec<Option<NodeId>>, outputs: &[ObjectId], node: NodeId)
    ensures len { vec_len drivers.new ≡ vec_len drivers.old }
    ensures noted { (object : ℕ) → object < vec_len drivers.old →
        slice_index_or drivers.new.items object None ≡ (if has (map object_number outputs.now) object then Some node else slice_index_or drivers.old.items object None) }
{
    'outputs: for output in outputs {
        note_output(drivers, *output, node);
    }
}

/// The first node that drives each object, by the object's number.
pub fn drivers_of(alloc: Global, design: &Design) -> Result<Vec<Option<NodeId>>, NoMemory>
    ensures len { IfOk result (λ drivers. vec_len drivers ≡ length (design_of design.now).objects) }
    ensures drivers { IfOk result (λ drivers. (object : ℕ) → object < length (design_of design.now).objects →
        option_map node_number (slice_index_or drivers.items object None) ≡ driver_of (design_of design.now) object) }
{
    let mut drivers = vec![in alloc; None; design.objects.as_slice().len()]?;
    let nodes = design.nodes.as_slice();
    'nodes: for number in (0..nodes.len()).rev() {
        let node = &nodes[number];
        note_outputs(&mut drivers, node.outputs.as_slice(), NodeId(number as u32));
    }
    Ok(drivers)
}
