// The objects that nodes write.

ghost use Rattle.std.specs.Prelude.{◌≡◌, ◌≤◌, IfOk, OnOk, [], length, map, option_map, replicate};
ghost use Rattle.vf_base.specs.Base.{object_number};
ghost use Rattle.v_design.specs.Expressions.{up_from};
ghost use Rattle.v_design.specs.WellFormed.{most_parts};
ghost use Rattle.v_elab.specs.Flat.{outputs_of};
ghost use Rattle.elab_objects.specs.ObjectViews.{driver_of, held_objects};
ghost use Rattle.object_names.specs.OutputViews.{output_lists, with_output};

use elab_objects::{HeldObject, PieceDriver};
use std::alloc::Global;
use vf_base::{NoMemory, ObjectId};

/// An object that a node writes, and where its least significant bit stands in the node's value.
#[derive(Clone, Copy, Debug, PartialEq, Eq)]
pub struct NodeOutput {
    pub object: ObjectId,
    pub place: u32,
}

/// So many empty lists.
fn empty_lists(alloc: Global, count: usize) -> Result<Vec<Vec<NodeOutput>>, NoMemory>
    ensures { IfOk result (λ lists. output_lists lists.items ≡ replicate count []) }
{
    let mut lists = Vec::new(alloc);
    'lists: for _ in 0..count {
        lists.push(Vec::new(alloc))?;
    }
    Ok(lists)
}

/// Adds an object to what the node that writes it writes. A place beyond its numbers is that of a value in no memory.
fn push_output(
    object: ObjectId,
    driver: PieceDriver,
    outputs: &mut Vec<Vec<NodeOutput>>,
) -> Result<(), NoMemory>
    ensures { OnOk result (output_lists outputs.new.items ≡ with_output (object_number object) (Some (driver_of driver)) (output_lists outputs.old.items)) }
{
    let Ok(place) = u32::try_from(driver.place) else {
        return Err(NoMemory);
    };
    if driver.node < outputs.len() {
        outputs[driver.node].push(NodeOutput { object, place })?;
    }
    Ok(())
}

/// Adds an object to what its node writes, where it has one.
fn push_object(
    object: ObjectId,
    driver: Option<PieceDriver>,
    outputs: &mut Vec<Vec<NodeOutput>>,
) -> Result<(), NoMemory>
    ensures { OnOk result (output_lists outputs.new.items ≡ with_output (object_number object) (option_map driver_of driver) (output_lists outputs.old.items)) }
{
    match driver {
        None => Ok(()),
        Some(driver) => {
            push_output(object, driver, outputs)?;
            Ok(())
        }
    }
}

/// The objects that each of so many nodes writes, in the order of the walk.
pub fn node_outputs(
    alloc: Global,
    objects: &[HeldObject],
    nodes: usize,
) -> Result<Vec<Vec<NodeOutput>>, NoMemory>
    requires { length objects.now ≤ most_parts }
    ensures { IfOk result (λ outputs. output_lists outputs.items ≡ map (outputs_of (held_objects objects.now)) (up_from 0 nodes)) }
{
    let mut outputs = empty_lists(alloc, nodes)?;
    'objects: for (number, held) in objects.iter().enumerate() {
        push_object(ObjectId(number as u32), held.driver, &mut outputs)?;
    }
    Ok(outputs)
}
