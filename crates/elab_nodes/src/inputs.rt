// The objects that a node reads.

ghost use Rattle.std.specs.Prelude.{◌≡◌, ℕ, IfOk, map, filter};
ghost use Rattle.vf_base.specs.Base.{object_number};
ghost use Rattle.vf_base.specs.Lists.{has};
ghost use Rattle.v_design.specs.Expressions.{up_from};
ghost use Rattle.v_design.specs.Plain.{node_kind_of};
ghost use Rattle.v_design.specs.Reads.{node_reads};
ghost use Rattle.object_names.specs.OutputViews.{output_of};
ghost use Rattle.flat_laws.specs.Sizes.WalkedNodes.{IsSizedKind};
ghost use Rattle.elab_nodes.specs.Inputs.{kind_reads, objects_written, own_objects, is_other};

use object_names::NodeOutput;
use object_reads::{objects_among, push_all_reads, push_reads, push_statement_reads};
use object_waits::ObjectList;
use std::alloc::Global;
use v_design::NodeKind;
use vf_base::{NoMemory, ObjectId};

/// The objects that are named where a sized node reads, its own outputs among them.
fn kind_reads(alloc: Global, kind: &NodeKind) -> Result<Vec<ObjectId>, NoMemory>
    requires { IsSizedKind (node_kind_of kind.now) }
    ensures { IfOk result (λ objects. map object_number objects.items ≡ kind_reads (node_kind_of kind.now)) }
{
    let mut objects = Vec::new(alloc);
    match kind {
        NodeKind::Assign(value, _) => {
            push_reads(alloc, value, &mut objects)?;
            Ok(objects)
        }
        NodeKind::Gate(_, terminals) => {
            push_all_reads(alloc, terminals, &mut objects)?;
            Ok(objects)
        }
        NodeKind::Block(statement) => {
            push_statement_reads(alloc, statement, &mut objects)?;
            Ok(objects)
        }
    }
}

/// Some objects, each found by its hash.
fn object_list(alloc: Global, outputs: &[NodeOutput]) -> Result<ObjectList, NoMemory>
    ensures { IfOk result (λ own. (n : ℕ) → has own n ≡ has (objects_written (map output_of outputs.now)) n) }
{
    let mut own = ObjectList::new(alloc);
    'outputs: for output in outputs {
        own.put(output.object)?;
    }
    Ok(own)
}

/// The objects that a node writes and doesn't read: those of a block.
fn own_objects(
    alloc: Global,
    kind: &NodeKind,
    outputs: &[NodeOutput],
) -> Result<ObjectList, NoMemory>
    ensures { IfOk result (λ own. (n : ℕ) → has own n ≡ has (own_objects (node_kind_of kind.now) (objects_written (map output_of outputs.now))) n) }
{
    match kind {
        NodeKind::Block(_) => {
            let own = object_list(alloc, outputs)?;
            Ok(own)
        }
        NodeKind::Assign(_, _) | NodeKind::Gate(_, _) => Ok(ObjectList::new(alloc)),
    }
}

/// Some objects without those that are in a list.
fn others(alloc: Global, objects: &[ObjectId], own: &ObjectList) -> Result<Vec<ObjectId>, NoMemory>
    ensures { IfOk result (λ left. map object_number left.items ≡ filter (is_other own.now) (map object_number objects.now)) }
{
    let mut left = Vec::new(alloc);
    'objects: for object in objects {
        if !own.has(*object) {
            left.push(*object)?;
        }
    }
    Ok(left)
}

/// The objects that a sized node with some outputs reads, of a design with so many objects: in ascending order.
pub fn node_inputs(
    alloc: Global,
    kind: &NodeKind,
    outputs: &[NodeOutput],
    objects: u32,
) -> Result<Vec<ObjectId>, NoMemory>
    requires { IsSizedKind (node_kind_of kind.now) }
    ensures { IfOk result (λ inputs. map object_number inputs.items ≡ filter (has (node_reads (node_kind_of kind.now) (objects_written (map output_of outputs.now)))) (up_from 0 objects)) }
{
    let named = kind_reads(alloc, kind)?;
    let own = own_objects(alloc, kind, outputs)?;
    let read = others(alloc, &named, &own)?;
    let inputs = objects_among(alloc, &read, objects)?;
    Ok(inputs)
}
