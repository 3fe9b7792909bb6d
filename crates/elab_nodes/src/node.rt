// The nodes of a design.

ghost use Rattle.std.specs.Prelude.{◌≡◌, ℕ, ◌<◌, ◌≤◌, IfOk, List, [], ◌∷◌, length, map};
ghost use Rattle.v_design.specs.Plain.{node_of};
ghost use Rattle.v_design.specs.Expressions.{up_from};
ghost use Rattle.v_design.specs.WellFormed.{most_parts};
ghost use Rattle.v_elab.specs.Parts.{Part};
ghost use Rattle.v_elab.specs.Objects.{HeldObject};
ghost use Rattle.v_elab.specs.Flat as plain;
ghost use Rattle.elab_parts.specs.BehaviourViews as walked;
ghost use Rattle.object_names.specs.OutputViews.{output_of, output_lists};
ghost use Rattle.elab_nodes.specs.Bases.{IsBasis};
ghost use Rattle.elab_nodes.specs.Nodes.{node_by, HasSizedNodes};
ghost use Rattle.elab_nodes.specs.Inputs.{objects_written};
ghost use Rattle.vf_base.specs.Base.{object_number};

use crate::basis::Basis;
use crate::inputs::node_inputs;
use crate::kinds::node_kind;
use elab_parts::WalkedNode;
use object_names::NodeOutput;
use std::alloc::Global;
use v_design::Node;
use vf_base::{NoMemory, ObjectId, Seq, Text};

/// The objects that a node writes.
fn output_objects(alloc: Global, outputs: &[NodeOutput]) -> Result<Seq<ObjectId>, NoMemory>
    ensures { IfOk result (λ objects. map object_number objects ≡ objects_written (map output_of outputs.now)) }
{
    let mut objects = Vec::new(alloc);
    'outputs: for output in outputs {
        objects.push(output.object)?;
    }
    Ok(Seq::from_vec(objects))
}

/// The name of a node; only a gate has one.
fn name_of(alloc: Global, name: Option<&Text>) -> Result<Text, NoMemory>
    ensures { IfOk result (λ text. text ≡ walked.name_or_none name.entry) }
{
    match name {
        None => Ok(Text::from_vec(Vec::new(alloc))),
        Some(name) => {
            let text = Text::from_bytes(alloc, name.as_bytes())?;
            Ok(text)
        }
    }
}

/// A sized node with its outputs.
fn flat_node(
    alloc: Global,
    basis: Basis<'_>,
    outputs: &[NodeOutput],
    node: &WalkedNode<'_, '_>,
) -> Result<Node, NoMemory>
    requires few { length basis.widths.now ≤ most_parts }
    requires sized { HasSizedNodes basis (walked.node_of node.now ∷ []) }
    ensures { IfOk result (λ flat. (parts : List Part) (objects : List HeldObject) → IsBasis parts objects basis.entry →
        node_of flat ≡ node_by parts objects (map output_of outputs.now) (walked.node_of node.now)) }
{
    let kind = node_kind(alloc, basis, outputs, &node.function)?;
    let inputs = node_inputs(alloc, &kind, outputs, basis.widths.len() as u32)?;
    Ok(Node {
        kind,
        inputs: Seq::from_vec(inputs),
        outputs: output_objects(alloc, outputs)?,
        name: name_of(alloc, node.name)?,
    })
}

/// The outputs of the node of a number.
fn outputs_at(outputs: &[Vec<NodeOutput>], number: usize) -> &[NodeOutput]
    ensures { (objects : List HeldObject) (count : ℕ) → output_lists outputs.now ≡ map (plain.outputs_of objects) (up_from 0 count) → number < count →
        map output_of result.now ≡ plain.outputs_of objects number }
{
    match outputs.get(number) {
        Some(own) => own,
        None => &[],
    }
}

/// The nodes of a walk in their order, with the outputs of each, of a design with at most 65,536 objects over which the nodes are sized.
///
/// # Errors
///
/// Want of memory.
pub fn walked_nodes(
    alloc: Global,
    basis: Basis<'_>,
    outputs: &[Vec<NodeOutput>],
    nodes: &[WalkedNode<'_, '_>],
) -> Result<Vec<Node>, NoMemory>
    requires few { length basis.widths.now ≤ most_parts }
    requires sized { HasSizedNodes basis (map walked.node_of nodes.now) }
    ensures { IfOk result (λ flats. (parts : List Part) (objects : List HeldObject) → IsBasis parts objects basis.entry →
        output_lists outputs.now ≡ map (plain.outputs_of objects) (up_from 0 (length nodes.now)) → map node_of flats.items ≡ plain.walked_nodes parts objects (map walked.node_of nodes.now)) }
{
    let mut flats = Vec::new(alloc);
    'nodes: for (number, node) in nodes.iter().enumerate() {
        let own = outputs_at(outputs, number);
        flats.push(flat_node(alloc, basis, own, node)?)?;
    }
    Ok(flats)
}
