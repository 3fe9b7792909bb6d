// What the nodes of a design do.

ghost use Rattle.std.specs.Prelude.{◌≡◌, IfOk, List, map};
ghost use Rattle.v_design.specs.Plain.{node_kind_of};
ghost use Rattle.v_width.specs.SizedViews.{all_sized_of};
ghost use Rattle.v_elab.specs.Drivers.{AssignFunction, GateFunction, BlockFunction};
ghost use Rattle.v_tree.specs.Views as source;
ghost use Rattle.v_elab.specs.Parts.{Part};
ghost use Rattle.v_elab.specs.Objects.{HeldObject};
ghost use Rattle.v_elab.specs.Statements.{block_body};
ghost use Rattle.v_elab.specs.Flat as plain;
ghost use Rattle.elab_parts.specs.PartViews as walked;
ghost use Rattle.elab_parts.specs.BehaviourViews.{function_of};
ghost use Rattle.object_names.specs.OutputViews.{output_of};
ghost use Rattle.object_expr.specs.Narrow.{IsNarrowTree, AreNarrowTrees};
ghost use Rattle.elab_nodes.specs.Bases.{IsBasis};
ghost use Rattle.elab_nodes.specs.Texts.{HasSizedFunction};

use crate::basis::Basis;
use crate::process::meaning_of;
use elab_parts::{NodeFunction, ValueIn, WalkedProcess};
use four_value::GateKind;
use object_expr::{all_over_objects, over_objects};
use object_names::{InstanceNames, NodeOutput};
use object_statements::statement_over;
use std::alloc::Global;
use v_design::NodeKind;
use v_tree::Stmt;
use v_width::SizedExpr;
use vf_base::{NoMemory, Seq, Text};

/// Where the outputs of a node stand in its value.
fn output_places(alloc: Global, outputs: &[NodeOutput]) -> Result<Seq<u32>, NoMemory>
    ensures { IfOk result (λ places. places ≡ map (λ (o : plain.NodeOutput). o.place) (map output_of outputs.now)) }
{
    let mut places = Vec::new(alloc);
    'outputs: for output in outputs {
        places.push(output.place)?;
    }
    Ok(Seq::from_vec(places))
}

/// A continuous assignment; the bounds and counts of its value have 32 bits.
fn assign_kind(
    alloc: Global,
    basis: Basis<'_>,
    outputs: &[NodeOutput],
    value: &ValueIn,
) -> Result<NodeKind, NoMemory>
    requires { IsNarrowTree (walked.value_of value.now).value }
    ensures { IfOk result (λ kind. (parts : List Part) (objects : List HeldObject) → IsBasis parts objects basis.entry →
        node_kind_of kind ≡ plain.node_kind parts objects (map output_of outputs.now) (AssignFunction (walked.value_of value.now))) }
{
    let names = InstanceNames {
        names: basis.names,
        path: &value.path,
    };
    let expr = over_objects(alloc, names, &value.value)?;
    let places = output_places(alloc, outputs)?;
    Ok(NodeKind::Assign(expr, places))
}

/// A gate; the bounds and counts of its terminals have 32 bits.
fn gate_kind(
    alloc: Global,
    basis: Basis<'_>,
    kind: GateKind,
    path: &Text,
    terminals: &[SizedExpr],
) -> Result<NodeKind, NoMemory>
    requires { AreNarrowTrees (all_sized_of terminals.now) }
    ensures { IfOk result (λ made. (parts : List Part) (objects : List HeldObject) (outputs : List plain.NodeOutput) → IsBasis parts objects basis.entry →
        node_kind_of made ≡ plain.node_kind parts objects outputs (GateFunction kind path.now (all_sized_of terminals.now))) }
{
    let names = InstanceNames {
        names: basis.names,
        path,
    };
    let terminals = all_over_objects(alloc, names, terminals)?;
    Ok(NodeKind::Gate(kind, terminals))
}

/// What a block does once it is woken.
fn block_body(body: &Stmt) -> &Stmt
    ensures { source.statement_of result.now ≡ block_body (source.statement_of body.now) }
{
    match body {
        Stmt::Event { body, .. } => body,
        _ => body,
    }
}

/// A block of combinational form.
fn block_kind(
    alloc: Global,
    basis: Basis<'_>,
    process: &WalkedProcess<'_>,
) -> Result<NodeKind, NoMemory>
    requires { HasSizedFunction basis (BlockFunction (walked.process_of process.now)) }
    ensures { IfOk result (λ kind. (parts : List Part) (objects : List HeldObject) (outputs : List plain.NodeOutput) → IsBasis parts objects basis.entry →
        node_kind_of kind ≡ plain.node_kind parts objects outputs (BlockFunction (walked.process_of process.now))) }
{
    let meaning = meaning_of(basis, process);
    let statement = statement_over(alloc, meaning, block_body(process.body))?;
    Ok(NodeKind::Block(statement))
}

/// What a node with some outputs does.
pub fn node_kind(
    alloc: Global,
    basis: Basis<'_>,
    outputs: &[NodeOutput],
    function: &NodeFunction<'_, '_>,
) -> Result<NodeKind, NoMemory>
    requires { HasSizedFunction basis (function_of function.now) }
    ensures { IfOk result (λ kind. (parts : List Part) (objects : List HeldObject) → IsBasis parts objects basis.entry →
        node_kind_of kind ≡ plain.node_kind parts objects (map output_of outputs.now) (function_of function.now)) }
{
    match function {
        NodeFunction::Assign(value) => {
            let kind = assign_kind(alloc, basis, outputs, value)?;
            Ok(kind)
        }
        NodeFunction::Gate {
            kind,
            path,
            terminals,
        } => {
            let kind = gate_kind(alloc, basis, *kind, path, terminals)?;
            Ok(kind)
        }
        NodeFunction::Block(process) => {
            let kind = block_kind(alloc, basis, process)?;
            Ok(kind)
        }
    }
}
