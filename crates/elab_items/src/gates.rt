// Gates.

ghost use Rattle.std.specs.Prelude.{◌≡◌, ◌≤◌, ◌++◌, ◌+◌, ◌^◌, IfOk, OnOk, map};
ghost use Rattle.v_tree.specs.Views.{expression_of, target_of, name_in, gate_of};
ghost use Rattle.v_elab.specs.Walk as plain;
ghost use Rattle.v_elab.specs.Walk.{terminals_of, gate_name, gate_parts};
ghost use Rattle.v_width.specs.SizedViews.{all_sized_of};
ghost use Rattle.elab_parts.specs.PartViews.{part_of, parts_of};
ghost use Rattle.elab_items.specs.Heres.{IsHere};
ghost use Rattle.select_bits.specs.Runs.{TargetTakesRuns};
ghost use Rattle.elab_items.specs.Gates.{gate_part};
ghost use Rattle.elab_items.specs.Runs.{GatesTakeRuns};

use crate::declared::push_part;
use crate::drives::{drives_of, hierarchical};
use crate::here::Here;
use elab_parts::Part;
use expr_sizes::read_expr;
use four_value::GateKind;
use std::alloc::Global;
use v_copy::copy_text;
use v_names::Scope;
use v_tree::{Expr, Gate, Name};
use v_width::SizedExpr;
use vf_base::{NoMemory, Text};

/// The terminals of a gate, each of one bit at least.
fn terminals_of(
    alloc: Global,
    scope: &Scope<'_>,
    inputs: &[Expr],
) -> Result<Vec<SizedExpr>, NoMemory>
    ensures { IfOk result (λ terminals. all_sized_of terminals.items ≡ terminals_of scope.now (map expression_of inputs.now)) }
{
    let mut terminals = Vec::new(alloc);
    'inputs: for input in inputs {
        let read = read_expr(alloc, input, scope)?;
        terminals.push(read.tree_in(1))?;
    }
    Ok(terminals)
}

/// The name of a gate; one without a name is called by its number.
fn gate_name(alloc: Global, number: u128, name: &Option<Name>) -> Result<Text, NoMemory>
    ensures { IfOk result (λ text. text ≡ gate_name number (name_in name.now)) }
{
    match name {
        None => {
            let digits = number.to_string(alloc)?;
            let mut text = Vec::from_slice(alloc, b"$g")?;
            text.extend_from_slice(digits.as_bytes())?;
            Ok(Text::from_vec(text))
        }
        Some(name) => {
            let copy = copy_text(alloc, &name.name)?;
            Ok(copy)
        }
    }
}

/// A gate of a number among its module's gates, from 1.
fn gate_part<'u>(
    alloc: Global,
    here: &Here<'_, 'u>,
    kind: GateKind,
    number: u128,
    gate: &Gate,
) -> Result<Part<'u>, NoMemory>
    requires { TargetTakesRuns here.now.scope.value (target_of gate.now.output) }
    ensures { IfOk result (λ part. (h : plain.Here) → IsHere h here.now → part_of part ≡ gate_part h kind number (gate_of gate.now)) }
{
    let own = gate_name(alloc, number, &gate.name)?;
    let name = hierarchical(alloc, &here.path, own.as_bytes())?;
    let drives = drives_of(alloc, &here.path, &here.scope, &gate.output)?;
    let path = here.path.clone()?;
    let terminals = terminals_of(alloc, &here.scope, gate.inputs.as_slice())?;
    Ok(Part::Gate {
        name,
        kind,
        drives,
        path,
        terminals,
    })
}

/// Adds gates behind some gates of the module.
pub fn push_gates<'u>(
    alloc: Global,
    here: &Here<'_, 'u>,
    kind: GateKind,
    before: u128,
    gates: &[Gate],
    parts: &mut Vec<Part<'u>>,
) -> Result<(), NoMemory>
    requires few { before + 2 ^ 65 ≤ 2 ^ 128 }
    requires runs { GatesTakeRuns here.now.scope.value (map gate_of gates.now) }
    ensures { OnOk result ((h : plain.Here) → IsHere h here.now → parts_of parts.new.items ≡ parts_of parts.old.items ++ gate_parts h kind (before + 1) (map gate_of gates.now)) }
{
    let first = before + 1;
    'gates: for (place, gate) in gates.iter().enumerate() {
        let part = gate_part(alloc, here, kind, first + place as u128, gate)?;
        push_part(part, parts)?;
    }
    Ok(())
}
