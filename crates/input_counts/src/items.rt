// Items that are no instances.

ghost use Rattle.std.specs.Prelude.{◌≡◌, [], ◌∷◌, IfOk, flat_map, map};
ghost use Rattle.v_tree.specs.Trees.{SourceAssignment};
ghost use Rattle.v_tree.specs.Views.{wire_of, assignment_of, gate_of, item_of};
ghost use Rattle.v_elab.specs.ReadCounts.{reads_over, some_reads_over, value_reads, wire_reads, gate_reads, item_reads};
ghost use Rattle.elab_items.specs.Heres.{FindsParameters};

use crate::blocks::block_reads_over;
use crate::counts::{value_over, values_over};
use std::alloc::Global;
use v_elab::Mode;
use v_names::Scope;
use v_tree::{Assignment, Gate, Item, Wire};
use vf_base::NoMemory;

/// Whether the value of a net reads too many objects, where the net has one.
fn wire_reads_over(alloc: Global, scope: &Scope<'_>, wire: &Wire) -> Result<bool, NoMemory>
    ensures { IfOk result (λ over. over ≡ some_reads_over scope.now (wire_reads (wire_of wire.now))) }
{
    match &wire.value {
        None => Ok(false),
        Some(value) => {
            let over = value_over(alloc, scope, value)?;
            Ok(over)
        }
    }
}

/// Whether the value of one of some nets reads too many objects.
fn wires_read_over(alloc: Global, scope: &Scope<'_>, wires: &[Wire]) -> Result<bool, NoMemory>
    ensures { IfOk result (λ over. over ≡ some_reads_over scope.now (flat_map wire_reads (map wire_of wires.now))) }
{
    'wires: for wire in wires {
        let over = wire_reads_over(alloc, scope, wire)?;
        if over {
            return Ok(true);
        }
    }
    Ok(false)
}

/// Whether one of some continuous assignments reads too many objects.
fn assignments_read_over(
    alloc: Global,
    scope: &Scope<'_>,
    assignments: &[Assignment],
) -> Result<bool, NoMemory>
    ensures { IfOk result (λ over. over ≡ some_reads_over scope.now (map (λ (a : SourceAssignment). value_reads a.value) (map assignment_of assignments.now))) }
{
    'assignments: for assignment in assignments {
        let over = value_over(alloc, scope, &assignment.value)?;
        if over {
            return Ok(true);
        }
    }
    Ok(false)
}

/// Whether a gate reads too many objects.
fn gate_reads_over(alloc: Global, scope: &Scope<'_>, gate: &Gate) -> Result<bool, NoMemory>
    ensures { IfOk result (λ over. over ≡ reads_over scope.now (gate_reads (gate_of gate.now))) }
{
    let over = values_over(alloc, scope, gate.inputs.as_slice())?;
    Ok(over)
}

/// Whether one of some gates reads too many objects.
fn gates_read_over(alloc: Global, scope: &Scope<'_>, gates: &[Gate]) -> Result<bool, NoMemory>
    ensures { IfOk result (λ over. over ≡ some_reads_over scope.now (map gate_reads (map gate_of gates.now))) }
{
    'gates: for gate in gates {
        let over = gate_reads_over(alloc, scope, gate)?;
        if over {
            return Ok(true);
        }
    }
    Ok(false)
}

/// Whether a node of an item that is no instance reads more objects than a node may. The scope is that of the item's module, and finds the
/// parameters among its names.
pub fn item_reads_over(
    alloc: Global,
    mode: Mode,
    scope: &Scope<'_>,
    item: &Item,
) -> Result<bool, NoMemory>
    ensures { IfOk result (λ over. FindsParameters scope.now → over ≡ some_reads_over scope.now (item_reads mode scope.now (item_of item.now))) }
{
    match item {
        Item::Params(_) | Item::Ports(_) | Item::Reg { .. } | Item::Integer { .. } => Ok(false),
        Item::Instance { .. } | Item::Initial { .. } => Ok(false),
        Item::Wire { wires, .. } => {
            let over = wires_read_over(alloc, scope, wires.as_slice())?;
            Ok(over)
        }
        Item::Assign { assignments, .. } => {
            let over = assignments_read_over(alloc, scope, assignments.as_slice())?;
            Ok(over)
        }
        Item::Gate { gates, .. } => {
            let over = gates_read_over(alloc, scope, gates.as_slice())?;
            Ok(over)
        }
        Item::Always { body, .. } => {
            let over = block_reads_over(alloc, mode, scope, body)?;
            Ok(over)
        }
    }
}
