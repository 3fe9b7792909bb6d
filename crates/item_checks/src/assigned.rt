// What is wrong with assignments and gates.

ghost use Rattle.std.specs.Prelude.{◌≡◌, [], OnOk, IfOk, map, flat_map, option_map};
ghost use Rattle.vf_base.specs.Base.{source_place};
ghost use Rattle.v_tree.specs.Trees.{SourceAssignment, place_of_target};
ghost use Rattle.v_tree.specs.Views.{expression_of, target_of, wire_of, assignment_of, gate_of};
ghost use Rattle.v_names.specs.Scopes.{looked_up};
ghost use Rattle.v_names.specs.SizeViews.{size_of};
ghost use Rattle.v_width.specs.Summaries.{AreFaults};
ghost use Rattle.v_width.specs.Targets.{ByNode, width_of_size, target_reading, target_alone_faults};
ghost use Rattle.v_elab.specs.ItemFaults.{is_not_one, assigned_faults, output_faults, terminal_faults, gate_faults, wire_faults};
ghost use Rattle.name_checks.specs.Noted.{noted};
ghost use Rattle.expr_sizes.specs.TargetReadings.{writer_of};
ghost use Rattle.item_checks.specs.Wholes.{net_width_faults, whole_net_faults};

use crate::groups::{note_group, note_where};
use expr_sizes::{Writer, own_reading, target_reading};
use name_checks::FirstFault;
use std::alloc::Global;
use v_names::{Entry, Reason, Scope, Size, place_of_expr, size_within, span};
use v_tree::{Assignment, Expr, Gate, Target, Wire};
use v_width::{Faults, bad_width, no_faults, together, wrong_kind};
use vf_base::{NoMemory, Place, Text};

/// Notes what is wrong with a target and the value that it is assigned.
pub fn note_assigned(
    alloc: Global,
    writer: Writer,
    scope: &Scope<'_>,
    target: &Target,
    value: &Expr,
    first: &mut FirstFault,
) -> Result<(), NoMemory>
    ensures { OnOk result (first.new ≡ noted first.old (assigned_faults (writer_of writer) scope.now (target_of target.now) (expression_of value.now))) }
{
    let target = target_reading(alloc, writer, target, scope)?;
    let value = own_reading(alloc, value, scope)?;
    note_group(together(target.faults, value.faults), first);
    Ok(())
}

/// Notes what is wrong with some assignments of nets.
pub fn note_assignments(
    alloc: Global,
    scope: &Scope<'_>,
    assignments: &[Assignment],
    first: &mut FirstFault,
) -> Result<(), NoMemory>
    ensures { OnOk result (first.new ≡ noted first.old (flat_map (λ (a : SourceAssignment). assigned_faults ByNode scope.now a.target a.value) (map assignment_of assignments.now))) }
{
    'assignments: for assignment in assignments {
        note_assigned(
            alloc,
            Writer::Node,
            scope,
            &assignment.target,
            &assignment.value,
            first,
        )?;
    }
    Ok(())
}

/// What is wrong with a whole net of this many bits that is assigned.
fn net_faults(width: u64, place: Place) -> Faults
    ensures { AreFaults (net_width_faults width (source_place place)) [] result }
{
    match size_within(width, false) {
        None => bad_width(place),
        Some(_) => no_faults(),
    }
}

/// What is wrong with a whole name that is assigned as a net.
fn whole_faults(scope: &Scope<'_>, name: &Text, place: Place) -> Faults
    ensures { AreFaults (whole_net_faults (looked_up scope.now name.now) (source_place place)) [] result }
{
    match scope.lookup(name) {
        None => no_faults(),
        Some(Entry::Net { high, low, .. }) => net_faults(span(high, low), place),
        Some(_) => wrong_kind(place),
    }
}

/// Notes what is wrong with a net and the value that it is assigned where it is declared.
fn note_wire(
    alloc: Global,
    scope: &Scope<'_>,
    wire: &Wire,
    first: &mut FirstFault,
) -> Result<(), NoMemory>
    ensures { OnOk result (first.new ≡ noted first.old (wire_faults scope.now (wire_of wire.now))) }
{
    match &wire.value {
        None => Ok(()),
        Some(value) => {
            let target = whole_faults(scope, &wire.name, wire.place);
            let value = own_reading(alloc, value, scope)?;
            note_group(together(target, value.faults), first);
            Ok(())
        }
    }
}

/// Notes what is wrong with some nets and their values.
pub fn note_wires(
    alloc: Global,
    scope: &Scope<'_>,
    wires: &[Wire],
    first: &mut FirstFault,
) -> Result<(), NoMemory>
    ensures { OnOk result (first.new ≡ noted first.old (flat_map (wire_faults scope.now) (map wire_of wires.now))) }
{
    'wires: for wire in wires {
        note_wire(alloc, scope, wire, first)?;
    }
    Ok(())
}

/// Where a target begins.
fn place_of(target: &Target) -> Place
    ensures { source_place result ≡ place_of_target (target_of target.now) }
{
    match target {
        Target::One(select) => select.place,
        Target::Joined(place, _) => *place,
    }
}

/// Whether a width is there that isn't one bit.
fn is_not_one(width: Option<u8>) -> bool
    ensures { result ≡ is_not_one width }
{
    match width {
        None => false,
        Some(width) => width != 1,
    }
}

/// The width of a size.
fn width_of(size: Option<Size>) -> Option<u8>
    ensures { result ≡ width_of_size (option_map size_of size) }
{
    match size {
        None => None,
        Some(size) => Some(size.width),
    }
}

/// Notes what is wrong with a target of a node, and answers its width, if it has one.
pub fn note_net_target(
    alloc: Global,
    scope: &Scope<'_>,
    target: &Target,
    first: &mut FirstFault,
) -> Result<Option<u8>, NoMemory>
    ensures noted { OnOk result (first.new ≡ noted first.old (target_alone_faults (target_reading ByNode scope.now (target_of target.now)))) }
    ensures width { IfOk result (λ width. width ≡ (target_reading ByNode scope.now (target_of target.now)).width) }
{
    let read = target_reading(alloc, Writer::Node, target, scope)?;
    note_group(read.faults, first);
    Ok(read.width)
}

/// Notes what is wrong with the output of a gate, which has one bit.
fn note_output(
    alloc: Global,
    scope: &Scope<'_>,
    target: &Target,
    first: &mut FirstFault,
) -> Result<(), NoMemory>
    ensures { OnOk result (first.new ≡ noted first.old (output_faults scope.now (target_of target.now))) }
{
    let width = note_net_target(alloc, scope, target, first)?;
    note_where(
        is_not_one(width),
        place_of(target),
        Reason::BadConnection,
        first,
    );
    Ok(())
}

/// Notes what is wrong with an input of a gate, which has one bit.
fn note_terminal(
    alloc: Global,
    scope: &Scope<'_>,
    expr: &Expr,
    first: &mut FirstFault,
) -> Result<(), NoMemory>
    ensures { OnOk result (first.new ≡ noted first.old (terminal_faults scope.now (expression_of expr.now))) }
{
    let read = own_reading(alloc, expr, scope)?;
    note_group(read.faults, first);
    note_where(
        is_not_one(width_of(read.size)),
        place_of_expr(expr),
        Reason::BadConnection,
        first,
    );
    Ok(())
}

/// Notes what is wrong with the inputs of a gate.
fn note_terminals(
    alloc: Global,
    scope: &Scope<'_>,
    inputs: &[Expr],
    first: &mut FirstFault,
) -> Result<(), NoMemory>
    ensures { OnOk result (first.new ≡ noted first.old (flat_map (terminal_faults scope.now) (map expression_of inputs.now))) }
{
    'inputs: for input in inputs {
        note_terminal(alloc, scope, input, first)?;
    }
    Ok(())
}

/// Notes what is wrong with some gates.
pub fn note_gates(
    alloc: Global,
    scope: &Scope<'_>,
    gates: &[Gate],
    first: &mut FirstFault,
) -> Result<(), NoMemory>
    ensures { OnOk result (first.new ≡ noted first.old (flat_map (gate_faults scope.now) (map gate_of gates.now))) }
{
    'gates: for gate in gates {
        note_output(alloc, scope, &gate.output, first)?;
        note_terminals(alloc, scope, gate.inputs.as_slice(), first)?;
    }
    Ok(())
}
