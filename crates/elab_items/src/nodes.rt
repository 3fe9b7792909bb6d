// Continuous assignments.

ghost use Rattle.std.specs.Prelude.{◌≡◌, ◌++◌, IfOk, OnOk, map, flat_map};
ghost use Rattle.vf_base.specs.Base.{source_place};
ghost use Rattle.v_tree.specs.Trees.{SourceAssignment};
ghost use Rattle.v_tree.specs.Views.{expression_of, target_of, wire_of, assignment_of};
ghost use Rattle.v_elab.specs.Walk as plain;
ghost use Rattle.v_elab.specs.Walk.{assign_part, wire_parts};
ghost use Rattle.elab_parts.specs.PartViews.{part_of, parts_of};
ghost use Rattle.elab_items.specs.Heres.{IsHere};
ghost use Rattle.elab_items.specs.Wholes.{whole_name};
ghost use Rattle.select_bits.specs.Runs.{TargetTakesRuns};
ghost use Rattle.elab_items.specs.Runs.{AssignmentsTakeRuns};

use crate::declared::push_part;
use crate::drives::drives_of;
use crate::here::Here;
use elab_parts::{Part, ValueIn};
use expr_sizes::{Writer, read_expr, target_width_in};
use std::alloc::Global;
use v_copy::copy_text;
use v_tree::{Assignment, Expr, Index, Select, Target, Wire};
use vf_base::{NoMemory, Place, Text};

/// The assignment of a value to a target, sized by the larger of both.
fn assign_part<'u>(
    alloc: Global,
    here: &Here<'_, 'u>,
    target: &Target,
    value: &Expr,
) -> Result<Part<'u>, NoMemory>
    requires { TargetTakesRuns here.now.scope.value (target_of target.now) }
    ensures { IfOk result (λ part. (h : plain.Here) → IsHere h here.now → part_of part ≡ assign_part h (target_of target.now) (expression_of value.now)) }
{
    let drives = drives_of(alloc, &here.path, &here.scope, target)?;
    let width = target_width_in(alloc, Writer::Node, target, &here.scope)?;
    let read = read_expr(alloc, value, &here.scope)?;
    let path = here.path.clone()?;
    Ok(Part::Assign {
        drives,
        value: ValueIn {
            path,
            value: read.tree_in(width),
        },
    })
}

/// A whole name as a target.
fn whole_name(alloc: Global, name: &Text, place: Place) -> Result<Target, NoMemory>
    ensures { IfOk result (λ target. target_of target ≡ whole_name name.now (source_place place)) }
{
    let name = copy_text(alloc, name)?;
    Ok(Target::One(Select {
        place,
        name,
        index: Index::Whole,
    }))
}

/// Adds the assignment of a net's value, if the net has one where it is declared.
fn push_wire<'u>(
    alloc: Global,
    here: &Here<'_, 'u>,
    wire: &Wire,
    parts: &mut Vec<Part<'u>>,
) -> Result<(), NoMemory>
    ensures { OnOk result ((h : plain.Here) → IsHere h here.now → parts_of parts.new.items ≡ parts_of parts.old.items ++ wire_parts h (wire_of wire.now)) }
{
    match &wire.value {
        None => Ok(()),
        Some(value) => {
            let target = whole_name(alloc, &wire.name, wire.place)?;
            let part = assign_part(alloc, here, &target, value)?;
            push_part(part, parts)?;
            Ok(())
        }
    }
}

/// Adds the assignments of the values of nets.
pub fn push_wire_values<'u>(
    alloc: Global,
    here: &Here<'_, 'u>,
    wires: &[Wire],
    parts: &mut Vec<Part<'u>>,
) -> Result<(), NoMemory>
    ensures { OnOk result ((h : plain.Here) → IsHere h here.now → parts_of parts.new.items ≡ parts_of parts.old.items ++ flat_map (wire_parts h) (map wire_of wires.now)) }
{
    'wires: for wire in wires {
        push_wire(alloc, here, wire, parts)?;
    }
    Ok(())
}

/// Adds continuous assignments.
pub fn push_assignments<'u>(
    alloc: Global,
    here: &Here<'_, 'u>,
    assignments: &[Assignment],
    parts: &mut Vec<Part<'u>>,
) -> Result<(), NoMemory>
    requires { AssignmentsTakeRuns here.now.scope.value (map assignment_of assignments.now) }
    ensures { OnOk result ((h : plain.Here) → IsHere h here.now →
        parts_of parts.new.items ≡ parts_of parts.old.items ++ map (λ (a : SourceAssignment). assign_part h a.target a.value) (map assignment_of assignments.now)) }
{
    'assignments: for assignment in assignments {
        let part = assign_part(alloc, here, &assignment.target, &assignment.value)?;
        push_part(part, parts)?;
    }
    Ok(())
}
