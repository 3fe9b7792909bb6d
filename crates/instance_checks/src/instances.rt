// The first thing that is wrong with the instances of an item.

ghost use Rattle.std.specs.Prelude.{◌≡◌, ◌++◌, [], OnOk, IfOk, map, flat_map, option_map};
ghost use Rattle.v_tree.specs.Views.{connection_of, instance_of};
ghost use Rattle.v_names.specs.Faults.{first_fault};
ghost use Rattle.v_names.specs.FaultViews.{fault_of};
ghost use Rattle.v_elab.specs.Connections as plain;
ghost use Rattle.v_elab.specs.Connections.{open_parameters, given_faults, instance_faults};
ghost use Rattle.name_checks.specs.Noted.{noted};
ghost use Rattle.instance_checks.specs.Children.{IsChild};

use crate::actuals::Child;
use crate::connections::note_connections;
use crate::given::note_given;
use name_checks::FirstFault;
use std::alloc::Global;
use v_names::{Found, Reason};
use v_tree::{Connection, Instance};
use vf_base::{MAX_DEPTH, NoMemory};

/// Notes what is wrong with an instance at a depth: where it stands too deep, that alone, at its name.
fn note_instance<'m>(
    alloc: Global,
    child: Child<'_, 'm>,
    depth: u32,
    instance: &'m Instance,
    first: &mut FirstFault,
) -> Result<(), NoMemory>
    ensures { OnOk result ((c : plain.Child) → IsChild c child.entry → first.new ≡ noted first.old (instance_faults c depth (instance_of instance.now))) }
{
    if depth > MAX_DEPTH {
        first.note(Found {
            place: instance.place,
            reason: Reason::TooDeep,
        });
        return Ok(());
    }
    note_connections(alloc, child, instance.connections.as_slice(), first)?;
    Ok(())
}

/// Notes what is wrong with some instances.
fn note_instances<'m>(
    alloc: Global,
    child: Child<'_, 'm>,
    depth: u32,
    instances: &'m [Instance],
    first: &mut FirstFault,
) -> Result<(), NoMemory>
    ensures { OnOk result ((c : plain.Child) → IsChild c child.entry → first.new ≡ noted first.old (flat_map (instance_faults c depth) (map instance_of instances.now))) }
{
    'instances: for instance in instances {
        note_instance(alloc, child, depth, instance, first)?;
    }
    Ok(())
}

/// The first thing that is wrong with instances of one module that stand at a depth, and with the parameters that they set, by its place in
/// the text and at one place by its reason; none where nothing is.
pub fn instance_fault<'m>(
    alloc: Global,
    child: Child<'_, 'm>,
    depth: u32,
    parameters: &'m [Connection],
    instances: &'m [Instance],
) -> Result<Option<Found>, NoMemory>
    ensures { IfOk result (λ found. (c : plain.Child) → IsChild c child.entry →
        option_map fault_of found ≡ first_fault (given_faults c.outer_scope (open_parameters c.inner) 0 [] (map connection_of parameters.now) ++ flat_map
        (instance_faults c depth) (map instance_of instances.now))) }
{
    let mut first = FirstFault::new();
    note_given(alloc, child.outer, child.formals, parameters, &mut first)?;
    note_instances(alloc, child, depth, instances, &mut first)?;
    Ok(first.found())
}
