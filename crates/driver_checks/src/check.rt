// Whether a bit of a walk has two drivers.

ghost use Rattle.std.specs.Prelude.{◌≡◌, ◌∷◌, [], None, Some, IfOk, IfErr, OnOk, map, flat_map, option_map};
ghost use Rattle.vf_base.specs.Base.{source_place};
ghost use Rattle.v_ports.specs.Pieces.{second_driver};
ghost use Rattle.v_names.specs.Scopes.{range_width};
ghost use Rattle.v_elab.specs.Drivers.{signals_of, join_place, taken_bits, by_depth, run_of, refusal_of};
ghost use Rattle.elab_parts.specs.PartViews.{part_of, parts_of, signal_of};
ghost use Rattle.elab_wires.specs.SignalTables.{signal_borrowed};
ghost use Rattle.elab_wires.specs.DriveViews.{drive_keyed, object_drive_of};
ghost use Rattle.elab_objects.specs.Driven.{driving_keyed};
ghost use Rattle.driver_checks.specs.Overlaps.{bits_of, second_of};
ghost use Rattle.driver_checks.specs.TwoDrivers.{signal_two_by, two_drivers_by, FaultGives};

use crate::fault::DriverFault;
use crate::overlap::{Overlap, second_driver};
use crate::second::second_by_depth;
use elab_parts::{DrivenBits, Part, Signal};
use elab_wires::ObjectDrive;
use key_index::Grouped;
use std::alloc::Global;
use vf_base::{NoMemory, Place};

/// Where a variable is joined, or else declared.
fn join_place(signal: &Signal) -> Place
    ensures { source_place result ≡ join_place (signal_of signal.now) }
{
    match &signal.joined {
        None => signal.place,
        Some(joining) => joining.place,
    }
}

/// The bits of an object that are taken by the variables that drive it: all, if there is one.
fn taken_bits(
    alloc: Global,
    signal: &Signal,
    variables: &[&Signal],
) -> Result<Vec<DrivenBits>, NoMemory>
    ensures { IfOk result (λ taken. flat_map bits_of taken.items ≡ taken_bits (range_width (signal_of signal.now).range) (by_depth (map signal_borrowed variables.now))) }
{
    let mut taken = Vec::new(alloc);
    let none = variables.len() == 0;
    if none {
        return Ok(taken);
    }
    taken.push(DrivenBits {
        outside_below: 0,
        low: 0,
        width: u64::from(signal.range.width()),
        outside_above: 0,
    })?;
    Ok(taken)
}

/// The fault of a drive that overlaps another.
fn overlap_fault(overlap: Overlap) -> DriverFault
    ensures { FaultGives (refusal_of (Some (second_of overlap))) result }
{
    DriverFault::TwoDrivers {
        place: overlap.place,
        bit: overlap.bit,
    }
}

/// Checks the selects that drive an object, of which a variable may have taken the bits.
fn check_selects(
    alloc: Global,
    signal: &Signal,
    variables: &[&Signal],
    selects: &[ObjectDrive],
) -> Result<(), DriverFault>
    ensures ok { OnOk result (second_driver (taken_bits (range_width (signal_of signal.now).range) (by_depth (map signal_borrowed variables.now))) (map run_of
        (map object_drive_of selects.now)) ≡ None) }
    ensures err { IfErr result (FaultGives (refusal_of (second_driver (taken_bits (range_width (signal_of signal.now).range) (by_depth
        (map signal_borrowed variables.now))) (map run_of (map object_drive_of selects.now))))) }
{
    let mut taken = taken_bits(alloc, signal, variables)?;
    match second_driver(&mut taken, selects)? {
        None => Ok(()),
        Some(overlap) => Err(overlap_fault(overlap)),
    }
}

/// Checks the drivers of an object by its outermost name.
fn check_signal(
    alloc: Global,
    drives: &Grouped<'_, ObjectDrive>,
    driving: &Grouped<'_, &Signal>,
    signal: &Signal,
) -> Result<(), DriverFault>
    ensures ok { OnOk result (signal_two_by (map drive_keyed drives.now) (map driving_keyed driving.now) (signal_of signal.now) ≡ None) }
    ensures err { IfErr result (FaultGives (signal_two_by (map drive_keyed drives.now) (map driving_keyed driving.now) (signal_of signal.now))) }
{
    let name = signal.name.as_bytes();
    let variables = driving.all(alloc, name)?;
    if let Some(second) = second_by_depth(&variables) {
        let place = join_place(second);
        return Err(DriverFault::TwoDrivers { place, bit: 0 });
    }
    let selects = drives.all(alloc, name)?;
    check_selects(alloc, signal, &variables, &selects)?;
    Ok(())
}

/// Checks the drivers of a part, where it is a net or a variable that isn't joined into another one.
fn check_part(
    alloc: Global,
    drives: &Grouped<'_, ObjectDrive>,
    driving: &Grouped<'_, &Signal>,
    part: &Part<'_>,
) -> Result<(), DriverFault>
    ensures ok { OnOk result (two_drivers_by (map drive_keyed drives.now) (map driving_keyed driving.now) (signals_of (part_of part.now ∷ [])) ≡ None) }
    ensures err { IfErr result (FaultGives (two_drivers_by (map drive_keyed drives.now) (map driving_keyed driving.now) (signals_of (part_of part.now ∷ [])))) }
{
    match part {
        Part::Signal(signal) => {
            if signal.joined.is_some() {
                return Ok(());
            }
            check_signal(alloc, drives, driving, signal)?;
            Ok(())
        }
        Part::Memory(_)
        | Part::Assign { .. }
        | Part::Gate { .. }
        | Part::Process(_)
        | Part::Instance => Ok(()),
    }
}

/// Checks that each bit of the objects of some parts has one driver at most, by the selects and the variables that drive under the outermost names.
///
/// The fault is that of the first object of the walk that has two: a second variable that drives it, at the connection that joins it, or else the first
/// select that overlaps an earlier one or the object's variable, with the least bit of both.
pub fn one_driver(
    alloc: Global,
    drives: &Grouped<'_, ObjectDrive>,
    driving: &Grouped<'_, &Signal>,
    parts: &[Part<'_>],
) -> Result<(), DriverFault>
    ensures ok { OnOk result (two_drivers_by (map drive_keyed drives.now) (map driving_keyed driving.now) (signals_of (parts_of parts.now)) ≡ None) }
    ensures err { IfErr result (FaultGives (two_drivers_by (map drive_keyed drives.now) (map driving_keyed driving.now) (signals_of (parts_of parts.now)))) }
{
    'parts: for part in parts {
        check_part(alloc, drives, driving, part)?;
    }
    Ok(())
}
