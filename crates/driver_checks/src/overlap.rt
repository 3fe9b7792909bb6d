// Drives that have a bit in common.

ghost use Rattle.std.specs.Prelude.{◌≡◌, ◌++◌, IfOk, OnOk, map, flat_map, option_map};
ghost use Rattle.v_ports.specs.Pieces.{least_among, second_driver};
ghost use Rattle.v_elab.specs.Drivers.{run_of};
ghost use Rattle.elab_wires.specs.DriveViews.{object_drive_of};
ghost use Rattle.driver_checks.specs.Overlaps.{bits_of, lesser, second_of};

use elab_parts::DrivenBits;
use elab_wires::ObjectDrive;
use vf_base::{NoMemory, Place};

/// A drive that overlaps an earlier one: its place, and the least bit of both.
#[derive(Clone, Copy, Debug)]
pub struct Overlap {
    pub place: Place,
    pub bit: u64,
}

/// The least bit of two runs.
fn shared_bit(one: DrivenBits, other: DrivenBits) -> Option<u64>
    ensures { result ≡ least_among (bits_of one) (bits_of other) }
{
    let low = one.low.max(other.low);
    let end = (one.low + one.width).min(other.low + other.width);
    if low < end { Some(low) } else { None }
}

/// The lesser of two bits.
fn lesser(one: Option<u64>, other: Option<u64>) -> Option<u64>
    ensures { result ≡ lesser one other }
{
    match (one, other) {
        (Some(bit), Some(another)) => Some(bit.min(another)),
        (Some(bit), None) => Some(bit),
        (None, other) => other,
    }
}

/// The least bit of a run that is in one of some runs.
fn least_taken(taken: &[DrivenBits], bits: DrivenBits) -> Option<u64>
    ensures { result ≡ least_among (flat_map bits_of taken.now) (bits_of bits) }
{
    let mut least = None;
    'taken: for run in taken {
        least = lesser(least, shared_bit(*run, bits));
    }
    least
}

/// Adds a run to those that are taken, where it has a bit.
fn take_bits(taken: &mut Vec<DrivenBits>, bits: DrivenBits) -> Result<(), NoMemory>
    ensures { OnOk result (flat_map bits_of taken.new.items ≡ flat_map bits_of taken.old.items ++ bits_of bits) }
{
    let none = bits.width == 0;
    if none {
        return Ok(());
    }
    taken.push(bits)?;
    Ok(())
}

/// The first of some drives that overlaps an earlier one, or bits that are taken before.
///
/// The runs that are taken have no bit in common, so there are no more of them than the object has bits.
pub fn second_driver(
    taken: &mut Vec<DrivenBits>,
    drives: &[ObjectDrive],
) -> Result<Option<Overlap>, NoMemory>
    ensures { IfOk result (λ second. option_map second_of second ≡ second_driver (flat_map bits_of taken.old.items) (map run_of (map object_drive_of drives.now))) }
{
    'drives: for drive in drives {
        if let Some(bit) = least_taken(taken, drive.bits) {
            let place = drive.place;
            return Ok(Some(Overlap { place, bit }));
        }
        take_bits(taken, drive.bits)?;
    }
    Ok(None)
}
