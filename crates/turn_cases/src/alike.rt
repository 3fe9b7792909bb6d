// Whether two shards are the same.

use copy_state::FaultCopy;
use four_value::Vec4;
use shard_turns::Shard;
use std::alloc::Global;
use v_design::World;
use vf_base::{FaultId, NoMemory, ObjectId};

/// Whether two values are the same, also in their widths.
fn same_value(one: Vec4, other: Vec4) -> bool {
    one.width() == other.width() && one.same(other)
}

/// Whether the values of two copies are the same: they have own values of as many objects, and each object has the same one. Where an object has none, this value stands for it.
fn same_values(one: &FaultCopy, other: &FaultCopy, objects: u32, none: Vec4) -> bool {
    if one.size() != other.size() {
        return false;
    }
    'objects: for number in 0..objects {
        let object = ObjectId(number);
        if !same_value(one.value(object, none), other.value(object, none)) {
            return false;
        }
    }
    true
}

/// Whether two shards have the same copy of a fault.
fn same_copy<N: World>(one: &Shard<N>, other: &Shard<N>, fault: FaultId, objects: u32) -> bool {
    match (one.copy_of(fault), other.copy_of(fault)) {
        (Some(own), Some(others)) => same_values(own, others, objects, Vec4::from_number(0, 1)),
        _ => false,
    }
}

/// Whether two shards have the same copies of some faults.
fn same_copies<N: World>(
    one: &Shard<N>,
    other: &Shard<N>,
    faults: &[FaultId],
    objects: u32,
) -> bool {
    'faults: for fault in faults {
        if !same_copy(one, other, *fault, objects) {
            return false;
        }
    }
    true
}

/// Whether two shards are the same: they have gone as far, with the same faults, findings and values of so many objects.
pub(crate) fn is_alike<N: World>(
    alloc: Global,
    one: &Shard<N>,
    other: &Shard<N>,
    objects: u32,
) -> Result<bool, NoMemory> {
    let faults = one.faults();
    if one.at() != other.at() || faults != other.faults() {
        return Ok(false);
    }
    let own = one.findings(alloc)?;
    let others = other.findings(alloc)?;
    if own.as_slice() != others.as_slice() {
        return Ok(false);
    }
    Ok(same_copies(one, other, faults, objects))
}
