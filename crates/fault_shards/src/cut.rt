// The cut of a list of faults.

ghost use Rattle.std.specs.Prelude.{◌≡◌, ◌≤◌, length, map, take, IfOk};
ghost use Rattle.vf_base.specs.Base.{fault_number};
ghost use Rattle.v_design.specs.PlainDesigns.{design_of};
ghost use Rattle.fault_list.specs.Listed.{stuck};
ghost use Rattle.fault_shards.specs.Representatives.{StandForThemselves};
ghost use Rattle.fault_shards.specs.Shards.{AreShardsOf};

use crate::shards::Shards;
use fault_list::{classes, representative};
use std::alloc::Global;
use v_design::{Design, Fault};
use vf_base::{FaultId, NoMemory};

/// The first so many places of a list, as numbers of faults.
fn standing_faults(alloc: Global, places: &[u32], count: usize) -> Result<Vec<FaultId>, NoMemory>
    requires { count ≤ length places.now }
    ensures { IfOk result (λ standing. map fault_number standing.items ≡ take count places.now) }
{
    let mut standing = Vec::new(alloc);
    'places: for place in &places[..count] {
        standing.push(FaultId(*place))?;
    }
    Ok(standing)
}

/// The faults that stand for themselves, in list order.
fn own_faults(alloc: Global, standing: &[FaultId]) -> Result<Vec<FaultId>, NoMemory>
    ensures own { IfOk result (λ own. StandForThemselves (map fault_number standing.now) (map fault_number own.items)) }
    ensures few { IfOk result (λ own. length own.items ≤ length standing.now) }
{
    let mut own = Vec::new(alloc);
    'faults: for (number, first) in standing.iter().enumerate() {
        if first.0 as usize == number {
            own.push(*first)?;
        }
    }
    Ok(own)
}

/// The first listed faults of their classes, in list order, cut into shards of 32, and of each listed fault which one stands for it.
///
/// # Errors
///
/// Want of memory, also where there are more faults than 32 bits number.
pub fn cut_faults(alloc: Global, design: &Design, faults: &[Fault]) -> Result<Shards, NoMemory>
    ensures { IfOk result (AreShardsOf (design_of design.now) (stuck faults.now)) }
{
    if faults.len() > u32::MAX as usize {
        return Err(NoMemory);
    }
    let places = classes(alloc, design, faults)?;
    let standing = standing_faults(alloc, &places, faults.len())?;
    let representatives = own_faults(alloc, &standing)?;
    Ok(Shards {
        representatives,
        standing,
    })
}
