// The picked strobes, each with the fault that it is printed for.

ghost use Rattle.std.specs.Prelude.{◌≡◌, ℕ, ◌<◌, List, IfOk, IsTrue, get_or, length};
ghost use Rattle.vf_base.specs.Lists.{has, AllHold};
ghost use Rattle.v_design.specs.WellFormed.{IsAscending};
ghost use Rattle.pick_laws.specs.Kept.{kept_strobes};
ghost use Rattle.vf_pick.specs.Faults.{lists_of, IsFaultIndex, AreCounts};
ghost use Rattle.vf_pick.specs.Picks.{StandsFor, ArePicked};
ghost use Rattle.vf_pick.specs.Walks.{AreKept};

use crate::counts::first_with_one;
use crate::fault_index::index_faults;
use crate::walk::keep_strobes;
use std::alloc::Global;
use strobe_detect::Hard;
use vf_base::{FaultId, NoMemory};
use window_index::WindowIndex;

/// A kept strobe, whose time is in steps, with the first listed fault whose only kept hard strobe it is.
#[derive(Clone, Copy, Debug, PartialEq, Eq)]
pub struct Picked {
    pub time: u64,
    pub fault: FaultId,
}

/// The kept strobe at a place of the strobes, with its fault: the first that has it and, by the counts, no other kept one.
fn picked_at(
    strobes: &[u64],
    hard: &[Hard],
    index: &WindowIndex,
    counts: &[usize],
    place: u32,
) -> Picked
    requires ascending { IsAscending strobes.now }
    requires hard_ascend { AllHold IsAscending (lists_of hard.now) }
    requires parts { AllHold (λ times. AllHold (λ time. IsTrue (has strobes.now time)) times) (lists_of hard.now) }

    // The index has the faults of each strobe, the counts are those of the kept strobes, and the one at the place is kept.
    requires indexed { IsFaultIndex strobes.now (lists_of hard.now) index.now }
    requires counted { AreCounts (lists_of hard.now) (kept_strobes (lists_of hard.now) strobes.now) counts.now }
    requires within { place < length strobes.now }
    requires kept { IsTrue (has (kept_strobes (lists_of hard.now) strobes.now) (get_or strobes.now place 0)) }

    // Of all listed faults it is the first whose only kept hard strobe this is.
    ensures { StandsFor hard.now (kept_strobes (lists_of hard.now) strobes.now) (get_or strobes.now place 0) result }
{
    let fault = first_with_one(counts, index.moments(place)).unwrap();
    Picked {
        time: strobes[place as usize],
        fault: hard[fault as usize].fault,
    }
}

/// The kept strobes, whose places and counts are given, each with its fault.
fn picked_strobes(
    alloc: Global,
    strobes: &[u64],
    hard: &[Hard],
    index: &WindowIndex,
    places: &[u32],
    counts: &[usize],
) -> Result<Vec<Picked>, NoMemory>
    requires ascending { IsAscending strobes.now }
    requires hard_ascend { AllHold IsAscending (lists_of hard.now) }
    requires parts { AllHold (λ times. AllHold (λ time. IsTrue (has strobes.now time)) times) (lists_of hard.now) }

    // The index has the faults of each strobe; places and counts are those of the kept strobes.
    requires indexed { IsFaultIndex strobes.now (lists_of hard.now) index.now }
    requires kept { AreKept strobes.now (lists_of hard.now) places.now counts.now }
    ensures { IfOk result (λ picked. ArePicked strobes.now hard.now picked.items) }
{
    let mut picked = Vec::new(alloc);
    'places: for place in places {
        picked.push(picked_at(strobes, hard, index, counts, *place))?;
    }
    Ok(picked)
}

/// The kept strobes in ascending order: tried from the last to the first, each is left out where the others that still stand cover.
///
/// # Errors
///
/// Want of memory, also where there are more strobes or faults than a number of 32 bits can count.
pub fn pick(alloc: Global, strobes: &[u64], hard: &[Hard]) -> Result<Vec<Picked>, NoMemory>
    // Strobes ascend without repeats, and each fault's hard ones are some of them.
    requires ascending { IsAscending strobes.now }
    requires hard_ascend { AllHold IsAscending (lists_of hard.now) }
    requires parts { AllHold (λ times. AllHold (λ time. IsTrue (has strobes.now time)) times) (lists_of hard.now) }

    // They are the kept strobes by their definition, each with the first fault that needs it.
    ensures { IfOk result (λ picked. ArePicked strobes.now hard.now picked.items) }
{
    if strobes.len() > u32::MAX as usize || hard.len() > u32::MAX as usize {
        return Err(NoMemory);
    }
    let index = index_faults(alloc, strobes, hard)?;
    let kept = keep_strobes(alloc, strobes, hard, &index)?;
    picked_strobes(alloc, strobes, hard, &index, &kept.places, &kept.counts)
}
