// The walk over the strobes, from the last to the first.

ghost use Rattle.std.specs.Prelude.{◌≡◌, ◌<◌, ◌^◌, IfOk, IsTrue, length};
ghost use Rattle.vf_base.specs.Lists.{has, AllHold};
ghost use Rattle.v_design.specs.WellFormed.{IsAscending};
ghost use Rattle.vf_pick.specs.Faults.{lists_of, IsFaultIndex};
ghost use Rattle.vf_pick.specs.Walks.{AreKept};

use crate::counts::{all_have_two, count_strobes, take_one};
use std::alloc::Global;
use strobe_detect::Hard;
use vf_base::NoMemory;
use window_index::WindowIndex;

/// The kept strobes: their places among all strobes, ascending, and of each fault how many of them it has.
#[derive(Drop)]
pub(crate) struct Kept {
    pub places: Vec<u32>,
    pub counts: Vec<usize>,
}

/// Tries each strobe, from the last to the first, and leaves it out where each fault that has it has another one that stands.
pub(crate) fn keep_strobes(
    alloc: Global,
    strobes: &[u64],
    hard: &[Hard],
    index: &WindowIndex,
) -> Result<Kept, NoMemory>
    requires ascending { IsAscending strobes.now }
    requires hard_ascend { AllHold IsAscending (lists_of hard.now) }
    requires parts { AllHold (λ times. AllHold (λ time. IsTrue (has strobes.now time)) times) (lists_of hard.now) }
    requires few_strobes { length strobes.now < 2 ^ 32 }

    // The index has the faults of each strobe.
    requires indexed { IsFaultIndex strobes.now (lists_of hard.now) index.now }

    // The places are those of the kept strobes by their definition, which tries them without counts.
    ensures { IfOk result (λ kept. AreKept strobes.now (lists_of hard.now) kept.places.items kept.counts.items) }
{
    let mut places = Vec::new(alloc);
    let mut counts = count_strobes(alloc, hard)?;
    'strobes: for place in (0..strobes.len()).rev() {
        let faults = index.moments(place as u32);
        if all_have_two(&counts, faults) {
            take_one(&mut counts, faults);
        } else {
            places.push(place as u32)?;
        }
    }
    places.reverse();
    Ok(Kept { places, counts })
}
