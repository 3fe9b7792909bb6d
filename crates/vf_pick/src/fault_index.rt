// The faults of each strobe.

ghost use Rattle.std.specs.Prelude.{◌≡◌, ◌++◌, ◌<◌, ◌^◌, IfOk, IsTrue, OnOk, get_or, length, map};
ghost use Rattle.vf_base.specs.Lists.{has, AllHold};
ghost use Rattle.v_design.specs.WellFormed.{IsAscending};
ghost use Rattle.vf_pick.specs.Faults.{lists_of, IsFaultIndex};
ghost use Rattle.vf_pick.specs.Occurrences.{occurrence_of};

use std::alloc::Global;
use strobe_detect::Hard;
use vf_base::NoMemory;
use window_index::{Occurrence, WindowIndex};

/// The place of a strobe, by binary search.
fn place_of(strobes: &[u64], strobe: u64) -> usize
    requires ascending { IsAscending strobes.now }
    requires listed { IsTrue (has strobes.now strobe) }
    ensures within { result < length strobes.now }
    ensures found { get_or strobes.now result 0 ≡ strobe }
{
    strobes.partition_point(|other| *other < strobe)
}

/// Notes the places of a fault's hard strobes.
fn note_fault(
    occurrences: &mut Vec<Occurrence>,
    strobes: &[u64],
    times: &[u64],
    fault: u32,
) -> Result<(), NoMemory>
    requires ascending { IsAscending strobes.now }
    requires few { length strobes.now < 2 ^ 32 }
    requires listed { AllHold (λ time. IsTrue (has strobes.now time)) times.now }
    ensures { OnOk result (occurrences.new.items ≡ occurrences.old.items ++ map (occurrence_of strobes.now fault) times.now) }
{
    'times: for time in times {
        let number = place_of(strobes, *time) as u32;
        occurrences.push(Occurrence {
            number,
            moment: fault,
        })?;
    }
    Ok(())
}

/// The index that has for each strobe, as its moments, the faults that have it.
pub(crate) fn index_faults(
    alloc: Global,
    strobes: &[u64],
    hard: &[Hard],
) -> Result<WindowIndex, NoMemory>
    requires ascending { IsAscending strobes.now }
    requires hard_ascend { AllHold IsAscending (lists_of hard.now) }
    requires parts { AllHold (λ times. AllHold (λ time. IsTrue (has strobes.now time)) times) (lists_of hard.now) }

    // Places and faults are numbers of 32 bits in the index.
    requires few_strobes { length strobes.now < 2 ^ 32 }
    requires few_faults { length hard.now < 2 ^ 32 }

    ensures { IfOk result (λ index. IsFaultIndex strobes.now (lists_of hard.now) index) }
{
    let mut occurrences = Vec::new(alloc);
    'faults: for (fault, one) in hard.iter().enumerate() {
        note_fault(
            &mut occurrences,
            strobes,
            one.times.as_slice(),
            fault as u32,
        )?;
    }
    let index = WindowIndex::build(alloc, strobes.len() as u32, &occurrences)?;
    Ok(index)
}
