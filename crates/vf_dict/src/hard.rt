// The hard strobes of the listed faults.

ghost use Rattle.std.specs.Prelude.{IfOk};
ghost use Rattle.v_design.specs.Designs.{FlatDesign};
ghost use Rattle.v_design.specs.PlainDesigns.{plan_of};
ghost use Rattle.dict_text.specs.Dictionaries.{IsDictionary};
ghost use Rattle.pick_laws.specs.Hard.{hard_lists};
ghost use Rattle.vf_dict.specs.HardStrobes.{AreHard, ArePartsOf};

use crate::times::detected_times;
use dict_text::Dictionary;
use std::alloc::Global;
use strobe_detect::Hard;
use v_design::Plan;
use vf_base::{NoMemory, Seq};

/// For each listed fault the strobes of its full grade, ascending, at which some watched bit detects it.
///
/// # Errors
///
/// Want of memory.
pub fn hard_strobes(
    alloc: Global,
    plan: &Plan,
    dictionary: &Dictionary,
) -> Result<Vec<Hard>, NoMemory>
    // The dictionary is that of some design and this plan.
    ensures hard { IfOk result (λ hard. (design : FlatDesign) → IsDictionary design (plan_of plan.now) dictionary.now → AreHard (hard_lists design (plan_of plan.now)) hard.items) }
    ensures parts { IfOk result (λ hard. (design : FlatDesign) → IsDictionary design (plan_of plan.now) dictionary.now → ArePartsOf (plan_of plan.now).strobes hard.items) }
{
    let good = dictionary.good.as_slice();
    let mut hard = Vec::new(alloc);
    'faults: for kept in dictionary.faults.as_slice() {
        let times = detected_times(alloc, good, kept.differs.as_slice())?;
        hard.push(Hard {
            fault: kept.fault,
            times: Seq::from_vec(times),
        })?;
    }
    Ok(hard)
}
