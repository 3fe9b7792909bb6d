// The strobes that detect a fault, by its samples that differ beside the good ones.

ghost use Rattle.std.specs.Prelude.{◌≡◌, ℕ, Bool, List, drop, IfOk};
ghost use Rattle.v_design.specs.Grades.{Samples};
ghost use Rattle.vf_dict.specs.SideBySide.{AreBeside, PassesStrobe, hard_among};

use kept_samples::Sample;
use std::alloc::Global;
use strobe_detect::is_detected;
use vf_base::NoMemory;

/// Passes a strobe of the good machine: notes its time, where the sample at a place among those of the fault is of that time and detects the fault. The
/// answer is the place of the fault's sample that comes next.
fn pass_strobe(
    times: &mut Vec<u64>,
    good: &Sample,
    differs: &[Sample],
    next: usize,
) -> Result<usize, NoMemory>
    ensures { IfOk result (λ later. PassesStrobe good.now (drop next differs.now) times.old.items (drop later differs.now) times.new.items) }
{
    let Some(own) = differs.get(next) else {
        return Ok(next);
    };
    if own.time != good.time {
        return Ok(next);
    }
    let hard = is_detected(good.bits.as_slice(), own.bits.as_slice());
    if hard {
        times.push(own.time)?;
    }
    Ok(next + 1)
}

/// The strobes at which a fault is detected, by the good samples and its samples that differ from them.
pub(crate) fn detected_times(
    alloc: Global,
    good: &[Sample],
    differs: &[Sample],
) -> Result<Vec<u64>, NoMemory>
    ensures { IfOk result (λ times. (seen own : Samples) (strobes : List ℕ) (test : ℕ → Bool) → AreBeside good.now differs.now seen own strobes test →
        times.items ≡ hard_among seen own test strobes) }
{
    let mut times = Vec::new(alloc);
    let mut next = 0;
    'strobes: for sample in good {
        let later = pass_strobe(&mut times, sample, differs, next)?;
        next = later;
    }
    Ok(times)
}
