// The good machine's samples of a window.

ghost use Rattle.std.specs.Prelude.{◌≡◌, ℕ, ◌≤◌, IfOk, Some, drop};
ghost use Rattle.vf_base.specs.Lists.{AllHold};
ghost use Rattle.v_design.specs.WellFormed.{IsAscending};
ghost use Rattle.window_strobes.specs.Known.{IsKnown};
ghost use Rattle.window_strobes.specs.Passed.{HasPassed};
ghost use Rattle.window_strobes.specs.Leading.{IsLed};
ghost use Rattle.window_strobes.specs.Slots.{BeginsBy, ComesTo};
ghost use Rattle.window_strobes.specs.Seen.{AreSeen, AreSeenIf, IsSeenAt};

use crate::bits::good_bits;
use crate::slots::slots_by;
use good_trace::{Setup, TraceWindow};
use kept_samples::Sample;
use std::alloc::Global;
use v_design::World;
use vf_base::{NoMemory, Seq};

/// The good machine's sample at a strobe of a window, whose time is in steps, where so many slots of the window begin by then.
fn sample_at<N: World>(
    alloc: Global,
    setup: &Setup<'_, N>,
    window: &TraceWindow<N>,
    slot: u32,
    strobe: u64,
) -> Result<Sample, NoMemory>
    requires known { IsKnown N.design N.plan window.now.before window.now.through window.now.ending }
    requires slot { ComesTo N.design N.plan window.now.before window.now.through strobe slot }
    requires led { (until : ℕ) × (strobe ≤ until) × IsLed N.design N.plan window.now.before window.now.through until }
    ensures { IfOk result (IsSeenAt N.design N.plan strobe) }
{
    beside_laws::good_run_goes_on();
    beside_laws::runs_stand();
    let plan = setup.plan();
    let bits = good_bits(alloc, window, plan.watched.as_slice(), slot)?;
    Ok(Sample {
        time: strobe,
        bits: Seq::from_vec(bits),
    })
}

/// The good machine's samples at those of some strobes that come up to a time, in steps.
fn samples_to<N: World>(
    alloc: Global,
    setup: &Setup<'_, N>,
    window: &TraceWindow<N>,
    strobes: &[u64],
    until: u64,
) -> Result<Vec<Sample>, NoMemory>
    requires known { IsKnown N.design N.plan window.now.before window.now.through window.now.ending }
    requires ascend { IsAscending strobes.now }
    requires begun { AllHold (BeginsBy N.design N.plan window.now.before) strobes.now }
    requires led { IsLed N.design N.plan window.now.before window.now.through until }
    ensures { IfOk result (λ samples. AreSeen N.design N.plan until strobes.now samples.items) }
{
    let mut samples = Vec::new(alloc);
    let mut slot = 0;
    'strobes: for strobe in strobes {
        if until < *strobe {
            return Ok(samples);
        }
        slot = slots_by(window, slot, *strobe);
        samples.push(sample_at(alloc, setup, window, slot, *strobe)?)?;
    }
    Ok(samples)
}

/// The same, where there is such a time, of the plan's strobes from a number on; else none.
pub(crate) fn samples_by<N: World>(
    alloc: Global,
    setup: &Setup<'_, N>,
    window: &TraceWindow<N>,
    passed: usize,
    until: Option<u64>,
) -> Result<Vec<Sample>, NoMemory>
    requires known { IsKnown N.design N.plan window.now.before window.now.through window.now.ending }
    requires passed { HasPassed N.design N.plan window.now.before passed }
    requires led { (time : ℕ) → until ≡ Some time → IsLed N.design N.plan window.now.before window.now.through time }
    ensures { IfOk result (λ samples. AreSeenIf N.design N.plan until (drop passed N.plan.strobes) samples.items) }
{
    beside_laws::good_run_goes_on();
    let plan = setup.plan();
    match until {
        None => Ok(Vec::new(alloc)),
        Some(time) => {
            let strobes = &plan.strobes.as_slice()[passed..];
            let samples = samples_to(alloc, setup, window, strobes, time)?;
            Ok(samples)
        }
    }
}
