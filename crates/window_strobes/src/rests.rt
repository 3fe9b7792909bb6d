// What the strobes of the rest of a window see of the good machine.

ghost use Rattle.std.specs.Prelude.{◌≡◌, ℕ, ◌+◌, ◌<◌, ◌≤◌, IfOk, Some, length, slice_get, take};
ghost use Rattle.vf_base.specs.Lists.{AllHold};
ghost use Rattle.kept_samples.specs.declared.kept.Sample.{Sample};
ghost use Rattle.window_strobes.specs.Strobes.{AreStrobesOf, passed_behind};

use crate::strobes::WindowStrobes;
use good_trace::{Setup, TraceWindow};
use kept_samples::Sample;
use std::alloc::Global;
use v_design::World;
use vf_base::NoMemory;

/// How many of some samples, the first ones, come up to a time, in steps.
fn count_by(samples: &[Sample], time: u64) -> usize
    ensures within { result ≤ length samples.now }
    ensures by { AllHold (λ (sample : Sample). sample.time ≤ time) (take result samples.now) }
    ensures next { (sample : Sample) → slice_get samples.now result ≡ Some sample → time < sample.time }
{
    'samples: for (place, sample) in samples.iter().enumerate() {
        if time < sample.time {
            return place;
        }
    }
    samples.len()
}

/// The same samples once more.
fn copied(alloc: Global, samples: &[Sample]) -> Result<Vec<Sample>, NoMemory>
    ensures { IfOk result (λ copies. copies.items ≡ samples.now) }
{
    let mut copies = Vec::new(alloc);
    'samples: for sample in samples {
        copies.push(sample.copy(alloc)?)?;
    }
    Ok(copies)
}

/// What the strobes of a window see of the good machine behind so many of its slots, where more come.
///
/// # Errors
///
/// Want of memory.
pub fn strobes_after<N: World>(
    alloc: Global,
    setup: &Setup<'_, N>,
    window: &TraceWindow<N>,
    strobes: &WindowStrobes,
    slots: u32,
) -> Result<WindowStrobes, NoMemory>
    requires some { 0 < slots }
    requires more { window.now.before + slots < window.now.through }
    requires strobes { AreStrobesOf N.design N.plan window.now.before window.now.through strobes.now }
    ensures strobes { IfOk result (λ rest. AreStrobesOf N.design N.plan (window.now.before + slots) window.now.through rest) }
    ensures since { IfOk result (λ rest. strobes.now.passed ≤ rest.passed) }
    ensures behind { IfOk result (λ rest. passed_behind rest ≡ passed_behind strobes.now) }
{
    beside_laws::good_run_goes_on();
    let design = setup.design();
    let plan = setup.plan();
    let _first = window.begins();
    let time = window.slot_time(slots - 1);
    let count = count_by(&strobes.samples, time);
    let samples = copied(alloc, &strobes.samples[count..])?;
    Ok(WindowStrobes {
        passed: strobes.passed + count,
        samples,
        until: strobes.until,
        ending: strobes.ending,
    })
}
