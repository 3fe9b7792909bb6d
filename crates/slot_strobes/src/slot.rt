// What faults are graded beside in one slot of a window.

ghost use Rattle.std.specs.Prelude.{◌≡◌, ◌+◌, ◌++◌, ◌<◌, ◌≤◌, IfOk, OnOk, length, map};
ghost use Rattle.vf_base.specs.Base.{watched_bit};
ghost use Rattle.vf_base.specs.Lists.{AllHold};
ghost use Rattle.v_design.specs.Grades.{samples};
ghost use Rattle.kept_samples.specs.Plain.{sample_of};
ghost use Rattle.between_slots.specs.Between.{state_through};
ghost use Rattle.copy_laws.specs.Windows.{good_slots};
ghost use Rattle.lockstep_shards.specs.window_strobes.Passed.{HasPassed};
ghost use Rattle.lockstep_shards.specs.window_strobes.Strobes.{AreStrobesOf, passed_behind};
ghost use Rattle.lockstep_shards.specs.window_strobes.Watched.{IsObjectOf};
ghost use Rattle.slot_strobes.specs.Counts.{samples_of};

use crate::count::strobes_by;
use four_value::Bit;
use good_trace::{GoodEnd, Setup, TraceWindow};
use kept_samples::Sample;
use lockstep_shards::{WindowStrobes, good_bits};
use std::alloc::Global;
use v_design::World;
use vf_base::{NoMemory, Seq, WatchBit};

/// Puts a sample with the same bits for each of some strobes behind others.
///
/// # Errors
///
/// Want of memory.
pub(crate) fn push_samples(
    alloc: Global,
    bits: &[Bit],
    strobes: &[u64],
    kept: &mut Vec<Sample>,
) -> Result<(), NoMemory>
    ensures { OnOk result (map sample_of kept.new.items ≡ map sample_of kept.old.items ++ samples_of bits.now strobes.now) }
{
    'strobes: for strobe in strobes {
        let own = Vec::from_slice(alloc, bits)?;
        kept.push(Sample {
            time: *strobe,
            bits: Seq::from_vec(own),
        })?;
    }
    Ok(())
}

/// Puts the good machine's samples at some strobes before a slot of a window behind others: they all have the same bits.
fn push_each<N: World>(
    alloc: Global,
    window: &TraceWindow<N>,
    watched: &[WatchBit],
    slot: u32,
    strobes: &[u64],
    kept: &mut Vec<Sample>,
) -> Result<(), NoMemory>
    requires slot { window.now.before + slot ≤ window.now.through }
    requires watched { AllHold (IsObjectOf N.design) (map watched_bit watched.now) }
    ensures { OnOk result (map sample_of kept.new.items ≡ map sample_of kept.old.items
        ++ samples_of (samples (map watched_bit watched.now) (state_through N.design N.plan (window.now.before + slot)).values) strobes.now) }
{
    let bits = good_bits(alloc, window, watched, slot)?;
    push_samples(alloc, bits.as_slice(), strobes, kept)?;
    Ok(())
}

/// What the strobes of a slot of a window see of the good machine, where so many of the plan's strobes come up to the slot before, and another slot comes.
///
/// # Errors
///
/// Want of memory.
pub fn strobes_of_slot<N: World>(
    alloc: Global,
    setup: &Setup<'_, N>,
    window: &TraceWindow<N>,
    slot: u32,
    passed: usize,
) -> Result<WindowStrobes, NoMemory>
    requires some { 0 < window.now.before + slot }
    requires slot { window.now.before + slot < window.now.through }
    requires next { window.now.before + slot + 1 < length (good_slots N.design N.plan) }
    requires passed { HasPassed N.design N.plan (window.now.before + slot) passed }
    ensures strobes { IfOk result (λ strobes. AreStrobesOf N.design N.plan (window.now.before + slot) (window.now.before + (slot + 1)) strobes) }
    ensures before { IfOk result (λ strobes. strobes.passed ≡ passed) }
    ensures behind { IfOk result (λ strobes. HasPassed N.design N.plan (window.now.before + (slot + 1)) (passed_behind strobes)) }
{
    beside_laws::good_run_goes_on();
    beside_laws::runs_stand();
    let design = setup.design();
    let plan = setup.plan();
    let strobes = plan.strobes.as_slice();
    let watched = plan.watched.as_slice();
    // The window has more slots than stand before this one, and their number fits.
    let _all = window.slots();
    let begins = window.slot_time(slot);
    let early = strobes_by(setup, passed, begins - 1);
    let count = strobes_by(setup, early, begins);
    let mut kept = Vec::new(alloc);
    push_each(
        alloc,
        window,
        watched,
        slot,
        &strobes[passed..early],
        &mut kept,
    )?;
    push_each(
        alloc,
        window,
        watched,
        slot + 1,
        &strobes[early..count],
        &mut kept,
    )?;
    Ok(WindowStrobes {
        passed,
        samples: kept,
        until: Some(begins),
        ending: GoodEnd::Open,
    })
}
