// What strobes between two slots of a window see of a fault in lockstep.

ghost use Rattle.std.specs.Prelude.{◌≡◌, ℕ, ◌+◌, ◌≤◌, IfOk, None, OnOk, Some, length, map, slice_get, true};
ghost use Rattle.v_design.specs.Plain.{fault_of};
ghost use Rattle.fault_strobes.specs.Said.{Judging, Keeping, keeps};
ghost use Rattle.fault_strobes.specs.Shown.{said_of};
ghost use Rattle.kept_samples.specs.Plain.{sample_of};
ghost use Rattle.strobe_detect.specs.Firsts.{first_time};
ghost use Rattle.lockstep_shards.specs.copy_window.Copies.{differences_in};
ghost use Rattle.slot_strobes.specs.Counts.{AllBetween, CountsBy};
ghost use Rattle.slot_strobes.specs.Strobes.{IsGradingBehind, IsSeenTo, StandsBeforeSlot};

use crate::bits::{compare, own_bits};
use crate::count::strobes_by;
use crate::slot::push_samples;
use copy_state::FaultCopy;
use fault_strobes::Strobed;
use good_trace::{Setup, TraceWindow};
use kept_samples::Sample;
use lockstep_shards::shards_go_in_lockstep;
use std::alloc::Global;
use v_design::{Fault, World};
use vf_base::NoMemory;

/// How many of the plan's strobes were shown, and the time, in steps, of the first hard detection among them, if one ended the grading.
#[derive(Clone, Copy, Debug)]
pub struct Seen {
    pub passed: usize,
    pub hard: Option<u64>,
}

/// How many of the plan's strobes judged a fault, the time, in steps, of the first hard detection among them, if there was one, and that of the first possible detection so far.
#[derive(Clone, Copy, Debug)]
pub struct Judged {
    pub passed: usize,
    pub hard: Option<u64>,
    pub possible: Option<u64>,
}

/// A time, in steps, that stands, else this one where it counts.
fn first_of(standing: Option<u64>, counts: bool, time: u64) -> Option<u64>
    ensures { result ≡ first_time standing counts time }
{
    match standing {
        Some(first) => Some(first),
        None if counts => Some(time),
        None => None,
    }
}

/// Judges a fault at the plan's strobes from one number on and before another, at all of which its copy stands before one slot of a window: so they all see the same bits,
/// and only the first of them can find what wasn't found before.
fn judge_each<N: World>(
    setup: &Setup<'_, N>,
    window: &TraceWindow<N>,
    slot: u32,
    fault: Fault,
    copy: &FaultCopy,
    first: usize,
    end: usize,
    possible: Option<u64>,
) -> Judged
    requires slot { window.now.before + slot ≤ window.now.through }
    requires order { first ≤ end }
    requires within { end ≤ length N.plan.strobes }
    requires stands { AllBetween N.plan.strobes first end (StandsBeforeSlot N.design N.plan (fault_of fault) (differences_in N.design copy.now) (window.now.before + slot)) }
    requires grading { IsGradingBehind N.design N.plan (fault_of fault) first (Judging possible) }
    ensures passed { result.passed ≡ end }
    ensures seen { IsSeenTo N.design N.plan (fault_of fault) first end (Judging result.possible) result.hard }
{
    shards_go_in_lockstep();
    let design = setup.design();
    let plan = setup.plan();
    let strobes = plan.strobes.as_slice();
    if first == end {
        return Judged {
            passed: end,
            hard: None,
            possible,
        };
    }
    let shown = compare(window, plan.watched.as_slice(), slot, copy);
    let strobe = strobes[first];
    let possible = first_of(possible, shown.possible, strobe);
    if shown.hard {
        return Judged {
            passed: end,
            hard: Some(strobe),
            possible,
        };
    }
    Judged {
        passed: end,
        hard: None,
        possible,
    }
}

/// Judges a fault at the plan's strobes from a number on that come up to a time, in steps, at which its copy stands before a slot of a window. `possible` is the time, in steps,
/// of the first possible detection so far, if there was one.
pub fn judge_to<N: World>(
    setup: &Setup<'_, N>,
    window: &TraceWindow<N>,
    slot: u32,
    fault: Fault,
    copy: &FaultCopy,
    from: usize,
    time: u64,
    possible: Option<u64>,
) -> Judged
    requires slot { window.now.before + slot ≤ window.now.through }
    requires from { from ≤ length N.plan.strobes }
    requires stands { (place strobe : ℕ) → from ≤ place → slice_get N.plan.strobes place ≡ Some strobe → strobe ≤ time →
        StandsBeforeSlot N.design N.plan (fault_of fault) (differences_in N.design copy.now) (window.now.before + slot) strobe }
    requires grading { IsGradingBehind N.design N.plan (fault_of fault) from (Judging possible) }
    ensures counts { CountsBy N.plan.strobes from result.passed time }
    ensures seen { IsSeenTo N.design N.plan (fault_of fault) from result.passed (Judging result.possible) result.hard }
{
    let passed = strobes_by(setup, from, time);
    judge_each(setup, window, slot, fault, copy, from, passed, possible)
}

/// Keeps the samples of a fault at the plan's strobes from one number on and before another, at all of which its copy stands before one slot of a window, if they differ from
/// the good machine's: they all have the same bits.
fn keep_each<N: World>(
    alloc: Global,
    setup: &Setup<'_, N>,
    window: &TraceWindow<N>,
    slot: u32,
    fault: Fault,
    copy: &FaultCopy,
    first: usize,
    end: usize,
    differs: &mut Vec<Sample>,
) -> Result<(), NoMemory>
    requires slot { window.now.before + slot ≤ window.now.through }
    requires order { first ≤ end }
    requires within { end ≤ length N.plan.strobes }
    requires stands { AllBetween N.plan.strobes first end (StandsBeforeSlot N.design N.plan (fault_of fault) (differences_in N.design copy.now) (window.now.before + slot)) }
    requires grading { IsGradingBehind N.design N.plan (fault_of fault) first (Keeping (map sample_of differs.old.items)) }
    ensures { OnOk result (IsGradingBehind N.design N.plan (fault_of fault) end (Keeping (map sample_of differs.new.items))) }
{
    shards_go_in_lockstep();
    let design = setup.design();
    let plan = setup.plan();
    let watched = plan.watched.as_slice();
    let strobes = plan.strobes.as_slice();
    let shown = compare(window, watched, slot, copy);
    if shown.same {
        return Ok(());
    }
    let bits = own_bits(alloc, window, watched, slot, copy)?;
    push_samples(alloc, bits.as_slice(), &strobes[first..end], differs)?;
    Ok(())
}

/// Shows a fault the plan's strobes from a number on that come up to a time, in steps, at which its copy stands before a slot of a window.
///
/// # Errors
///
/// Want of memory.
pub fn see_to<N: World>(
    alloc: Global,
    setup: &Setup<'_, N>,
    window: &TraceWindow<N>,
    slot: u32,
    fault: Fault,
    copy: &FaultCopy,
    from: usize,
    time: u64,
    strobed: &mut Strobed,
) -> Result<Seen, NoMemory>
    requires slot { window.now.before + slot ≤ window.now.through }
    requires from { from ≤ length N.plan.strobes }
    requires stands { (place strobe : ℕ) → from ≤ place → slice_get N.plan.strobes place ≡ Some strobe → strobe ≤ time →
        StandsBeforeSlot N.design N.plan (fault_of fault) (differences_in N.design copy.now) (window.now.before + slot) strobe }
    requires grading { IsGradingBehind N.design N.plan (fault_of fault) from (said_of strobed.old) }
    ensures counts { IfOk result (λ seen. CountsBy N.plan.strobes from seen.passed time) }
    ensures seen { IfOk result (λ seen. IsSeenTo N.design N.plan (fault_of fault) from seen.passed (said_of strobed.new) seen.hard) }
    ensures kind { OnOk result (keeps (said_of strobed.new) ≡ keeps (said_of strobed.old)) }
    ensures none { IfOk result (λ seen. keeps (said_of strobed.old) ≡ true → seen.hard ≡ None) }
{
    match strobed {
        Strobed::Judging(possible) => {
            let judged = judge_to(setup, window, slot, fault, copy, from, time, *possible);
            *possible = judged.possible;
            Ok(Seen {
                passed: judged.passed,
                hard: judged.hard,
            })
        }
        Strobed::Keeping(differs) => {
            let passed = strobes_by(setup, from, time);
            keep_each(
                alloc, setup, window, slot, fault, copy, from, passed, differs,
            )?;
            Ok(Seen { passed, hard: None })
        }
    }
}
