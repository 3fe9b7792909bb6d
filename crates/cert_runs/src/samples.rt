// What the strobes see, kept strobe by strobe.

ghost use Rattle.std.specs.Prelude.{◌≡◌, ◌+◌, ◌∷◌, ◌++◌, [], map, OnOk};
ghost use Rattle.vf_base.specs.Base.{watched_bit};
ghost use Rattle.vf_base.specs.Lists.{AllHold};
ghost use Rattle.v_design.specs.Grades.{samples};
ghost use Rattle.strobe_detect.specs.Graders.{IsWatched};
ghost use Rattle.kept_samples.specs.Plain.{sample_of};
ghost use Rattle.cert_runs.specs.Samples.{KeepsBefore};

use kept_samples::Sample;
use std::alloc::Global;
use strobe_detect::watched_bits;
use v_design::Values;
use vf_base::{NoMemory, Seq, WatchBit};

/// Keeps the watched bits that values show at a strobe, whose time is in steps.
fn keep_sample<V: Values>(
    alloc: Global,
    watched: &[WatchBit],
    strobe: u64,
    values: &V,
    kept: &mut Vec<Sample>,
) -> Result<(), NoMemory>
    requires { AllHold (IsWatched (V.values values.now)) (map watched_bit watched.now) }
    ensures { OnOk result (map sample_of kept.new.items ≡ map sample_of kept.old.items ++
        record { time = strobe; bits = samples (map watched_bit watched.now) (V.values values.now) } ∷ []) }
{
    let bits = watched_bits(alloc, watched, values)?;
    kept.push(Sample {
        time: strobe,
        bits: Seq::from_vec(bits),
    })?;
    Ok(())
}

/// Keeps what values show at the next strobes, those up to a last time, in steps.
pub(crate) fn keep_until<V: Values>(
    alloc: Global,
    watched: &[WatchBit],
    strobes: &[u64],
    last: u64,
    values: &V,
    kept: &mut Vec<Sample>,
) -> Result<(), NoMemory>
    requires { AllHold (IsWatched (V.values values.now)) (map watched_bit watched.now) }
    ensures { OnOk result (KeepsBefore (last + 1) (samples (map watched_bit watched.now) (V.values values.now)) strobes.now kept.old.items kept.new.items) }
{
    let mut at = kept.len();
    'strobes: while at < strobes.len() {
        let strobe = strobes[at];
        if last < strobe {
            return Ok(());
        }
        keep_sample(alloc, watched, strobe, values, kept)?;
        at += 1;
    }
    Ok(())
}

/// Keeps what values show at the next strobes, those before a time, in steps.
pub(crate) fn keep_before<V: Values>(
    alloc: Global,
    watched: &[WatchBit],
    strobes: &[u64],
    time: u64,
    values: &V,
    kept: &mut Vec<Sample>,
) -> Result<(), NoMemory>
    requires { AllHold (IsWatched (V.values values.now)) (map watched_bit watched.now) }
    ensures { OnOk result (KeepsBefore time (samples (map watched_bit watched.now) (V.values values.now)) strobes.now kept.old.items kept.new.items) }
{
    match time.checked_sub(1) {
        None => Ok(()),
        Some(last) => {
            keep_until(alloc, watched, strobes, last, values, kept)?;
            Ok(())
        }
    }
}
