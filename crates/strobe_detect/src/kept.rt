// Watched bits that are kept, and compared with a machine at a strobe.

ghost use Rattle.std.specs.Prelude.{◌≡◌, ◌<◌, length, map, IfOk};
ghost use Rattle.four_value.specs.Bits.{same_bit};
ghost use Rattle.four_value.specs.Values.{same_value};
ghost use Rattle.vf_base.specs.Lists.{AllHold};
ghost use Rattle.v_design.specs.Grades.{is_hard as is_hard_pair, is_possible as is_possible_pair, some_sample, samples};
ghost use Rattle.vf_base.specs.Base.{watched_bit};
ghost use Rattle.strobe_detect.specs.Graders.{IsWatched};

use crate::compare::{Shown, is_hard, is_possible};
use four_value::Bit;
use std::alloc::Global;
use v_design::Values;
use vf_base::{NoMemory, WatchBit};

/// The watched bits of a machine, to be kept.
///
/// # Errors
///
/// Want of memory.
pub fn watched_bits<A: Values>(
    alloc: Global,
    watched: &[WatchBit],
    machine: &A,
) -> Result<Vec<Bit>, NoMemory>
    requires { AllHold (IsWatched (A.values machine.now)) (map watched_bit watched.now) }
    ensures { IfOk result (λ bits. bits.items ≡ samples (map watched_bit watched.now) (A.values machine.now)) }
{
    let mut bits = Vec::new(alloc);
    for place in watched {
        bits.push(machine.value(place.object).bit(place.bit))?;
    }
    Ok(bits)
}

/// Compares the watched bits that were kept of the good machine with those of the faulty machine.
pub fn compare_kept<B: Values>(watched: &[WatchBit], good: &[Bit], faulty: &B) -> Shown
    requires kept { length good.now ≡ length watched.now }
    requires faulty { AllHold (IsWatched (B.values faulty.now)) (map watched_bit watched.now) }
    ensures hard { result.hard ≡ some_sample is_hard_pair good.now (samples (map watched_bit watched.now) (B.values faulty.now)) }
    ensures possible { result.possible ≡ some_sample is_possible_pair good.now (samples (map watched_bit watched.now) (B.values faulty.now)) }
{
    let mut hard = false;
    let mut possible = false;
    for (number, place) in watched.iter().enumerate() {
        let good_bit = good[number];
        let faulty_bit = faulty.value(place.object).bit(place.bit);
        hard = hard || is_hard(good_bit, faulty_bit);
        possible = possible || is_possible(good_bit, faulty_bit);
    }
    Shown { hard, possible }
}

/// Whether two bits are the same of all four values.
fn is_same(one: Bit, other: Bit) -> bool
    ensures { result ≡ same_bit one other }
{
    one == other
}

/// Whether a machine shows just the watched bits that were kept.
pub fn shows_kept<B: Values>(watched: &[WatchBit], kept: &[Bit], machine: &B) -> bool
    requires kept { length kept.now ≡ length watched.now }
    requires watched { AllHold (IsWatched (B.values machine.now)) (map watched_bit watched.now) }
    ensures { result ≡ same_value (samples (map watched_bit watched.now) (B.values machine.now)) kept.now }
{
    let mut same = true;
    for (number, place) in watched.iter().enumerate() {
        let kept_bit = kept[number];
        let shown_bit = machine.value(place.object).bit(place.bit);
        same = same && is_same(shown_bit, kept_bit);
    }
    same
}

/// Whether some bit detects the fault: 0 or 1 among the bits of the good machine, and opposite among those of the faulty one.
pub fn is_detected(good: &[Bit], faulty: &[Bit]) -> bool
    ensures { result ≡ some_sample is_hard_pair good.now faulty.now }
{
    let count = good.len().min(faulty.len());
    let mut hard = false;
    for number in 0..count {
        hard = hard || is_hard(good[number], faulty[number]);
    }
    hard
}
