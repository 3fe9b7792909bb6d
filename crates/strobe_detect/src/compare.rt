// The comparison of two machines at one strobe.

ghost use Rattle.std.specs.Prelude.{◌≡◌, ◌<◌, length, map};
ghost use Rattle.vf_base.specs.Lists.{AllHold};
ghost use Rattle.v_design.specs.Grades.{is_hard as is_hard_pair, is_possible as is_possible_pair, some_sample, samples};
ghost use Rattle.vf_base.specs.Base.{watched_bit};
ghost use Rattle.strobe_detect.specs.Graders.{IsWatched};

use four_value::Bit;
use v_design::Values;
use vf_base::WatchBit;

/// What one strobe shows: whether some watched bit detects the fault, and whether some possibly does.
#[derive(Clone, Copy, Debug)]
pub struct Shown {
    pub hard: bool,
    pub possible: bool,
}

/// Whether a good bit is 0 or 1 and the faulty bit opposite.
pub fn is_hard(good: Bit, faulty: Bit) -> bool
    ensures { result ≡ is_hard_pair good faulty }
{
    matches!(
        (good, faulty),
        (Bit::Zero, Bit::One) | (Bit::One, Bit::Zero)
    )
}

/// Whether a good bit is 0 or 1 and the faulty bit x or z.
pub fn is_possible(good: Bit, faulty: Bit) -> bool
    ensures { result ≡ is_possible_pair good faulty }
{
    matches!((good, faulty), (Bit::Zero | Bit::One, Bit::X | Bit::Z))
}

/// Compares the watched bits of the good and the faulty machine.
pub fn compare<A: Values, B: Values>(watched: &[WatchBit], good: &A, faulty: &B) -> Shown
    requires good { AllHold (IsWatched (A.values good.now)) (map watched_bit watched.now) }
    requires faulty { AllHold (IsWatched (B.values faulty.now)) (map watched_bit watched.now) }
    ensures hard { result.hard ≡ some_sample is_hard_pair (samples (map watched_bit watched.now) (A.values good.now)) (samples (map watched_bit watched.now) (B.values faulty.now)) }
    ensures possible { result.possible ≡ some_sample is_possible_pair (samples (map watched_bit watched.now) (A.values good.now)) (samples (map watched_bit watched.now) (B.values faulty.now)) }
{
    let mut hard = false;
    let mut possible = false;
    for place in watched {
        let good_bit = good.value(place.object).bit(place.bit);
        let faulty_bit = faulty.value(place.object).bit(place.bit);
        hard = hard || is_hard(good_bit, faulty_bit);
        possible = possible || is_possible(good_bit, faulty_bit);
    }
    Shown { hard, possible }
}
