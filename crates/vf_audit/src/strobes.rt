// The verdict of the samples of both machines.

ghost use Rattle.std.specs.Prelude.{◌≡◌};
ghost use Rattle.std.specs.List.{zip, list_any};
ghost use Rattle.v_design.specs.Grades.{Judged, is_possible, some_sample};
ghost use Rattle.v_design.specs.Plain.{grade_of};
ghost use Rattle.kept_samples.specs.Kept.{samples_kept};
ghost use Rattle.vf_audit.specs.Strobes.{test_of, first_sample, verdict_in};

use four_value::Bit;
use kept_samples::Sample;
use strobe_detect::is_detected;
use vf_base::End;

/// What is asked of a watched bit of both machines at a strobe.
#[derive(Clone, Copy, Debug)]
pub(crate) enum Test {
    /// The good bit is 0 or 1 and the faulty bit opposite.
    Hard,
    /// The good bit is 0 or 1 and the faulty bit x or z.
    Possible,
}

/// Whether a good bit is 0 or 1 and the faulty bit x or z.
fn is_possible(good: Bit, faulty: Bit) -> bool
    ensures { result ≡ is_possible good faulty }
{
    matches!((good, faulty), (Bit::Zero | Bit::One, Bit::X | Bit::Z))
}

/// Whether some watched bit possibly detects the fault.
fn is_possibly_detected(good: &[Bit], faulty: &[Bit]) -> bool
    ensures { result ≡ list_any (λ pair. is_possible pair.0 pair.1) (zip good.now faulty.now) }
{
    good.iter()
        .zip(faulty)
        .any(|(good, faulty)| is_possible(*good, *faulty))
}

/// Whether some watched bit passes a test.
fn passes(test: Test, good: &[Bit], faulty: &[Bit]) -> bool
    ensures { result ≡ some_sample (test_of test) good.now faulty.now }
{
    match test {
        Test::Hard => is_detected(good, faulty),
        Test::Possible => is_possibly_detected(good, faulty),
    }
}

/// The time, in steps, of the first strobe at which some watched bit passes a test.
fn first_strobe(test: Test, good: &[Sample], faulty: &[Sample]) -> Option<u64>
    ensures { result ≡ first_sample (test_of test) (samples_kept good.now) (samples_kept faulty.now) }
{
    'strobes: for (seen, own) in good.iter().zip(faulty) {
        if passes(test, seen.bits.as_slice(), own.bits.as_slice()) {
            return Some(seen.time);
        }
    }
    None
}

/// The verdict of the samples of both machines at the same strobes.
pub(crate) fn verdict_of(good: &[Sample], faulty: &[Sample]) -> End
    ensures { grade_of result ≡ Judged (verdict_in (samples_kept good.now) (samples_kept faulty.now)) }
{
    match first_strobe(Test::Hard, good, faulty) {
        Some(time) => End::Detected(time),
        None => match first_strobe(Test::Possible, good, faulty) {
            Some(time) => End::Possible(time),
            None => End::Undetected,
        },
    }
}
