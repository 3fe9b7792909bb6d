// How samples fit what was observed.

ghost use Rattle.std.specs.Prelude.{◌≡◌};
ghost use Rattle.std.specs.List.{zip, list_any};
ghost use Rattle.v_design.specs.Grades.{is_hard, is_possible};
ghost use Rattle.kept_samples.specs.Plain.{sample_of};
ghost use Rattle.kept_samples.specs.Kept.{samples_kept};
ghost use Rattle.dict_laws.specs.Responses.{fit};
ghost use Rattle.dict_text.specs.Merged.{sample_beside, left_beside, merged};
ghost use Rattle.dict_text.specs.Views.{fit_view};

use four_value::Bit;
use kept_samples::Sample;

/// How samples fit a response: exactly, possibly, or not at all.
#[derive(Clone, Copy, Debug)]
pub(crate) enum Fit {
    Exact,
    Possible,
    Contradicted,
}

/// Whether a bit is opposite to an observed 0 or 1.
fn is_hard(observed: Bit, bit: Bit) -> bool
    ensures { result ≡ is_hard observed bit }
{
    matches!(
        (observed, bit),
        (Bit::Zero, Bit::One) | (Bit::One, Bit::Zero)
    )
}

/// Whether a bit is x or z where 0 or 1 was observed.
fn is_possible(observed: Bit, bit: Bit) -> bool
    ensures { result ≡ is_possible observed bit }
{
    matches!((observed, bit), (Bit::Zero | Bit::One, Bit::X | Bit::Z))
}

/// Whether some bit is opposite to what was observed.
fn some_hard(observed: &[Bit], bits: &[Bit]) -> bool
    ensures { result ≡ list_any (λ pair. is_hard pair.0 pair.1) (zip observed.now bits.now) }
{
    observed
        .iter()
        .zip(bits)
        .any(|(seen, bit)| is_hard(*seen, *bit))
}

/// Whether some bit is x or z where 0 or 1 was observed.
fn some_possible(observed: &[Bit], bits: &[Bit]) -> bool
    ensures { result ≡ list_any (λ pair. is_possible pair.0 pair.1) (zip observed.now bits.now) }
{
    observed
        .iter()
        .zip(bits)
        .any(|(seen, bit)| is_possible(*seen, *bit))
}

/// The first of those that differ where it is of the good sample's time, else the good sample; and those that are left.
fn beside<'s>(good: &'s Sample, differs: &'s [Sample]) -> (&'s Sample, &'s [Sample])
    ensures sample { sample_of result.0.now ≡ sample_beside (sample_of good.now) (samples_kept differs.now) }
    ensures left { samples_kept result.1.now ≡ left_beside (sample_of good.now) (samples_kept differs.now) }
{
    let Some((own, left)) = differs.split_first() else {
        return (good, differs);
    };
    if own.time != good.time {
        return (good, differs);
    }
    (own, left)
}

/// How the good samples, with those that differ in their stead, fit what was observed; both are walked side by side.
pub(crate) fn fit_of(observed: &[Sample], good: &[Sample], differs: &[Sample]) -> Fit
    ensures { fit_view result ≡ fit (samples_kept observed.now) (merged (samples_kept good.now) (samples_kept differs.now)) }
{
    let mut left = differs;
    let mut possible = false;
    'strobes: for (seen, expected) in observed.iter().zip(good) {
        let (sample, later) = beside(expected, left);
        left = later;
        if some_hard(seen.bits.as_slice(), sample.bits.as_slice()) {
            return Fit::Contradicted;
        }
        possible = possible || some_possible(seen.bits.as_slice(), sample.bits.as_slice());
    }
    if possible { Fit::Possible } else { Fit::Exact }
}
