// The lines of samples.

ghost use Rattle.std.specs.Prelude.{◌≡◌, ◌++◌, map, OnOk};
ghost use Rattle.vf_base.specs.Lists.{joined};
ghost use Rattle.kept_samples.specs.Plain.{sample_of};
ghost use Rattle.kept_samples.specs.Kept.{samples_kept};
ghost use Rattle.dict_text.specs.Texts.{bit_text, sample_line};

use fault_list::{append, append_number};
use four_value::Bit;
use kept_samples::Sample;
use std::alloc::Global;
use vf_base::NoMemory;

/// The byte of a bit.
fn bit_byte(bit: Bit) -> u8
    ensures { result ≡ bit_text bit }
{
    match bit {
        Bit::Zero => b'0',
        Bit::One => b'1',
        Bit::X => b'x',
        Bit::Z => b'z',
    }
}

/// Adds bits.
fn append_bits(out: &mut Vec<u8>, bits: &[Bit]) -> Result<(), NoMemory>
    ensures { OnOk result (out.new.items ≡ out.old.items ++ map bit_text bits.now) }
{
    'bits: for bit in bits {
        out.push(bit_byte(*bit))?;
    }
    Ok(())
}

/// Adds the line of a sample: its time and its bits.
#[tactic(auto, unfolding(crate::specs::Texts::sample_line))]
fn append_sample(alloc: Global, out: &mut Vec<u8>, sample: &Sample) -> Result<(), NoMemory>
    ensures { OnOk result (out.new.items ≡ out.old.items ++ sample_line (sample_of sample.now)) }
{
    append_number(alloc, out, sample.time)?;
    append(out, b" ")?;
    append_bits(out, sample.bits.as_slice())?;
    append(out, b"\n")?;
    Ok(())
}

/// Adds the lines of samples, each with a word before it.
pub(crate) fn append_samples(
    alloc: Global,
    out: &mut Vec<u8>,
    word: &[u8],
    samples: &[Sample],
) -> Result<(), NoMemory>
    ensures { OnOk result (out.new.items ≡ out.old.items ++ joined (map (λ sample. word.now ++ sample_line sample) (samples_kept samples.now))) }
{
    'samples: for sample in samples {
        append(out, word)?;
        append_sample(alloc, out, sample)?;
    }
    Ok(())
}
