// The sample that a line spells.

ghost use Rattle.std.specs.Prelude.{◌≡◌, ◌++◌, ◌∷◌, [], IfOk, OnOk, option_map, string_bytes};
ghost use Rattle.std.specs.Fmt.{decimal};
ghost use Rattle.kept_samples.specs.Plain.{sample_of};
ghost use Rattle.response_text.specs.Reading.{observed_bits, sample_if, sample_on};

use crate::bits::observed_bits;
use kept_samples::Sample;
use std::alloc::Global;
use vf_base::NoMemory;

/// Writes a strobe's time and the space behind it, in place of what stood there.
fn write_head(head: &mut String, time: u64) -> Result<(), NoMemory>
    ensures { OnOk result (string_bytes head.new ≡ decimal time ++ 32 ∷ []) }
{
    head.clear();
    match write!(head, "{time} ") {
        Ok(()) => Ok(()),
        Err(_) => Err(NoMemory),
    }
}

/// The sample of a strobe's time and the bits that some bytes spell, if they spell so many.
fn sample_if(
    alloc: Global,
    time: u64,
    width: usize,
    bytes: &[u8],
) -> Result<Option<Sample>, NoMemory>
    ensures { IfOk result (λ sample. option_map sample_of sample ≡ sample_if time width (observed_bits bytes.now)) }
{
    if bytes.len() != width {
        return Ok(None);
    }
    let Some(bits) = observed_bits(alloc, bytes)? else {
        return Ok(None);
    };
    Ok(Some(Sample { time, bits }))
}

/// The sample that a line spells at a strobe, if it spells one. The strobe's time is written into `head`, which keeps its room from line to line.
pub fn sample_on(
    alloc: Global,
    head: &mut String,
    time: u64,
    width: usize,
    line: &[u8],
) -> Result<Option<Sample>, NoMemory>
    ensures { IfOk result (λ sample. option_map sample_of sample ≡ sample_on width time line.now) }
{
    write_head(head, time)?;
    match line.strip_prefix(head.as_bytes()) {
        Some(bytes) => sample_if(alloc, time, width, bytes),
        None => Ok(None),
    }
}
