// Observed bits.

ghost use Rattle.std.specs.Prelude.{◌≡◌, IfOk};
ghost use Rattle.response_text.specs.Reading.{observed_bit, observed_bits};

use four_value::Bit;
use std::alloc::Global;
use vf_base::{NoMemory, Seq};

/// The bit that a byte spells: 0 or 1, or x where it wasn't observed.
fn observed_bit(byte: u8) -> Option<Bit>
    ensures { result ≡ observed_bit byte }
{
    match byte {
        b'0' => Some(Bit::Zero),
        b'1' => Some(Bit::One),
        b'-' => Some(Bit::X),
        _ => None,
    }
}

/// The bits that some bytes spell, if each of them spells one.
pub fn observed_bits(alloc: Global, bytes: &[u8]) -> Result<Option<Seq<Bit>>, NoMemory>
    ensures { IfOk result (λ bits. bits ≡ observed_bits bytes.now) }
{
    let mut bits = Vec::with_capacity(alloc, bytes.len())?;
    for byte in bytes {
        let Some(bit) = observed_bit(*byte) else {
            return Ok(None);
        };
        bits.push(bit)?;
    }
    Ok(Some(Seq::from_vec(bits)))
}
