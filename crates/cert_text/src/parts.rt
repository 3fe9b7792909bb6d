// The parts of a line.

ghost use Rattle.std.specs.Prelude.{◌≡◌, ◌≤◌, ◌<◌, ◌++◌, ◌∷◌, [], IfOk, OnOk, IfSome, length, take, slice_index, count_by, nat_eq};
ghost use Rattle.std.specs.List.{slice_split};
ghost use Rattle.text_lines.specs.Plain.{plain_texts};
ghost use Rattle.cert_laws.specs.Claims.{is_blank, parts_of};
ghost use Rattle.cert_text.specs.Views.{split_behind};

use std::alloc::Global;
use vf_base::NoMemory;

/// How many blanks a line has.
pub fn count_blanks(line: &[u8]) -> usize
    ensures { result ≡ count_by is_blank line.now }
{
    line.iter().filter(|byte| **byte == b' ').count()
}

/// The text before a place.
fn before(text: &[u8], count: usize) -> &[u8]
    requires { count ≤ length text.now }
    ensures { result.now ≡ take count text.now }
{
    &text[..count]
}

/// The text behind a place.
fn behind(text: &[u8], place: usize) -> &[u8]
    requires { place < length text.now }
    ensures { text.now ≡ take place text.now ++ slice_index text.now place ∷ result.now }
{
    &text[place + 1..]
}

/// A text's first part, and what stands behind the separator after it, where there is one.
pub fn cut(separator: u8, text: &[u8]) -> (&[u8], Option<&[u8]>)
    ensures parts { slice_split (λ byte. nat_eq byte separator) text.now ≡ result.0.now ∷ split_behind separator result.1 }
    ensures shorter { IfSome result.1 (λ rest. length rest.now < length text.now) }
{
    'bytes: for (place, byte) in text.iter().enumerate() {
        if *byte == separator {
            return (before(text, place), Some(behind(text, place)));
        }
    }
    (text, None)
}

/// Adds a part.
fn push_part<'t>(parts: &mut Vec<&'t [u8]>, part: &'t [u8]) -> Result<(), NoMemory>
    ensures { OnOk result (plain_texts parts.new.items ≡ plain_texts parts.old.items ++ part.now ∷ []) }
{
    parts.push(part)?;
    Ok(())
}

/// The parts of a line between single blanks.
pub fn parts<'t>(alloc: Global, line: &'t [u8]) -> Result<Vec<&'t [u8]>, NoMemory>
    ensures { IfOk result (λ parts. plain_texts parts.items ≡ parts_of line.now) }
{
    let mut parts = Vec::new(alloc);
    let mut rest = Some(line);
    'parts: while let Some(text) = rest {
        let (part, more) = cut(b' ', text);
        push_part(&mut parts, part)?;
        rest = more;
    }
    Ok(parts)
}
