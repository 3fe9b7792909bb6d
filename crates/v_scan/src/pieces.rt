// The piece at the front of a text: a blank, a comment, the leading directive or a token (IEEE 1364-2001, clauses 2.1 to 2.3).

ghost use Rattle.std.specs.Prelude.{◌≡◌, ◌≢◌, ◌∷◌, ◌++◌, ℕ, List, Bool, true, None, Some, IfOk, IfErr, IfSome, IfNone, codes, false};
ghost use Rattle.v_scan.specs.Texts as texts;
ghost use Rattle.v_scan.specs.Reading as read;

use crate::bytes::{Class, after_byte, behind, is_blank};
use crate::fault::ScanFault;
use crate::words::token;
use std::alloc::Global;
use v_tree::TokenKind;
use vf_base::Place;

/// What stands at the front of a text.
#[derive(Drop)]
pub enum Part {
    /// A blank or a comment.
    Gap,
    /// The leading directive.
    Directive,
    Token(TokenKind),
}

/// The piece at the front, which begins at `place`, and the bytes behind it.
pub fn piece<'t>(
    alloc: Global,
    place: Place,
    leading: bool,
    text: &'t [u8],
    first: u8,
    rest: &'t [u8],
) -> Result<(Part, &'t [u8]), ScanFault>
    requires { text.now ≡ first ∷ rest.now }
    ensures found { IfOk result (λ x. read.IsFront leading text.now x.0 x.1.now) }
    ensures stops { IfErr result (read.StopsHere leading place text.now) }
{
    if is_blank(first) {
        return Ok((Part::Gap, rest));
    }
    if let Some(back) = behind_comment(place, text)? {
        return Ok((Part::Gap, back));
    }
    if first == b'`' {
        let back = behind_directive(place, leading, text)?;
        return Ok((Part::Directive, back));
    }
    match token(alloc, place, text, first, rest) {
        Ok((kind, back)) => Ok((Part::Token(kind), back)),
        Err(fault) => Err(fault),
    }
}

/// The bytes behind a comment, if one begins here, at `place`.
fn behind_comment(place: Place, text: &[u8]) -> Result<Option<&[u8]>, ScanFault>
    ensures told { IfOk result (λ found. read.TellsComment text.now found) }
    ensures open { IfErr result (λ fault. (fault ≡ ScanFault.Unclosed place) × texts.BeginsUnclosed text.now) }
{
    let Some(second) = after_byte(b'/', text) else {
        return Ok(None);
    };
    if let Some(body) = after_byte(b'/', second) {
        return Ok(Some(behind(Class::Line, body)));
    }
    let Some(body) = after_byte(b'*', second) else {
        return Ok(None);
    };
    match behind_close(body) {
        Some(back) => Ok(Some(back)),
        None => Err(ScanFault::Unclosed(place)),
    }
}

/// The bytes behind the end of a comment.
fn behind_close(text: &[u8]) -> Option<&[u8]>
    ensures found { IfSome result (λ back. read.after_close text.now ≡ Some back.now) }
    ensures none { IfNone result (read.after_close text.now ≡ None) }
{
    let mut rest = text;
    'bytes: while let [first, after @ ..] = rest {
        if let [b'*', b'/', back @ ..] = rest {
            return Some(back);
        }
        rest = after;
    }
    None
}

/// The bytes behind the leading directive.
fn behind_directive(place: Place, leading: bool, text: &[u8]) -> Result<&[u8], ScanFault>
    ensures found { IfOk result (λ back. read.IsFront leading text.now Part.Directive back.now) }
    ensures none { IfErr result (λ fault. (fault ≡ ScanFault.BadByte place) × (read.directive_at leading text.now ≡ read.Nothing)) }
{
    if !leading {
        return Err(ScanFault::BadByte(place));
    }
    let Some(body) = behind_timescale(text) else {
        return Err(ScanFault::BadByte(place));
    };
    if !ends_word(body) {
        return Err(ScanFault::BadByte(place));
    }
    Ok(behind(Class::Directive, body))
}

/// The bytes behind the word `timescale`, with its grave accent.
fn behind_timescale(text: &[u8]) -> Option<&[u8]>
    ensures found { IfSome result (λ back. text.now ≡ codes "`timescale" ++ back.now) }
    ensures none { IfNone result ((rest : List ℕ) → text.now ≢ codes "`timescale" ++ rest) }
{
    text.strip_prefix(b"`timescale")
}

/// Whether a word that stands before these bytes ends there.
fn ends_word(text: &[u8]) -> bool
    ensures { result ≡ read.goes_no_further text.now }
{
    match text {
        [b, ..] => !Class::Name.has(*b),
        [] => true,
    }
}
