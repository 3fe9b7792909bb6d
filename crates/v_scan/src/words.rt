// The token at the front of a text (IEEE 1364-2001, clauses 2.4 to 2.7).

ghost use Rattle.std.specs.Prelude.{◌≡◌, ◌==◌, ◌||◌, ◌∷◌, true, false, None, Some, IfOk, IfErr, IfSome, IfNone, length};
ghost use Rattle.v_scan.specs.Words.{mark_bytes};
ghost use Rattle.v_scan.specs.Bytes as bytes;
ghost use Rattle.v_scan.specs.Reading as read;

use crate::bytes::{Class, is_digit, is_letter, split, without};
use crate::fault::ScanFault;
use crate::marks::mark_at;
use crate::number::number;
use std::alloc::Global;
use v_tree::{Mark, TokenKind};
use vf_base::{NoMemory, Place, Text};

/// The token at the front, which begins at `place`, and the bytes behind it.
pub fn token<'t>(
    alloc: Global,
    place: Place,
    text: &'t [u8],
    first: u8,
    rest: &'t [u8],
) -> Result<(TokenKind, &'t [u8]), ScanFault>
    requires { text.now ≡ first ∷ rest.now }
    ensures found { IfOk result (λ x. read.ReadsWord first rest.now x.0 x.1.now) }
    ensures none { IfErr result (read.NoWord place first rest.now) }
{
    if is_letter(first) {
        return name(alloc, place, text, first, rest);
    }
    if first == b'$' {
        return system_name(alloc, place, text, first, rest);
    }
    if first == b'"' {
        return string(place, first, rest);
    }
    if is_digit(first) || first == b'\'' {
        return numeral(alloc, place, text, first, rest);
    }
    mark(place, text, first, rest)
}

/// The name at the front.
fn name<'t>(
    alloc: Global,
    place: Place,
    text: &'t [u8],
    first: u8,
    rest: &'t [u8],
) -> Result<(TokenKind, &'t [u8]), ScanFault>
    requires begins { text.now ≡ first ∷ rest.now }
    requires letter { bytes.is_letter first ≡ true }
    ensures found { IfOk result (λ x. read.ReadsWord first rest.now x.0 x.1.now) }
    ensures none { IfErr result (read.NoWord place first rest.now) }
{
    let (bytes, back) = split(Class::Name, text);
    let name = Text::from_bytes(alloc, bytes)?;
    Ok((TokenKind::Word(name), back))
}

/// The system name at the front.
fn system_name<'t>(
    alloc: Global,
    place: Place,
    text: &'t [u8],
    first: u8,
    rest: &'t [u8],
) -> Result<(TokenKind, &'t [u8]), ScanFault>
    requires begins { text.now ≡ first ∷ rest.now }
    requires dollar { first ≡ 36 }
    ensures found { IfOk result (λ x. read.ReadsWord first rest.now x.0 x.1.now) }
    ensures none { IfErr result (read.NoWord place first rest.now) }
{
    let (bytes, back) = split(Class::Name, text);
    if bytes.len() < 2 {
        return Err(ScanFault::BadByte(place));
    }
    let name = Text::from_bytes(alloc, bytes)?;
    Ok((TokenKind::System(name), back))
}

/// The string at the front.
fn string(place: Place, first: u8, rest: &[u8]) -> Result<(TokenKind, &[u8]), ScanFault>
    requires { first ≡ 34 }
    ensures found { IfOk result (λ x. read.ReadsWord first rest.now x.0 x.1.now) }
    ensures none { IfErr result (read.NoWord place first rest.now) }
{
    match behind_quote(rest) {
        Some(back) => Ok((TokenKind::Str, back)),
        None => Err(ScanFault::Unclosed(place)),
    }
}

/// The bytes behind the closing quote of a string.
fn behind_quote(text: &[u8]) -> Option<&[u8]>
    ensures found { IfSome result (λ back. read.after_quote false text.now ≡ Some back.now) }
    ensures none { IfNone result (read.after_quote false text.now ≡ None) }
{
    let mut rest = text;
    let mut behind_backslash = false;
    'bytes: while let [b, after @ ..] = rest {
        if *b == b'\n' {
            return None;
        }
        if *b == b'"' && !behind_backslash {
            return Some(after);
        }
        behind_backslash = *b == b'\\' && !behind_backslash;
        rest = after;
    }
    None
}

/// The number at the front.
fn numeral<'t>(
    alloc: Global,
    place: Place,
    text: &'t [u8],
    first: u8,
    rest: &'t [u8],
) -> Result<(TokenKind, &'t [u8]), ScanFault>
    requires begins { text.now ≡ first ∷ rest.now }
    requires number { (bytes.is_digit first || (first == 39)) ≡ true }
    ensures found { IfOk result (λ x. read.ReadsWord first rest.now x.0 x.1.now) }
    ensures none { IfErr result (read.NoWord place first rest.now) }
{
    match number(alloc, text) {
        Ok((Some((value, form)), back)) => Ok((TokenKind::Number(value, form), back)),
        Ok((None, _)) => Err(ScanFault::BadNumber(place)),
        Err(NoMemory) => Err(ScanFault::NoMemory),
    }
}

/// The mark at the front.
fn mark<'t>(
    place: Place,
    text: &'t [u8],
    first: u8,
    rest: &'t [u8],
) -> Result<(TokenKind, &'t [u8]), ScanFault>
    requires begins { text.now ≡ first ∷ rest.now }
    requires sorted { read.sort_of first ≡ read.AsMark }
    ensures found { IfOk result (λ x. read.ReadsWord first rest.now x.0 x.1.now) }
    ensures none { IfErr result (read.NoWord place first rest.now) }
{
    match mark_at(first, rest) {
        Some(mark) => Ok((TokenKind::Mark(mark), without(text, mark_len(mark)))),
        None => Err(ScanFault::BadByte(place)),
    }
}

/// How many bytes a mark has.
fn mark_len(mark: Mark) -> usize
    ensures { result ≡ length (mark_bytes mark) }
{
    match mark {
        Mark::CaseEqual
        | Mark::CaseNotEqual
        | Mark::ArithmeticShiftLeft
        | Mark::ArithmeticShiftRight => 3,
        Mark::LogicalAnd
        | Mark::LogicalOr
        | Mark::Equal
        | Mark::NotEqual
        | Mark::LessEqual
        | Mark::GreaterEqual
        | Mark::ShiftLeft
        | Mark::ShiftRight
        | Mark::Nand
        | Mark::Nor
        | Mark::TildeCaret
        | Mark::CaretTilde => 2,
        _ => 1,
    }
}
