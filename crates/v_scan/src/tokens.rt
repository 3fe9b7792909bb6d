// The tokens of a text, with their places.

ghost use Rattle.std.specs.Prelude.{◌≡◌, ◌≢◌, ◌+◌, ◌<◌, ◌≤◌, ◌^◌, ◌⊎◌, List, IfOk, IfErr, MatchResult, length};
ghost use Rattle.v_tree.specs.Tokens.{SourceToken};
ghost use Rattle.v_scan.specs.declared.fault.ScanFault as faults;
ghost use Rattle.v_scan.specs.Texts as texts;
ghost use Rattle.v_scan.specs.Classes.{IsRest};

use crate::bytes::before;
use crate::fault::ScanFault;
use crate::pieces::{Part, piece};
use std::alloc::Global;
use v_tree::Token;
use vf_base::{MAX_DESIGN_BYTES, Place};

/// The tokens of a text, with their places.
///
/// # Errors
///
/// `BadByte`, `BadNumber` and `Unclosed`, at the first place at which the text goes on with no token, blank or comment; `TooLong` before all
/// others; `NoMemory`.
pub fn scan(alloc: Global, text: &[u8]) -> Result<Vec<Token>, ScanFault>
    ensures tokens { IfOk result (λ tokens. texts.AreTokens text.now tokens.items) }
    ensures fault { IfErr result (texts.IsFault text.now) }
    ensures each_text { (tokens : List SourceToken) → texts.AreTokens text.now tokens → MatchResult result (λ found. found.items ≡ tokens) (λ fault. fault ≡ ScanFault.NoMemory) }
    ensures each_fault { (fault : faults.ScanFault) → texts.IsFault text.now fault → fault ≢ ScanFault.NoMemory → MatchResult result (λ _. ⊥) (λ told. (told ≡ fault) ⊎ (told ≡ ScanFault.NoMemory)) }
{
    tokens_of(alloc, text)
}

/// The tokens of a text, with their places.
fn tokens_of(alloc: Global, text: &[u8]) -> Result<Vec<Token>, ScanFault>
    ensures tokens { IfOk result (λ tokens. texts.AreTokens text.now tokens.items) }
    ensures fault { IfErr result (texts.IsFault text.now) }
{
    if text.len() as u64 > MAX_DESIGN_BYTES {
        return Err(ScanFault::TooLong);
    }
    let mut place = Place { line: 1, column: 1 };
    let mut leading = true;
    let mut rest = text;
    let mut tokens = Vec::new(alloc);
    'pieces: while let [first, after @ ..] = rest {
        let (part, back) = piece(alloc, place, leading, rest, *first, after)?;
        let next = place_behind(place, before(rest, back));
        match part {
            Part::Gap => {}
            Part::Directive => leading = false,
            Part::Token(kind) => {
                leading = false;
                tokens.push(Token::new(kind, place))?;
            }
        }
        place = next;
        rest = back;
    }
    Ok(tokens)
}

/// The place behind these bytes.
fn place_behind(start: Place, bytes: &[u8]) -> Place
    requires line { start.line + length bytes.now < 2 ^ 32 }
    requires column { start.column + length bytes.now < 2 ^ 32 }
    requires first { 0 < start.column }
    ensures place { result ≡ texts.place_behind start bytes.now }
    ensures line { result.line ≤ start.line + length bytes.now }
    ensures column { result.column ≤ start.column + length bytes.now }
    ensures first { 0 < result.column }
{
    let mut place = start;
    for b in bytes {
        place = if *b == b'\n' {
            Place {
                line: place.line + 1,
                column: 1,
            }
        } else {
            Place {
                line: place.line,
                column: place.column + 1,
            }
        };
    }
    place
}
