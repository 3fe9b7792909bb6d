// The second line of a certificate: a fault and what is claimed of it.

ghost use Rattle.std.specs.Prelude.{◌≡◌, ◌∷◌, [], IfOk, option_map, length, codes};
ghost use Rattle.std.specs.Str.{bytes_eq};
ghost use Rattle.v_design.specs.Designs.{FlatDesign};
ghost use Rattle.v_design.specs.Plain.{fault_of};
ghost use Rattle.v_design.specs.PlainDesigns.{design_of};
ghost use Rattle.text_lines.specs.Plain.{plain_texts};
ghost use Rattle.fault_list.specs.Spelled.{site_spelled};
ghost use Rattle.cert_laws.specs.Claims.{side_of, moment_of, claim_by, value_of_word, named_site, fault_by, line_claims, claim_of};
ghost use Rattle.cert_text.specs.Views.{claim_said, claimed_said};

use crate::access::{ClaimedAccess, access_of};
use crate::number::{number, short_number};
use crate::parts::{count_blanks, cut, parts};
use fault_list::{site_of, write_site};
use std::alloc::Global;
use v_design::{Design, Fault};
use vf_base::{NoMemory, Side};

/// The blanks of the longest line: that of a race.
const MAX_BLANKS: usize = 12;

/// A race as a line claims it: the machine that it is in, its time, its phase counted from 1, and its accesses, the earlier one first.
#[derive(Clone, Copy, Debug)]
pub struct ClaimedRace<'t> {
    pub side: Side,
    pub time: u64,
    pub phase: u32,
    pub first: ClaimedAccess<'t>,
    pub second: ClaimedAccess<'t>,
}

/// What a certificate claims of a fault.
#[derive(Clone, Copy, Debug)]
pub enum Claim<'t> {
    /// The strobe of this time detects it.
    Detected(u64),
    /// The strobe of this time is the first that may detect it.
    Possible(u64),
    /// No strobe detects it.
    Undetected,
    /// The good or the faulty machine has a race.
    Race(ClaimedRace<'t>),
}

/// The machine that a word names.
fn side_of(word: &[u8]) -> Option<Side>
    ensures { result ≡ side_of word.now }
{
    if word == b"good".as_slice() {
        Some(Side::Good)
    } else if word == b"faulty".as_slice() {
        Some(Side::Faulty)
    } else {
        None
    }
}

/// The time and the phase that a word spells, with a point between.
fn moment_of(word: &[u8]) -> Option<(u64, u32)>
    ensures { result ≡ moment_of word.now }
{
    let (time, rest) = cut(b'.', word);
    let Some(rest) = rest else {
        return None;
    };
    let (phase, rest) = cut(b'.', rest);
    let None = rest else {
        return None;
    };
    let time = number(time)?;
    let phase = short_number(phase)?;
    Some((time, phase))
}

/// The claim of one word.
fn claim_of_one(word: &[u8]) -> Option<Claim<'static>>
    ensures { (design : FlatDesign) → option_map claim_said result ≡ claim_by design (word.now ∷ []) }
{
    if word == b"undetected".as_slice() {
        Some(Claim::Undetected)
    } else {
        None
    }
}

/// The claim of two words.
fn claim_of_two(word: &[u8], time: &[u8]) -> Option<Claim<'static>>
    ensures { (design : FlatDesign) → option_map claim_said result ≡ claim_by design (word.now ∷ time.now ∷ []) }
{
    if word == b"detected".as_slice() {
        let time = number(time)?;
        Some(Claim::Detected(time))
    } else if word == b"possible".as_slice() {
        let time = number(time)?;
        Some(Claim::Possible(time))
    } else {
        None
    }
}

/// Whether a word begins the claim of a race.
fn is_race(word: &[u8]) -> bool
    ensures { result ≡ bytes_eq word.now (codes "race") }
{
    word == b"race".as_slice()
}

/// The claim of a race, `race`, its side, its moment and four words for each access; there is none of as many other words.
fn claim_of_race<'t>(
    alloc: Global,
    design: &Design,
    words: &[&'t [u8]],
) -> Result<Option<Claim<'t>>, NoMemory>
    requires one { ¬ (length words.now ≡ 1) }
    requires two { ¬ (length words.now ≡ 2) }
    ensures { IfOk result (λ claim. option_map claim_said claim ≡ claim_by (design_of design.now) (plain_texts words.now)) }
{
    if words.len() != 11 {
        return Ok(None);
    }
    if !is_race(words[0]) {
        return Ok(None);
    }
    let Some(side) = side_of(words[1]) else {
        return Ok(None);
    };
    let Some((time, phase)) = moment_of(words[2]) else {
        return Ok(None);
    };
    let first = access_of(alloc, design, words[3], words[4], words[5], words[6])?;
    let Some(first) = first else {
        return Ok(None);
    };
    let second = access_of(alloc, design, words[7], words[8], words[9], words[10])?;
    let Some(second) = second else {
        return Ok(None);
    };
    Ok(Some(Claim::Race(ClaimedRace {
        side,
        time,
        phase,
        first,
        second,
    })))
}

/// The claim that the words behind the fault spell.
fn claim_of<'t>(
    alloc: Global,
    design: &Design,
    words: &[&'t [u8]],
) -> Result<Option<Claim<'t>>, NoMemory>
    ensures { IfOk result (λ claim. option_map claim_said claim ≡ claim_by (design_of design.now) (plain_texts words.now)) }
{
    match words {
        [word] => Ok(claim_of_one(word)),
        [word, time] => Ok(claim_of_two(word, time)),
        _ => claim_of_race(alloc, design, words),
    }
}

/// The value that a word holds a site at.
fn value_of(word: &[u8]) -> Option<bool>
    ensures { result ≡ value_of_word word.now }
{
    if word == b"sa0".as_slice() {
        Some(false)
    } else if word == b"sa1".as_slice() {
        Some(true)
    } else {
        None
    }
}

/// The fault that two words spell: a site, by the name under which it prints, and a value.
fn fault_of(
    alloc: Global,
    design: &Design,
    site: &[u8],
    value: &[u8],
) -> Result<Option<Fault>, NoMemory>
    ensures { IfOk result (λ fault. option_map fault_of fault ≡ fault_by (named_site (design_of design.now) site.now (site_spelled (design_of design.now) site.now)) (value_of_word value.now)) }
{
    let Some(value) = value_of(value) else {
        return Ok(None);
    };
    let Some(found) = site_of(design, site) else {
        return Ok(None);
    };
    let mut name = Vec::new(alloc);
    write_site(alloc, design, found, &mut name)?;
    if site != name.as_slice() {
        return Ok(None);
    }
    Ok(Some(Fault { site: found, value }))
}

/// The fault and the claim that the parts of a line spell.
fn claimed_by<'t>(
    alloc: Global,
    design: &Design,
    parts: &[&'t [u8]],
) -> Result<Option<(Fault, Claim<'t>)>, NoMemory>
    ensures { IfOk result (λ claimed. option_map claimed_said claimed ≡ line_claims (design_of design.now) (plain_texts parts.now)) }
{
    let Some((site, rest)) = parts.split_first() else {
        return Ok(None);
    };
    let Some((value, words)) = rest.split_first() else {
        return Ok(None);
    };
    let Some(fault) = fault_of(alloc, design, site, value)? else {
        return Ok(None);
    };
    let Some(claim) = claim_of(alloc, design, words)? else {
        return Ok(None);
    };
    Ok(Some((fault, claim)))
}

/// The fault and the claim of a certificate's second line, where it is the line of a site of the design, by the name under which it prints, with an end other
/// than a loop; None of any other line.
///
/// Times have up to 64 bits, phases and lines up to 32, processes and objects are of the design.
///
/// # Errors
///
/// Want of memory.
pub fn read_claim<'t>(
    alloc: Global,
    design: &Design,
    line: &'t [u8],
) -> Result<Option<(Fault, Claim<'t>)>, NoMemory>
    ensures { IfOk result (λ claimed. option_map claimed_said claimed ≡ claim_of (design_of design.now) line.entry.now) }
{
    if count_blanks(line) > MAX_BLANKS {
        return Ok(None);
    }
    let parts = parts(alloc, line)?;
    claimed_by(alloc, design, parts.as_slice())
}
