// The lines behind the claim, from one stage to the next: the good run, the faulty run, the end.

ghost use Rattle.std.specs.Prelude.{◌≡◌, ◌≤◌, ◌+◌, ◌∷◌, length, drop, IfOk, MatchOption, Option, None};
ghost use Rattle.text_lines.specs.Plain.{plain_texts};
ghost use Rattle.cert_laws.specs.Replays.{Replay};
ghost use Rattle.cert_laws.specs.Valid.{Before, InGood, InFaulty, lines_said};
ghost use Rattle.cert_text.specs.Views.{cert_line_plain};
ghost use Rattle.vf_base.specs.declared.finding.Side.TheVariants.{Good, Faulty};
ghost use Rattle.vf_audit.specs.Sides.{ShowsFor, LeavesRun, SectionFor, BeginsNoRun};
ghost use Rattle.vf_audit.specs.Cases.{IsCase, case_design, case_plan, case_fault, case_claim};
ghost use Rattle.vf_audit.specs.Stages.{BeginsOtherwise, FollowsFrom};

use crate::answers::Audited;
use crate::case::Case;
use crate::ends::end_of;
use crate::sides::follow_side;
use cert_runs::{Section, Shown};
use cert_text::{CertLine, read_cert_line};
use std::alloc::Global;
use std::sync::ledger::Ledger;
use vf_base::{NoMemory, Side, Steps};

/// The number of the first line behind the claim.
const FIRST_LINE: u32 = 3;

/// The lines behind the first one, where that says this.
fn lines_behind<'l, 't>(lines: &'l [&'t [u8]], wanted: CertLine) -> Option<&'l [&'t [u8]]>
    ensures said { MatchOption result (BeginsOtherwise (cert_line_plain wanted) (lines_said (plain_texts lines.now)))
        (λ rest. lines_said (plain_texts lines.now) ≡ cert_line_plain wanted ∷ lines_said (plain_texts rest.now)) }
    ensures shorter { MatchOption result (Unit {0}) (λ rest. length rest.now + 1 ≡ length lines.now) }
{
    let Some((first, rest)) = lines.split_first() else {
        return None;
    };
    let Some(said) = read_cert_line(first) else {
        return None;
    };
    if said == wanted { Some(rest) } else { None }
}

/// The number of the line so many lines behind another.
fn number_behind(number: u32, count: usize) -> u32
    requires { number + count ≤ 16777217 }
    ensures { result ≡ number + count }
{
    number + count as u32
}

/// The lines behind so many of them.
fn lines_from<'l, 't>(lines: &'l [&'t [u8]], count: usize) -> &'l [&'t [u8]]
    requires { count ≤ length lines.now }
    ensures said { lines_said (plain_texts result.now) ≡ drop count (lines_said (plain_texts lines.now)) }
    ensures left { length result.now + count ≡ length lines.now }
{
    &lines[count..]
}

/// Ends the check behind both runs: the line `end`, and none behind it.
fn follow_end(
    case: &Case<'_>,
    good: &Shown,
    faulty: &Option<Shown>,
    number: u32,
    lines: &[&[u8]],
) -> Audited
    requires room { number + length lines.now ≤ 16777217 }
    ensures { (good_run run : Option Replay) → BeginsNoRun (lines_said (plain_texts lines.now)) →
        ShowsFor (case_design case.now) (case_plan case.now) (case_fault case.now) (case_claim case.now) Good good_run good.now →
        LeavesRun (case_design case.now) (case_plan case.now) (case_fault case.now) (case_claim case.now) Faulty run faulty.now →
        FollowsFrom (case_design case.now) (case_plan case.now) (case_fault case.now) (case_claim case.now) number (InFaulty good_run run) (lines_said (plain_texts lines.now)) result }
{
    let Some(rest) = lines_behind(lines, CertLine::End) else {
        return Audited::No(number);
    };
    let Some(faulty) = faulty else {
        return Audited::No(number);
    };
    let Some(end) = end_of(case, good, faulty) else {
        return Audited::No(number);
    };
    if !rest.is_empty() {
        return Audited::No(number + 1);
    }
    Audited::Yes(case.fault, end)
}

/// Goes on behind the faulty run.
fn behind_faulty(
    case: &Case<'_>,
    good: &Shown,
    section: &Section,
    number: u32,
    lines: &[&[u8]],
) -> Audited
    requires room { number + length lines.now ≤ 16777217 }
    requires section { SectionFor (case_design case.now) (case_plan case.now) (case_fault case.now) (case_claim case.now) Faulty (lines_said (plain_texts lines.now)) section.now }
    ensures { (good_run : Option Replay) →
        ShowsFor (case_design case.now) (case_plan case.now) (case_fault case.now) (case_claim case.now) Good good_run good.now →
        FollowsFrom (case_design case.now) (case_plan case.now) (case_fault case.now) (case_claim case.now) number (InFaulty good_run None) (lines_said (plain_texts lines.now)) result }
{
    cert_runs::runs_tell();
    match section {
        Section::Breaks(count) => Audited::No(number_behind(number, *count)),
        Section::Stops(count, shown) => {
            let rest = lines_from(lines, *count);
            follow_end(case, good, shown, number_behind(number, *count), rest)
        }
    }
}

/// Follows the line `faulty` and the run behind it.
fn follow_faulty<L: Ledger>(
    alloc: Global,
    case: &Case<'_>,
    good: &Option<Shown>,
    number: u32,
    lines: &[&[u8]],
    steps: &mut Steps<L>,
) -> Result<Audited, NoMemory>
    requires case { IsCase case.now }
    requires room { number + length lines.now ≤ 16777217 }
    ensures { IfOk result (λ audited. (run : Option Replay) → BeginsNoRun (lines_said (plain_texts lines.now)) →
        LeavesRun (case_design case.now) (case_plan case.now) (case_fault case.now) (case_claim case.now) Good run good.now →
        FollowsFrom (case_design case.now) (case_plan case.now) (case_fault case.now) (case_claim case.now) number (InGood run) (lines_said (plain_texts lines.now)) audited) }
{
    let Some(rest) = lines_behind(lines, CertLine::Faulty) else {
        return Ok(Audited::No(number));
    };
    let Some(good) = good else {
        return Ok(Audited::No(number));
    };
    let section = follow_side(alloc, case, Side::Faulty, rest, steps)?;
    Ok(behind_faulty(case, good, &section, number + 1, rest))
}

/// Goes on behind the good run.
fn behind_good<L: Ledger>(
    alloc: Global,
    case: &Case<'_>,
    section: &Section,
    number: u32,
    lines: &[&[u8]],
    steps: &mut Steps<L>,
) -> Result<Audited, NoMemory>
    requires case { IsCase case.now }
    requires room { number + length lines.now ≤ 16777217 }
    requires section { SectionFor (case_design case.now) (case_plan case.now) (case_fault case.now) (case_claim case.now) Good (lines_said (plain_texts lines.now)) section.now }
    ensures { IfOk result (FollowsFrom (case_design case.now) (case_plan case.now) (case_fault case.now) (case_claim case.now) number (InGood None) (lines_said (plain_texts lines.now))) }
{
    cert_runs::runs_tell();
    match section {
        Section::Breaks(count) => Ok(Audited::No(number_behind(number, *count))),
        Section::Stops(count, shown) => {
            let rest = lines_from(lines, *count);
            let first = number_behind(number, *count);
            let audited = follow_faulty(alloc, case, shown, first, rest, steps)?;
            Ok(audited)
        }
    }
}

/// Follows the lines behind the claim, of which there are at most 16,777,214.
pub(crate) fn follow_lines<L: Ledger>(
    alloc: Global,
    case: &Case<'_>,
    lines: &[&[u8]],
    steps: &mut Steps<L>,
) -> Result<Audited, NoMemory>
    requires case { IsCase case.now }
    requires few { length lines.now ≤ 16777214 }
    ensures { IfOk result (FollowsFrom (case_design case.now) (case_plan case.now) (case_fault case.now) (case_claim case.now) 3 Before (lines_said (plain_texts lines.now))) }
{
    let Some(rest) = lines_behind(lines, CertLine::Good) else {
        return Ok(Audited::No(FIRST_LINE));
    };
    let section = follow_side(alloc, case, Side::Good, rest, steps)?;
    let audited = behind_good(alloc, case, &section, FIRST_LINE + 1, rest, steps)?;
    Ok(audited)
}
