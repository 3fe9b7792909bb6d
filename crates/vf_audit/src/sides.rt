// The run of one side of a certificate, and what it shows of the claim.

ghost use Rattle.std.specs.Prelude.{◌≡◌, ◌≤◌, length, IfOk};
ghost use Rattle.v_design.specs.Grades.{Verdict};
ghost use Rattle.v_design.specs.Plain.{fault_of};
ghost use Rattle.v_design.specs.PlainDesigns.{design_of};
ghost use Rattle.v_design.specs.Laws.{machine_of};
ghost use Rattle.v_design.specs.Views.{machine_with};
ghost use Rattle.v_design.specs.declared.plan.Design.{Design as DesignKept};
ghost use Rattle.text_lines.specs.Plain.{plain_texts};
ghost use Rattle.cert_laws.specs.Claims.{Says, Races};
ghost use Rattle.cert_laws.specs.Valid.{verdict_bound, lines_said};
ghost use Rattle.cert_text.specs.Views.{access_said};
ghost use Rattle.cert_runs.specs.Sections.{SectionBy};
ghost use Rattle.cert_runs.specs.declared.asked.Asked.TheVariants as asks;
ghost use Rattle.vf_audit.specs.Sides.{SectionFor};
ghost use Rattle.vf_audit.specs.Cases.{IsCase, case_design, case_plan, case_fault, case_claim};

use crate::access::access_text;
use crate::case::Case;
use cert_runs::{Asked, Section, follow_section};
use cert_text::{Claim, ClaimedRace};
use std::alloc::Global;
use std::sync::ledger::Ledger;
use v_design::Fault;
use vf_base::{NoMemory, Side, Steps};

/// The fault under which the machine of a side runs.
fn fault_on(side: Side, fault: Fault) -> Option<Fault>
    ensures { (design : DesignKept) → machine_with design result ≡ machine_of side (design_of design) (fault_of fault) }
{
    match side {
        Side::Good => None,
        Side::Faulty => Some(fault),
    }
}

/// Follows the run of a side where a verdict is claimed, up to a time, in steps.
fn follow_judged<L: Ledger>(
    alloc: Global,
    case: &Case<'_>,
    bound: u64,
    side: Side,
    lines: &[&[u8]],
    steps: &mut Steps<L>,
) -> Result<Section, NoMemory>
    requires case { IsCase case.now }
    requires few { length lines.now ≤ 16777216 }
    ensures { IfOk result (λ section. (given : Verdict) → verdict_bound (case_plan case.now) given ≡ bound →
        SectionFor (case_design case.now) (case_plan case.now) (case_fault case.now) (Says given) side (lines_said (plain_texts lines.now)) section) }
{
    let asked = Asked::Samples {
        bound,
        watched: case.plan.watched.as_slice(),
        strobes: case.plan.strobes.as_slice(),
    };
    let fault = fault_on(side, case.fault);
    let section = follow_section(alloc, case.design, case.graph, fault, asked, lines, steps)?;
    Ok(section)
}

/// Follows the run of a side where a race of it is claimed.
fn follow_raced<L: Ledger>(
    alloc: Global,
    case: &Case<'_>,
    race: &ClaimedRace<'_>,
    lines: &[&[u8]],
    steps: &mut Steps<L>,
) -> Result<Section, NoMemory>
    requires case { IsCase case.now }
    requires few { length lines.now ≤ 16777216 }
    ensures { IfOk result (SectionFor (case_design case.now) (case_plan case.now) (case_fault case.now)
        (Races race.now.side race.now.time race.now.phase (access_said race.now.first) (access_said race.now.second)) race.now.side (lines_said (plain_texts lines.now))) }
{
    let first = access_text(alloc, &race.first)?;
    let second = access_text(alloc, &race.second)?;
    let asked = Asked::Conflict {
        time: race.time,
        phase: race.phase,
        first: first.as_slice(),
        second: second.as_slice(),
    };
    let fault = fault_on(race.side, case.fault);
    let section = follow_section(alloc, case.design, case.graph, fault, asked, lines, steps)?;
    Ok(section)
}

/// Follows the run of a side where a race of the other one is claimed: it has no lines.
fn follow_other<L: Ledger>(
    alloc: Global,
    case: &Case<'_>,
    race: &ClaimedRace<'_>,
    side: Side,
    lines: &[&[u8]],
    steps: &mut Steps<L>,
) -> Result<Section, NoMemory>
    requires case { IsCase case.now }
    requires few { length lines.now ≤ 16777216 }
    requires other { ¬ (side ≡ race.now.side) }
    ensures { IfOk result (SectionFor (case_design case.now) (case_plan case.now) (case_fault case.now)
        (Races race.now.side race.now.time race.now.phase (access_said race.now.first) (access_said race.now.second)) side (lines_said (plain_texts lines.now))) }
{
    let fault = fault_on(side, case.fault);
    let section = follow_section(
        alloc,
        case.design,
        case.graph,
        fault,
        Asked::Nothing,
        lines,
        steps,
    )?;
    Ok(section)
}

/// Follows the run of a side where a race is claimed.
fn follow_beside<L: Ledger>(
    alloc: Global,
    case: &Case<'_>,
    race: &ClaimedRace<'_>,
    side: Side,
    lines: &[&[u8]],
    steps: &mut Steps<L>,
) -> Result<Section, NoMemory>
    requires case { IsCase case.now }
    requires few { length lines.now ≤ 16777216 }
    ensures { IfOk result (SectionFor (case_design case.now) (case_plan case.now) (case_fault case.now)
        (Races race.now.side race.now.time race.now.phase (access_said race.now.first) (access_said race.now.second)) side (lines_said (plain_texts lines.now))) }
{
    if side == race.side {
        follow_raced(alloc, case, race, lines, steps)
    } else {
        follow_other(alloc, case, race, side, lines, steps)
    }
}

/// Follows the run of a side: how far its lines go, and what it shows of the claim where it may be left there.
pub(crate) fn follow_side<L: Ledger>(
    alloc: Global,
    case: &Case<'_>,
    side: Side,
    lines: &[&[u8]],
    steps: &mut Steps<L>,
) -> Result<Section, NoMemory>
    requires case { IsCase case.now }
    requires few { length lines.now ≤ 16777216 }
    ensures { IfOk result (SectionFor (case_design case.now) (case_plan case.now) (case_fault case.now) (case_claim case.now) side (lines_said (plain_texts lines.now))) }
{
    match case.claim {
        Claim::Detected(time) => follow_judged(alloc, case, time, side, lines, steps),
        Claim::Possible(_) => follow_judged(alloc, case, case.plan.end, side, lines, steps),
        Claim::Undetected => follow_judged(alloc, case, case.plan.end, side, lines, steps),
        Claim::Race(race) => follow_beside(alloc, case, &race, side, lines, steps),
    }
}
