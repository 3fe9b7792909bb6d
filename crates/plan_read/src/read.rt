// The whole plan.

ghost use Rattle.std.specs.Prelude.{◌≡◌, ◌<◌, ◌≤◌, ◌↔◌, ◌∷◌, [], ℕ, All, Contains, IfOk, IfErr, IfSome, IsErrOf, None, Some, length, map, slice_index};
ghost use Rattle.v_design.specs.Designs.{TestPlan};
ghost use Rattle.v_design.specs.PlainDesigns.{design_of, plan_of};
ghost use Rattle.text_lines.specs.Text.{words_of};
ghost use Rattle.plan_read.specs.Forms.{line_of};
ghost use Rattle.text_lines.specs.Plain.{plain_texts};
ghost use Rattle.plan_read.specs.Plain.{watched_bits};
ghost use Rattle.fault_list.specs.Listed.{stuck};
ghost use Rattle.v_design.specs.WellFormed.{IsAscending, IsPlan, IsPlanOf};
ghost use Rattle.plan_read.specs.Spelled.{most_bytes, most_strobes, most_watched, most_faults, latest_end, lines_say, plan_lines, LinesSpell, Spells, Refuses};
ghost use Rattle.plan_read.specs.Steps.{IsRead, FaultOf};

use crate::SiteNames;
use crate::draft::Draft;
use crate::fault::PlanFault;
use crate::form::line_of;
use crate::line::add_line;
use crate::sorted::ascending;
use std::alloc::Global;
use text_lines::{lines, words};
use v_design::{Design, Plan};
use vf_base::{MAX_PLAN_BYTES, NoMemory, Seq};

/// A draft that says nothing.
fn empty_draft(alloc: Global) -> Draft
    ensures end { result.end ≡ None }
    ensures strobes { result.strobes.items ≡ [] }
    ensures watched { result.watched.items ≡ [] }
    ensures faults { result.faults.items ≡ [] }
    ensures all { result.all ≡ None }
{
    Draft {
        end: None,
        strobes: Vec::new(alloc),
        watched: Vec::new(alloc),
        faults: Vec::new(alloc),
        all: None,
    }
}

/// What the lines say, or the first line that is refused.
fn read_lines<'t>(
    alloc: Global,
    names: &SiteNames<'_>,
    lines: &[&'t [u8]],
) -> Result<Draft, PlanFault>
    requires { length lines.now ≤ most_bytes }
    ensures read { IfOk result (IsRead (design_of names.now.design.now) (lines_say (plain_texts lines.now))) }
    ensures fault { IfErr result (FaultOf (design_of names.now.design.now) (lines_say (plain_texts lines.now))) }
{
    let mut draft = empty_draft(alloc);
    let mut row: Vec<&'t [u8]> = Vec::new(alloc);
    'lines: for (place, line) in lines.iter().enumerate() {
        words(&mut row, line)?;
        add_line(
            alloc,
            names,
            &mut draft,
            line_of(row.as_slice()),
            place as u32 + 1,
        )?;
    }
    Ok(draft)
}

/// The plan of a draft with an end.
fn plan_from(alloc: Global, end: u64, draft: Draft) -> Result<Plan, NoMemory>
    requires end { draft.end ≡ Some end }
    requires early { end ≤ latest_end }
    requires in_time { All (λ time. time ≤ end) draft.strobes.items }
    requires few_strobes { length draft.strobes.items ≤ most_strobes }
    requires few_watched { length (watched_bits draft.watched.items) ≤ most_watched }
    requires few_faults { length (stuck draft.faults.items) ≤ most_faults }
    ensures end { IfOk result (λ plan. (plan_of plan).end ≡ end) }
    ensures watched { IfOk result (λ plan. (plan_of plan).watched ≡ watched_bits draft.watched.items) }
    ensures faults { IfOk result (λ plan. (plan_of plan).faults ≡ stuck draft.faults.items) }
    ensures ascending { IfOk result (λ plan. IsAscending (plan_of plan).strobes) }
    ensures strobes { IfOk result (λ plan. (time : ℕ) → Contains (plan_of plan).strobes time ↔ Contains draft.strobes.items time) }
{
    let Draft {
        end: _,
        strobes,
        watched,
        faults,
        all: _,
    } = draft;
    let strobes = ascending(alloc, strobes)?;
    Ok(Plan {
        end,
        strobes,
        watched: Seq::from_vec(watched),
        faults: Seq::from_vec(faults),
    })
}

/// The plan that a text spells over a design, or the first line at fault with its reason.
///
/// A text of more than 262,144 bytes is `TooLong`, before anything else. Of the lines the first one that is refused counts: it is bad where it is
/// of no form, where a number breaks its limit, where a strobe is past the end, or where the end isn't given first or is given again; else its
/// name is unknown; else there are too many with it. A plan without an end is bad at the line after the last.
///
/// A plan that is read keeps what every plan keeps, and is one of the design: what is watched are bits of its objects, and what is held are its sites.
pub fn read_plan(alloc: Global, text: &[u8], design: &Design) -> Result<Plan, PlanFault>
    ensures spelled { IfOk result (λ plan. Spells (design_of design.now) text.now (plan_of plan)) }
    ensures kept { IfOk result (λ plan. IsPlan (plan_of plan)) }
    ensures fits { IfOk result (λ plan. IsPlanOf (design_of design.now) (plan_of plan)) }
    ensures refused { IfErr result (Refuses (design_of design.now) text.now) }
{
    if text.len() as u64 > MAX_PLAN_BYTES {
        return Err(PlanFault::TooLong);
    }
    let names = SiteNames::new(alloc, design)?;
    let lines = lines(alloc, text)?;
    let draft = read_lines(alloc, &names, lines.as_slice())?;
    match draft.end {
        None => Err(PlanFault::BadLine(lines.len() as u32 + 1)),
        Some(end) => {
            let plan = plan_from(alloc, end, draft)?;
            Ok(plan)
        }
    }
}
