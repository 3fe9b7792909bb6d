// One line of a plan.

ghost use Rattle.std.specs.Prelude.{◌≡◌, None, Some, OnOk, IfErr, IfOk, IsSome};
ghost use Rattle.v_design.specs.PlainDesigns.{design_of};
ghost use Rattle.plan_read.specs.Plain.{plain_line};
ghost use Rattle.plan_read.specs.Steps.{FaultIs, AreKept, IsAdded, IsWithin, reason_first, reason_after, reason_at};

use crate::SiteNames;
use crate::draft::{Draft, add_all, add_fault, add_strobes, add_watched};
use crate::fault::PlanFault;
use crate::form::Line;
use fault_list::all_sites;
use std::alloc::Global;
use v_design::{Design, Fault};
use vf_base::{MAX_END, NoMemory};

/// Adds a line before the end was given: only the line of the end is good.
fn add_first(
    design: &Design,
    draft: &mut Draft,
    line: Line<'_>,
    number: u32,
) -> Result<(), PlanFault>
    requires within { IsWithin (design_of design.now) draft.old }
    requires first { draft.old.end ≡ None }
    ensures ok { OnOk result (IsAdded (design_of design.now) (plain_line line.entry) draft.old draft.new) }
    ensures good { OnOk result (reason_first (plain_line line.entry) ≡ None) }
    ensures fault { IfErr result (FaultIs number (reason_first (plain_line line.entry))) }
{
    let _ = design;
    match line {
        Line::Empty => Ok(()),
        Line::Ends(time) => {
            if time > MAX_END {
                return Err(PlanFault::BadLine(number));
            }
            draft.end = Some(time);
            Ok(())
        }
        Line::Watches(_) => Err(PlanFault::BadLine(number)),
        Line::Strobes(_) => Err(PlanFault::BadLine(number)),
        Line::Lists(_, _) => Err(PlanFault::BadLine(number)),
        Line::ListsAll => Err(PlanFault::BadLine(number)),
        Line::Formless => Err(PlanFault::BadLine(number)),
    }
}

/// Keeps all faults of a design.
fn keep_all(alloc: Global, design: &Design, kept: &mut Option<Vec<Fault>>) -> Result<(), NoMemory>
    requires { AreKept (design_of design.now) kept.old }
    ensures kept { OnOk result (AreKept (design_of design.now) kept.new) }
    ensures some { OnOk result (IsSome kept.new) }
{
    if kept.is_none() {
        *kept = Some(all_sites(alloc, design)?);
    }
    Ok(())
}

/// Adds a line after the end was given.
fn add_later(
    alloc: Global,
    names: &SiteNames<'_>,
    draft: &mut Draft,
    end: u64,
    line: Line<'_>,
    number: u32,
) -> Result<(), PlanFault>
    requires within { IsWithin (design_of names.now.design.now) draft.old }
    requires later { draft.old.end ≡ Some end }
    ensures ok { OnOk result (IsAdded (design_of names.now.design.now) (plain_line line.entry) draft.old draft.new) }
    ensures good { OnOk result (reason_after (design_of names.now.design.now) draft.old end (plain_line line.entry) ≡ None) }
    ensures fault { IfErr result (FaultIs number (reason_after (design_of names.now.design.now) draft.old end (plain_line line.entry))) }
{
    match line {
        Line::Empty => Ok(()),
        Line::Ends(_) => Err(PlanFault::BadLine(number)),
        Line::Watches(name) => {
            add_watched(alloc, names, &mut draft.watched, name, number)?;
            Ok(())
        }
        Line::Strobes(times) => {
            add_strobes(&mut draft.strobes, end, times, number)?;
            Ok(())
        }
        Line::Lists(name, value) => {
            add_fault(names, &mut draft.faults, name, value, number)?;
            Ok(())
        }
        Line::ListsAll => {
            keep_all(alloc, names.design, &mut draft.all)?;
            let Some(all) = &draft.all else {
                unreachable!();
            };
            add_all(&mut draft.faults, all.as_slice(), number)?;
            Ok(())
        }
        Line::Formless => Err(PlanFault::BadLine(number)),
    }
}

/// Adds what a line says, or tells why it is refused.
pub fn add_line(
    alloc: Global,
    names: &SiteNames<'_>,
    draft: &mut Draft,
    line: Line<'_>,
    number: u32,
) -> Result<(), PlanFault>
    requires within { IsWithin (design_of names.now.design.now) draft.old }
    ensures ok { OnOk result (IsAdded (design_of names.now.design.now) (plain_line line.entry) draft.old draft.new) }
    ensures good { OnOk result (reason_at (design_of names.now.design.now) draft.old draft.old.end (plain_line line.entry) ≡ None) }
    ensures fault { IfErr result (FaultIs number (reason_at (design_of names.now.design.now) draft.old draft.old.end (plain_line line.entry))) }
{
    match draft.end {
        None => {
            add_first(names.design, draft, line, number)?;
            Ok(())
        }
        Some(end) => {
            add_later(alloc, names, draft, end, line, number)?;
            Ok(())
        }
    }
}
