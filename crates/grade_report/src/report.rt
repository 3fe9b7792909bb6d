// The report.

ghost use Rattle.std.specs.Prelude.{◌≡◌, ◌++◌, length, IfOk, OnOk};
ghost use Rattle.v_design.specs.PlainDesigns.{design_of, plan_of};
ghost use Rattle.grade_report.specs.Report.{total_line, report_text};
ghost use Rattle.v_design.specs.Findings.{grades_of, AreInOrder};

use crate::count::{count_detected, count_hyper, count_possible, count_race, count_undetected};
use crate::line::{append_count, write_line};
use fault_list::append;
use std::alloc::Global;
use v_design::{Design, Plan};
use vf_base::{Finding, NoMemory};

/// Adds the line of the totals.
fn append_total(alloc: Global, out: &mut Vec<u8>, findings: &[Finding]) -> Result<(), NoMemory>
    ensures { OnOk result (out.new.items ≡ out.old.items ++ total_line (grades_of findings.now)) }
{
    append_count(alloc, out, b"total ", findings.len() as u64)?;
    append_count(alloc, out, b" detected ", count_detected(findings) as u64)?;
    append_count(alloc, out, b" possible ", count_possible(findings) as u64)?;
    append_count(
        alloc,
        out,
        b" undetected ",
        count_undetected(findings) as u64,
    )?;
    append_count(alloc, out, b" race ", count_race(findings) as u64)?;
    append_count(alloc, out, b" hyper ", count_hyper(findings) as u64)?;
    append(out, b"\n")?;
    Ok(())
}

/// The line of the totals of these findings alone.
///
/// # Errors
///
/// Want of memory.
pub fn write_totals(alloc: Global, findings: &[Finding]) -> Result<Vec<u8>, NoMemory>
    ensures { IfOk result (λ text. text.items ≡ total_line (grades_of findings.now)) }
{
    let mut line = Vec::new(alloc);
    append_total(alloc, &mut line, findings)?;
    Ok(line)
}

/// The report on these findings, of which there is one for each listed fault, in list order: a line for each, then the totals.
pub fn write_report(
    alloc: Global,
    design: &Design,
    plan: &Plan,
    findings: &[Finding],
) -> Result<Vec<u8>, NoMemory>
    requires { AreInOrder (length (plan_of plan.now).faults) findings.now }
    ensures { IfOk result (λ text. text.items ≡ report_text (design_of design.now) (plan_of plan.now).faults (grades_of findings.now)) }
{
    let mut out = Vec::new(alloc);
    append(&mut out, b"vfault 1\n")?;
    let faults = plan.faults.as_slice();
    'findings: for (number, finding) in findings.iter().enumerate() {
        write_line(alloc, design, faults[number], &finding.end, &mut out)?;
    }
    append_total(alloc, &mut out, findings)?;
    Ok(out)
}
