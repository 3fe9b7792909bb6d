// The report on a plan's text.

ghost use Rattle.std.specs.Prelude.{◌≡◌, ◌≤◌, ◌<◌, ◌⊎◌, Ok, Err, IfOk, MatchResult, length};
ghost use Rattle.v_design.specs.PlainDesigns.{design_of, plan_of};
ghost use Rattle.v_design.specs.Findings.{grades_of, AreInOrder};
ghost use Rattle.plan_report.specs.declared.fault.ReportFault.TheVariants as faults;
ghost use Rattle.plan_report.specs.Reports.{wanted_text, IsTheMeaning, HoldsInEveryOrder};

use crate::extent::Extent;
use crate::fault::{ReportFault, plan_fault};
use grade_report::{write_report, write_totals};
use plan_read::read_plan;
use shard_workers::{PlanGrades, grade_plan};
use std::alloc::Global;
use std::sync::ledger::Ledger;
use std::thread::Threads;
use v_design::{Design, Plan};
use vf_base::{Finding, Gate, NoMemory, Steps};

/// What is wanted of the report on these findings, of which there is one for each listed fault, in list order.
fn write_wanted(
    alloc: Global,
    design: &Design,
    plan: &Plan,
    extent: Extent,
    findings: &[Finding],
) -> Result<Vec<u8>, NoMemory>
    requires { AreInOrder (length (plan_of plan.now).faults) findings.now }
    ensures { IfOk result (λ text. text.items ≡ wanted_text extent (design_of design.now) (plan_of plan.now).faults (grades_of findings.now)) }
{
    match extent {
        Extent::Lines => write_report(alloc, design, plan, findings),
        Extent::Totals => write_totals(alloc, findings),
    }
}

/// The report on a design and a plan's text, or its totals alone, by so many workers.
///
/// The first counter is the calling thread's, and each worker has one of those behind it. Before a worker begins a shard it calls the gate.
///
/// # Errors
///
/// What is wrong with the plan, else a loop of the good machine; want of memory at any point.
pub fn plan_report<R: Threads + Sync, G: Gate + Sync, L: Ledger + Send + Sync>(
    rt: &R,
    alloc: Global,
    design: &Design,
    text: &[u8],
    extent: Extent,
    workers: u32,
    gate: &G,
    steps: &mut [Steps<L>],
) -> Result<Vec<u8>, ReportFault>
    requires workers { (1 ≤ workers) × (workers ≤ 64) }
    requires counters { workers < length steps.old }
    // Exactly what the text means; the number of workers isn't in it.
    ensures told { MatchResult result (λ report. IsTheMeaning extent (design_of design.now) text.now (Ok report.items))
        (λ fault. (fault ≡ faults.NoMemory) ⊎ IsTheMeaning extent (design_of design.now) text.now (Err fault)) }
    // What each line says holds in every order.
    ensures every_order { IfOk result (λ report. HoldsInEveryOrder extent (design_of design.now) text.now report.items) }
{
    let plan = match read_plan(alloc, text, design) {
        Ok(plan) => plan,
        Err(fault) => return Err(plan_fault(fault)),
    };
    let findings = match grade_plan(rt, alloc, design, &plan, workers, gate, steps) {
        Ok(PlanGrades::Findings(findings)) => findings,
        Ok(PlanGrades::GoodLoop(time)) => return Err(ReportFault::GoodLoop(time)),
        Err(_) => return Err(ReportFault::NoMemory),
    };
    match write_wanted(alloc, design, &plan, extent, findings.as_slice()) {
        Ok(report) => Ok(report),
        Err(_) => Err(ReportFault::NoMemory),
    }
}
