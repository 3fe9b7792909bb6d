// The report on a design and a plan.

ghost use Rattle.std.specs.Prelude.{◌≡◌, ◌≤◌, ◌+◌, ◌<◌, length, IfErr};
ghost use Rattle.vf_words.specs.Words.{Grade};
ghost use Rattle.vf_words.specs.Forms.{plain_source};
ghost use Rattle.top_call.specs.Outside.{counts_of, CanEnd};
ghost use Rattle.top_call.specs.Making as making;

use crate::source::{read_file, read_source};
use outputs_exist::{Extent, ReportFault, plan_report};
use std::alloc::Global;
use std::sync::ledger::Ledger;
use std::thread::Threads;
use vf_base::{Gate, Shelf, Steps};
use vf_status::{Refusal, Status, Which};
use vf_words::Source;

/// The status of a plan's text without a report.
pub(crate) fn report_status(fault: ReportFault) -> Status
    ensures { result ≡ making.report_status fault }
{
    match fault {
        ReportFault::Plan(fault) => Status::Refused(Refusal::Plan(fault)),
        ReportFault::GoodLoop(time) => Status::GoodLoop(time),
        ReportFault::NoMemory => Status::NoMemory,
    }
}

/// The report on the faults of a plan.
pub(crate) fn grade_output<R: Threads + Sync, S: Shelf, G: Gate + Sync, L: Ledger + Send + Sync>(
    rt: &R,
    alloc: Global,
    shelf: &mut S,
    source: Source<'_>,
    plan: &str,
    workers: u32,
    gate: &G,
    steps: &mut [Steps<L>],
) -> Result<Vec<u8>, Status>
    requires workers { (1 ≤ workers) × (workers ≤ 64) }
    requires counters { workers < length steps.old }
    ensures gives { making.OutputGives (Grade (plain_source source.entry) plan.now workers) (S.held shelf.old) (counts_of ⟦<S as Shelf>⟧ shelf.old) (counts_of ⟦<S as Shelf>⟧ shelf.new) result }
    ensures ends { IfErr result (CanEnd (Grade (plain_source source.entry) plan.now workers)) }
    ensures kept { S.held shelf.new ≡ S.held shelf.old }
    ensures reads { (S.reads shelf.old ≤ S.reads shelf.new) × (S.reads shelf.new ≤ S.reads shelf.old + 2) }
    ensures faults { S.faults shelf.old ≤ S.faults shelf.new }
{
    let design = read_source(alloc, shelf, source)?;
    let text = read_file(alloc, shelf, plan, Which::Plan)?;
    match plan_report(
        rt,
        alloc,
        &design,
        text.as_slice(),
        Extent::Lines,
        workers,
        gate,
        steps,
    ) {
        Ok(report) => Ok(report),
        Err(fault) => Err(report_status(fault)),
    }
}
