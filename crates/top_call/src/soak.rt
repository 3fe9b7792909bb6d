// The totals over a generated design and plan.

ghost use Rattle.std.specs.Prelude.{◌≡◌, ◌≤◌, ◌<◌, [], length, codes, Some, Ok, IfOk, IfErr};
ghost use Rattle.v_design.specs.PlainDesigns.{design_of};
ghost use Rattle.v_elab.specs.declared.Mode.TheVariants.{Usual};
ghost use Rattle.vf_status.specs.elaborate.Meanings.{IsTheMeaning};
ghost use Rattle.soak_text.specs.Soak as soaks;
ghost use Rattle.vf_words.specs.Words.{Soak};
ghost use Rattle.top_call.specs.Outside.{ShelfCounts, CanEnd};
ghost use Rattle.top_call.specs.Making as making;

use crate::grade::report_status;
use crate::source::design_status;
use outputs_exist::{Extent, plan_report};
use soak_meanings::texts_accepted;
use soak_text::{design_text, plan_text};
use std::alloc::Global;
use std::sync::ledger::Ledger;
use std::thread::Threads;
use v_design::Design;
use v_elab::Mode;
use vf_base::{Gate, Steps};
use vf_status::{Status, read_design};

/// The generated design of a number and a size; its text is never refused, so that memory alone can be wanting.
fn soak_design(alloc: Global, number: u32, size: u32) -> Result<Design, Status>
    requires { (1 ≤ size) × (size ≤ 4000) }
    ensures design { IfOk result (λ design. IsTheMeaning (soaks.design_text number size) (codes "top") Usual (Ok (design_of design))) }
    ensures memory { IfErr result (λ status. status ≡ Status.NoMemory) }
{
    texts_accepted();
    let Ok(text) = design_text(alloc, number, size) else {
        return Err(Status::NoMemory);
    };
    match read_design(alloc, text.as_slice(), b"top", Mode::Usual) {
        Ok(design) => Ok(design),
        Err(fault) => Err(design_status(fault)),
    }
}

/// The totals over the generated design and plan of a number and a size; neither text is ever refused.
pub(crate) fn soak_output<R: Threads + Sync, G: Gate + Sync, L: Ledger + Send + Sync>(
    rt: &R,
    alloc: Global,
    number: u32,
    size: u32,
    workers: u32,
    gate: &G,
    steps: &mut [Steps<L>],
) -> Result<Vec<u8>, Status>
    requires size { (1 ≤ size) × (size ≤ 4000) }
    requires workers { (1 ≤ workers) × (workers ≤ 64) }
    requires counters { workers < length steps.old }
    ensures gives { (old new : ShelfCounts) → making.OutputGives (Soak number size workers) (Some []) old new result }
    ensures ends { IfErr result (CanEnd (Soak number size workers)) }
{
    texts_accepted();
    let design = soak_design(alloc, number, size)?;
    let Ok(plan) = plan_text(alloc, size) else {
        return Err(Status::NoMemory);
    };
    match plan_report(
        rt,
        alloc,
        &design,
        plan.as_slice(),
        Extent::Totals,
        workers,
        gate,
        steps,
    ) {
        Ok(totals) => Ok(totals),
        Err(fault) => Err(report_status(fault)),
    }
}
