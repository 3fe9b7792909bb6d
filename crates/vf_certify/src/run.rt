// A machine's first run, written slot by slot.

ghost use Rattle.std.specs.Prelude.{◌≡◌, ◌<◌, ◌≤◌, ◌^◌, ℕ, Some, OnOk};
ghost use Rattle.v_design.specs.Runs.{first_run};
ghost use Rattle.v_design.specs.Views.{machine_with};
ghost use Rattle.order_laws.specs.EveryRun.{slots_by};
ghost use Rattle.cert_laws.specs.Written.{run_lines, lines_to};
ghost use Rattle.machine.specs.Standing.{IsStanding, machine_kept};
ghost use Rattle.fault_grade.specs.Benches.{IsBench, bench_plan};
ghost use Rattle.fault_grade.specs.Reached.{next_of};
ghost use Rattle.vf_certify.specs.Runs.{AddsLines, AddsSlot, IsLeft};
ghost use Rattle.vf_certify.specs.Lines.{Adds};

use causal_monitor::SlotLog;
use fault_grade::{Bench, empty_log};
use machine::Machine;
use run_lines::append_slot_lines;
use std::alloc::Global;
use std::sync::ledger::Ledger;
use v_design::Fault;
use vf_base::{NoMemory, Steps};

/// The earlier of two times.
fn earlier(one: u64, other: u64) -> u64
    ensures one { result ≤ one }
    ensures other { result ≤ other }
    ensures last { (time : ℕ) → result < time → time ≤ other → one < time }
{
    if one < other { one } else { other }
}

/// Runs the next slot of a machine, which is at this time, and adds its lines.
fn append_slot<L: Ledger>(
    alloc: Global,
    machine: &mut Machine<'_>,
    time: u64,
    log: &mut SlotLog,
    out: &mut Vec<u8>,
    steps: &mut Steps<L>,
) -> Result<(), NoMemory>
    requires standing { IsStanding machine.old }
    requires next { next_of machine.old ≡ Some time }
    requires limit { time ≤ 2 ^ 63 }
    ensures { OnOk result (AddsSlot (machine_kept machine.old) time machine.old machine.new out.old.items out.new.items) }
{
    let _end = machine.slot(log, steps)?;
    append_slot_lines(alloc, log, out)?;
    Ok(())
}

/// Runs a machine from its start and adds the lines of its slots up to a bound, as far as the first run to an end has them.
fn append_slots<L: Ledger>(
    alloc: Global,
    machine: &mut Machine<'_>,
    log: &mut SlotLog,
    end: u64,
    bound: u64,
    out: &mut Vec<u8>,
    steps: &mut Steps<L>,
) -> Result<(), NoMemory>
    requires limit { end ≤ 2 ^ 63 }
    requires left { IsLeft (machine_kept machine.old) end machine.old (first_run (machine_kept machine.old) end) }
    ensures { OnOk result (AddsLines (run_lines (slots_by bound (first_run (machine_kept machine.old) end))) out.old.items out.new.items) }
{
    let until = earlier(bound, end);
    let mut next = machine.next_time();
    'slots: while let Some(time) = next {
        if until < time {
            return Ok(());
        }
        append_slot(alloc, machine, time, log, out, steps)?;
        next = machine.next_time();
    }
    Ok(())
}

/// Adds the lines of a machine's first run to a bound. The machine is the good one, or that of a fault.
fn append_run<L: Ledger>(
    alloc: Global,
    bench: &Bench<'_>,
    fault: Option<Fault>,
    bound: u64,
    out: &mut Vec<u8>,
    steps: &mut Steps<L>,
) -> Result<(), NoMemory>
    requires { IsBench bench.now }
    ensures { OnOk result (Adds (lines_to (machine_with bench.now.design.now fault) (bench_plan bench.now).end (Some bound)) out.old.items out.new.items) }
{
    order_laws::first_run_goes_on();
    let mut machine = Machine::new(alloc, bench.design, bench.graph, fault)?;
    let mut log = empty_log(alloc);
    append_slots(
        alloc,
        &mut machine,
        &mut log,
        bench.plan.end,
        bound,
        out,
        steps,
    )?;
    Ok(())
}

/// Adds the lines of a machine's first run, if it has a bound.
pub(crate) fn append_bounded<L: Ledger>(
    alloc: Global,
    bench: &Bench<'_>,
    fault: Option<Fault>,
    bound: Option<u64>,
    out: &mut Vec<u8>,
    steps: &mut Steps<L>,
) -> Result<(), NoMemory>
    requires { IsBench bench.now }
    ensures { OnOk result (Adds (lines_to (machine_with bench.now.design.now fault) (bench_plan bench.now).end bound) out.old.items out.new.items) }
{
    match bound {
        None => Ok(()),
        Some(time) => {
            append_run(alloc, bench, fault, time, out, steps)?;
            Ok(())
        }
    }
}
