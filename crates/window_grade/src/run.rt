// A faulty machine's first run, slot by slot to a time.

ghost use Rattle.std.specs.Prelude.{◌≡◌, ◌≤◌, ◌^◌, Some, IfOk, OnOk};
ghost use Rattle.fault_grade.specs.Reached.{next_of};
ghost use Rattle.fault_strobes.specs.Said.{plan_by};
ghost use Rattle.window_grade.specs.Beside.{TicksTo};
ghost use Rattle.window_grade.specs.Running.{EndsSo, StaysOn, RunsSlotAt, TicksSlotAt, CanRunSlot, CanRunTo, RunLeads};
ghost use Rattle.window_grade.specs.Standing.{MachinesStand};

use crate::beside::RunBeside;
use crate::rises::own_steps_rise;
use causal_monitor::SlotLog;
use machine::{Machine, SlotEnd};
use std::alloc::Global;
use std::sync::ledger::Ledger;
use vf_base::{End, NoMemory, Side, Steps};

/// Where a machine stands that is at the start of the faulty machine's first run, or was put into its state at a time. The function does nothing when it runs; its contract
/// is the law.
pub fn machines_stand()
    ensures { MachinesStand }
{
    beside_laws::runs_go_on();
    beside_laws::runs_stand();
    graded_steps::runs_take_steps();
}

/// How a slot of the faulty machine, at a time in steps, ends the grading, if it isn't fine.
fn end_of(time: u64, end: SlotEnd) -> Option<End>
    ensures { EndsSo time end result }
{
    match end {
        SlotEnd::Fine => None,
        SlotEnd::Race(pair) => Some(End::Race(Side::Faulty, pair)),
        SlotEnd::Hyper => Some(End::Hyper(time)),
    }
}

/// Runs the next slot of a faulty machine, which is at this time, beside the good machine's. The answer is how it ends the grading, where it isn't fine.
fn run_slot<L: Ledger>(
    alloc: Global,
    log: &mut SlotLog,
    machine: &mut Machine<'_>,
    time: u64,
    beside: &RunBeside<'_>,
    steps: &mut Steps<L>,
) -> Result<Option<End>, NoMemory>
    requires may { CanRunSlot time beside.now machine.old }
    requires next { next_of machine.old ≡ Some time }
    requires limit { time ≤ 2 ^ 63 }
    ensures run { IfOk result (λ end. RunsSlotAt time machine.old end machine.new) }
    ensures stays { IfOk result (λ _. StaysOn machine.old machine.new) }
    ensures ticks { OnOk result (TicksSlotAt time machine.old beside.now steps.old steps.new) }
{
    beside_laws::runs_go_on();
    graded_steps::runs_take_steps();
    own_steps_rise();
    machine_laws::slot_goes_on();
    own_slots::tried_steps_go_on();
    let goods = beside.slots.at(time);
    let tried = beside.tried_at(time);
    let end = machine.slot_beside(alloc, log, &goods, tried, steps)?;
    Ok(end_of(time, end))
}

/// Runs all slots of a faulty machine up to a time, in steps, or through the first that isn't fine, beside the good machine's slots. The answer is how that one ends the grading.
/// `log` is room for the log of a slot. `steps` ticks at most once for each own step of these slots, and not for those that were taken before.
///
/// # Errors
///
/// Want of memory.
pub fn run_to<L: Ledger>(
    alloc: Global,
    log: &mut SlotLog,
    machine: &mut Machine<'_>,
    until: u64,
    beside: &RunBeside<'_>,
    steps: &mut Steps<L>,
) -> Result<Option<End>, NoMemory>
    requires { CanRunTo until beside.now machine.old }
    ensures run { IfOk result (λ end. (of : CanRunTo until beside.now machine.old) → RunLeads of.design of.plan of.fault until end machine.new) }
    ensures stays { IfOk result (λ _. StaysOn machine.old machine.new) }
    ensures ticks { OnOk result ((of : CanRunTo until beside.now machine.old) → TicksTo of.design (plan_by of.kept of.plan) of.fault beside.now of.now (Some until) steps.old steps.new) }
{
    beside_laws::runs_go_on();
    graded_steps::runs_take_steps();
    own_steps_rise();
    let mut next = machine.next_time();
    'slots: while let Some(time) = next {
        if until < time {
            return Ok(None);
        }
        if let Some(end) = run_slot(alloc, log, machine, time, beside, steps)? {
            return Ok(Some(end));
        }
        next = machine.next_time();
    }
    Ok(None)
}
