// A machine's first run, slot by slot to a time.

ghost use Rattle.std.specs.Prelude.{◌≡◌, ◌≤◌, ◌^◌, ℕ, suc, Some, IfOk};
ghost use Rattle.fault_grade.specs.Reached.{GoesOn, IsReached, RunsOn, Advanced, next_of};
ghost use Rattle.fault_grade.specs.Ticks.{IsTicked, TicksOn, Ticked};
ghost use Rattle.machine.specs.Standing.{IsStanding};

use crate::stop::{Stop, stop_at};
use causal_monitor::SlotLog;
use machine::Machine;
use std::alloc::Global;
use std::sync::ledger::Ledger;
use vf_base::{NoMemory, Seq, Steps};

/// A log of no phases, which takes no memory. It is kept for all slots of a machine's run, whose phases then use its memory again.
pub fn empty_log(alloc: Global) -> SlotLog {
    SlotLog {
        time: 0,
        phases: Seq::from_vec(Vec::new(alloc)),
        actors: Seq::from_vec(Vec::new(alloc)),
        turns: Seq::from_vec(Vec::new(alloc)),
    }
}

/// Runs the next slot of a machine, which is at this time. The answer is the slot as a stop, where it isn't fine.
fn run_slot<L: Ledger>(
    machine: &mut Machine<'_>,
    time: u64,
    log: &mut SlotLog,
    steps: &mut Steps<L>,
) -> Result<Option<Stop>, NoMemory>
    requires standing { IsStanding machine.old }
    requires next { next_of machine.old ≡ Some time }
    requires limit { time ≤ 2 ^ 63 }
    ensures runs { IfOk result (λ stop. RunsOn time machine.old stop machine.new) }
    ensures ticks { IfOk result (λ stop. (start until now : ℕ) → GoesOn now machine.old → time ≤ until → IsTicked start (suc until) machine.old steps.old →
        TicksOn start until machine.old stop machine.new steps.new) }
{
    order_laws::first_run_goes_on();
    let end = machine.slot(log, steps)?;
    Ok(stop_at(time, end))
}

/// Runs all slots of a machine up to a time, in steps, or through the first that isn't fine. The answer is that slot. `log` is room for the log of a slot.
///
/// # Errors
///
/// Want of memory.
pub fn advance<L: Ledger>(
    log: &mut SlotLog,
    machine: &mut Machine<'_>,
    until: u64,
    steps: &mut Steps<L>,
) -> Result<Option<Stop>, NoMemory>
    requires reached { IsReached until machine.old }
    requires limit { until ≤ 2 ^ 63 }
    ensures advanced { IfOk result (λ stop. Advanced until machine.old stop machine.new) }
    ensures ticks { IfOk result (λ stop. (start : ℕ) → IsTicked start (suc until) machine.old steps.old → Ticked start until machine.old stop machine.new steps.new) }
{
    let mut next = machine.next_time();
    'slots: while let Some(time) = next {
        if until < time {
            return Ok(None);
        }
        if let Some(stop) = run_slot(machine, time, log, steps)? {
            return Ok(Some(stop));
        }
        next = machine.next_time();
    }
    Ok(None)
}
