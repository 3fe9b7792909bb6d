// A slot of the good first run.

ghost use Rattle.std.specs.Prelude.{◌≡◌, ◌+◌, ◌-◌, ◌≤◌, ◌^◌, ◌||◌, false, IfOk, OnOk};
ghost use Rattle.copy_laws.specs.Windows.{window_steps};
ghost use Rattle.run_ends.specs.RunEnds.{AreCodesOf};
ghost use Rattle.machine.specs.Standing.{IsStanding};
ghost use Rattle.good_trace.specs.Slots.{is_full};
ghost use Rattle.run_trace.specs.Windows.{AreBeside};
ghost use Rattle.good_windows.specs.Next.{steps_of_slots};
ghost use Rattle.good_windows.specs.Stages.{StandsAfter, next_by};
ghost use Rattle.good_windows.specs.Puts.{PutsSlot, put_by};

use causal_monitor::SlotLog;
use machine::{Machine, SlotEnd};
use run_trace::RunTrace;
use std::alloc::Global;
use std::sync::ledger::Ledger;
use v_design::World;
use vf_base::{NoMemory, Pair, Seq, Steps};

/// What came of a slot: it was put into the trace, whose window has room for more or is closed now; it was put there and has a race; or it is hyperactive, and wasn't.
#[derive(Clone, Copy, PartialEq, Eq, Debug)]
pub enum Put {
    Room,
    Full,
    Raced(Pair),
    Looped,
}

/// A log of no phases, which takes no memory.
pub(crate) fn empty_log(alloc: Global) -> SlotLog {
    SlotLog {
        time: 0,
        phases: Seq::from_vec(Vec::new(alloc)),
        actors: Seq::from_vec(Vec::new(alloc)),
        turns: Seq::from_vec(Vec::new(alloc)),
    }
}

/// The time of the slot that a machine comes to next, if that is a slot up to a time.
pub(crate) fn next_within(machine: &Machine<'_>, end: u64) -> Option<u64>
    requires { IsStanding machine.now }
    ensures { result ≡ next_by end machine.now }
{
    match machine.next_time() {
        Some(time) if time <= end => Some(time),
        _ => None,
    }
}

/// What came of a slot, by its end, and by whether the window is closed with it.
fn put_by(end: SlotEnd, full: bool) -> Put
    ensures { result ≡ put_by end full }
{
    match end {
        SlotEnd::Hyper => Put::Looped,
        SlotEnd::Race(pair) => Put::Raced(pair),
        SlotEnd::Fine => { if full { Put::Full } else { Put::Room } }
    }
}

/// Whether a window is closed with its last slot: the first one with its first slot, any other where it is full.
fn closes(first: bool, full: bool) -> bool
    ensures { result ≡ (first || full) }
{
    first || full
}

/// Runs the next slot of the good first run, which begins at this time, and puts it into the trace where it isn't hyperactive. The memory of `log` is used for the slot's.
///
/// # Errors
///
/// Want of memory.
pub(crate) fn put_slot<'s, 'd, N: World, L: Ledger>(
    machine: &mut Machine<'d>,
    run: &mut RunTrace<'s, 'd, N>,
    log: &mut SlotLog,
    time: u64,
    steps: &mut Steps<L>,
) -> Result<Put, NoMemory>
    requires stands { StandsAfter N.design N.plan run.old.trace.pushed machine.old }
    requires codes { AreCodesOf N.design run.old.trace.codes }
    requires next { next_by N.plan.end machine.old ≡ Some time }
    requires limit { N.plan.end ≤ 2 ^ 63 }
    requires room { is_full (run.old.trace.pushed - run.old.trace.closed) (window_steps N.design N.plan run.old.trace.closed run.old.trace.pushed) ≡ false }
    requires beside { AreBeside run.old }
    ensures puts { IfOk result (λ put. PutsSlot N.design N.plan time run.old.trace put machine.new run.new.trace) }
    ensures beside { OnOk result (AreBeside run.new) }
    ensures ticks { IfOk result (λ _. steps.new + steps_of_slots N.design N.plan run.old.trace.pushed ≤ steps.old + steps_of_slots N.design N.plan (run.old.trace.pushed + 1)) }
{
    let end = machine.slot(log, steps)?;
    if let SlotEnd::Hyper = end {
        return Ok(Put::Looped);
    }
    let first = run.is_first();
    let runs = machine.take_runs();
    let full = run.push(log, runs)?;
    Ok(put_by(end, closes(first, full)))
}
