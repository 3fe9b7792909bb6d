// The wakes of phases, gathered from their logs.

ghost use Rattle.std.specs.Prelude.{◌≡◌, ◌+◌, ◌++◌, ◌<◌, ◌≤◌, ℕ, List, [], map, length, sum_by, IfOk, OnOk};
ghost use Rattle.std.specs.Option.{ForSome};
ghost use Rattle.vf_base.specs.Base.{process_number};
ghost use Rattle.slot_record.specs.Records.{event_of};
ghost use Rattle.v_design.specs.PhaseLogs.{is_step_of};
ghost use Rattle.v_design.specs.States.{Step as StepOf};
ghost use Rattle.causal_monitor.specs.Phases.{CausesComeBefore};
ghost use Rattle.trace_window.specs.Listed.{HasActors, IsActed};
ghost use Rattle.window_blocks.specs.Gathered.{slot_events};
ghost use Rattle.window_wakes.specs.Gathered.{wake_by, phase_wakes, all_wakes};
ghost use Rattle.window_wakes.specs.Wakes.{wake_of};

use crate::wake::Wake;
use causal_monitor::{Actor, PhaseLog, SlotLog};
use vf_base::{NoMemory, ProcId};

/// Whether somebody acts by a step of a process.
fn is_step(actor: Actor, process: ProcId) -> bool
    ensures { result ≡ is_step_of (process_number process) (event_of actor) }
{
    match actor {
        Actor::Step(other) => process.0 == other.0,
        Actor::Lane(_) => false,
        Actor::Eval(_) => false,
        Actor::Move(_) => false,
    }
}

/// Puts the wake that the cause of a step tells, if it does, behind others.
///
/// # Errors
///
/// Want of memory, or no number of the moment.
fn push_cause(
    actors: &[Actor],
    first: u32,
    process: ProcId,
    cause: Option<u64>,
    wakes: &mut Vec<Wake>,
) -> Result<(), NoMemory>
    requires { ForSome cause (λ number. number < length actors.now) }
    ensures { OnOk result (map wake_of wakes.new.items ≡ map wake_of wakes.old.items ++ wake_by first (map event_of actors.now) (StepOf (process_number process)) cause) }
{
    let Some(number) = cause else {
        return Ok(());
    };
    if is_step(actors[number as usize], process) {
        return Ok(());
    }
    let Some(moment) = u64::from(first).checked_add(number) else {
        return Err(NoMemory);
    };
    let Ok(moment) = u32::try_from(moment) else {
        return Err(NoMemory);
    };
    wakes.push(Wake { moment, process })?;
    Ok(())
}

/// Puts the wake that the cause of an event tells, if it does, behind others.
///
/// # Errors
///
/// Want of memory, or no number of the moment.
fn push_event(
    actors: &[Actor],
    first: u32,
    actor: Actor,
    cause: Option<u64>,
    wakes: &mut Vec<Wake>,
) -> Result<(), NoMemory>
    requires { ForSome cause (λ number. number < length actors.now) }
    ensures { OnOk result (map wake_of wakes.new.items ≡ map wake_of wakes.old.items ++ wake_by first (map event_of actors.now) (event_of actor) cause) }
{
    match actor {
        Actor::Step(process) => push_cause(actors, first, process, cause, wakes),
        Actor::Lane(_) => Ok(()),
        Actor::Eval(_) => Ok(()),
        Actor::Move(_) => Ok(()),
    }
}

/// Puts the wakes of a phase, whose first event has a moment, behind others.
///
/// # Errors
///
/// Want of memory, or no number of a moment.
fn push_phase(
    log: &PhaseLog,
    actors: &[Actor],
    first: u32,
    wakes: &mut Vec<Wake>,
) -> Result<(), NoMemory>
    requires { HasActors log.now actors.now }
    ensures { OnOk result (map wake_of wakes.new.items ≡ map wake_of wakes.old.items ++ phase_wakes first (map event_of actors.now) log.now.log) }
{
    let _count = log.event_count();
    'events: for number in 0..actors.len() {
        let actor = actors[number];
        let cause = log.cause_of(number as u64);
        push_event(actors, first, actor, cause, wakes)?;
    }
    Ok(())
}

/// The moment behind so many events more.
fn moment_behind(moment: u32, count: usize) -> Result<u32, NoMemory>
    ensures { IfOk result (λ behind. behind ≡ moment + count) }
{
    let Ok(count) = u32::try_from(count) else {
        return Err(NoMemory);
    };
    match moment.checked_add(count) {
        None => Err(NoMemory),
        Some(behind) => Ok(behind),
    }
}

/// Puts the wakes of the phases of a slot, whose first event has a moment, behind others. The answer is the moment behind its last event.
///
/// # Errors
///
/// Want of memory, or no further number of a moment.
pub(crate) fn push_slot(log: &SlotLog, first: u32, wakes: &mut Vec<Wake>) -> Result<u32, NoMemory>
    requires { IsActed log.now }
    ensures wakes { OnOk result (map wake_of wakes.new.items ≡ map wake_of wakes.old.items ++ all_wakes first (slot_events log.now) log.now.phases) }
    ensures moment { IfOk result (λ behind. behind ≡ first + sum_by length (slot_events log.now)) }
{
    let phases = log.phases.as_slice();
    let actors = log.actors.as_slice();
    let mut moment = first;
    'phases: for number in 0..phases.len() {
        let own = actors[number].as_slice();
        push_phase(&phases[number], own, moment, wakes)?;
        moment = moment_behind(moment, own.len())?;
    }
    Ok(moment)
}
