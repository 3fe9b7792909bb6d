// What a turn makes of the processes.

ghost use Rattle.std.specs.Prelude.{◌≡◌, ◌++◌, ℕ, [], ◌∷◌, get_or, length, map, OnOk};
ghost use Rattle.std.specs.List.{list_any};
ghost use Rattle.v_design.specs.Plain.{due_of, update_of};
ghost use Rattle.process_code.specs.declared.state.ProcState.{ProcState as StateKept};
ghost use Rattle.moment_parts.specs.Lanes.{lane_left, lanes_left, later_lists};
ghost use Rattle.moment_parts.specs.Turned.{at_postponed, at_end_of_sleep, AreWokenWhere, left_pending, activated};

use crate::kept::Standing;
use crate::lane::Lane;
use process_code::{ProcState, Stage};
use v_design::{Due, Update};
use vf_base::NoMemory;

/// Whether a process stands postponed.
fn is_postponed(state: &ProcState) -> bool
    ensures { result ≡ at_postponed state.now.stage }
{
    match state.stage {
        Stage::Postponed => true,
        Stage::Ready => false,
        Stage::Waiting(_) => false,
        Stage::Asleep(_) => false,
        Stage::Done => false,
    }
}

/// Whether a process stands postponed.
pub fn some_postponed(states: &[ProcState]) -> bool
    ensures { result ≡ list_any (λ (state : StateKept). at_postponed state.stage) states.now }
{
    'states: for state in states {
        if is_postponed(state) {
            return true;
        }
    }
    false
}

/// Makes the postponed processes ready.
pub fn resume(states: &mut Vec<ProcState>)
    ensures { AreWokenWhere at_postponed states.old.items states.new.items }
{
    'states: for place in 0..states.len() {
        if is_postponed(&states[place]) {
            states[place].wake();
        }
    }
}

/// Activates those of the pending updates of a process that are due by a time: they go into its lane, in place of what is there.
///
/// # Errors
///
/// Want of memory.
fn activate(now: u64, later: &mut Vec<Due>, lane: &mut Lane) -> Result<(), NoMemory>
    ensures later { OnOk result (map due_of later.new.items ≡ left_pending now (map due_of later.old.items)) }
    ensures lane { OnOk result (lane_left lane.new ≡ activated now (map due_of later.old.items)) }
{
    lane.clear();
    push_due(now, later, &mut lane.updates)?;
    later.retain(|due| due.time > now);
    Ok(())
}

/// Puts those of some pending updates that are due by a time behind others.
///
/// # Errors
///
/// Want of memory.
fn push_due(now: u64, later: &[Due], updates: &mut Vec<Update>) -> Result<(), NoMemory>
    ensures { OnOk result (map update_of updates.new.items ≡ map update_of updates.old.items ++ activated now (map due_of later.now)) }
{
    'updates: for due in later {
        if due.time <= now {
            updates.push(due.update)?;
        }
    }
    Ok(())
}

/// Activates the updates of all processes that are due by a time.
///
/// # Errors
///
/// Want of memory.
pub fn activate_all(now: u64, standing: &mut Standing) -> Result<(), NoMemory>
    requires { length standing.old.later.items ≡ length standing.old.lanes.items }
    ensures later_count { OnOk result (length standing.new.later.items ≡ length standing.old.later.items) }
    ensures lane_count { OnOk result (length standing.new.lanes.items ≡ length standing.old.lanes.items) }
    ensures later { OnOk result ((process : ℕ) → get_or (later_lists standing.new.later.items) process [] ≡ left_pending now (get_or (later_lists standing.old.later.items) process [])) }
    ensures lanes { OnOk result ((process : ℕ) → get_or (lanes_left standing.new.lanes.items) process [] ≡ activated now (get_or (later_lists standing.old.later.items) process [])) }
    ensures states { OnOk result (standing.new.states ≡ standing.old.states) }
    ensures ran { OnOk result (standing.new.ran ≡ standing.old.ran) }
{
    'processes: for place in 0..standing.later.len() {
        activate(now, &mut standing.later[place], &mut standing.lanes[place])?;
    }
    Ok(())
}

/// No run of a process has ended in the phase that begins.
pub fn begin_count(ran: &mut Vec<u32>)
    ensures count { length ran.new.items ≡ length ran.old.items }
    ensures none { (process : ℕ) → get_or ran.new.items process 0 ≡ 0 }
{
    'processes: for count in ran.iter_mut() {
        *count = 0;
    }
}

/// Whether a process sleeps until a time that has come.
fn has_slept(state: &ProcState, now: u64) -> bool
    ensures { result ≡ at_end_of_sleep now state.now.stage }
{
    match state.stage {
        Stage::Asleep(time) => time <= now,
        Stage::Ready => false,
        Stage::Waiting(_) => false,
        Stage::Postponed => false,
        Stage::Done => false,
    }
}

/// Makes the processes ready that sleep until a time that has come.
pub fn awake(states: &mut Vec<ProcState>, now: u64)
    ensures { AreWokenWhere (at_end_of_sleep now) states.old.items states.new.items }
{
    'states: for place in 0..states.len() {
        if has_slept(&states[place], now) {
            states[place].wake();
        }
    }
}
