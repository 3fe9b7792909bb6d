// Which events order which: whether one is reached from the other by causes.

ghost use Rattle.std.specs.Prelude.{◌≡◌, ◌<◌, ◌≤◌, true, length, vec_len, OnOk};
ghost use Rattle.v_design.specs.Logs.{orders};
ghost use Rattle.causal_monitor.specs.Phases.{CausesComeBefore};
ghost use Rattle.causal_monitor.specs.Orders.{AreJumps, HasJumps};

use crate::log::PhaseLog;
use vf_base::NoMemory;

/// How many causes lie before an event; only the length of jumps rests on it.
fn depth_of(log: &PhaseLog, event: u64, depths: &Vec<u64>) -> u64
    requires noted { event < length log.now.log.events }
    requires within { event ≤ vec_len depths.now }
    requires earlier { CausesComeBefore log.now.log }
{
    match log.cause_of(event) {
        None => 0,
        Some(cause) => depths[cause as usize].saturating_add(1),
    }
}

/// The event to which a jump from an event leads: itself where it has no cause, else its cause, or where two jumps from there are of one length, the end
/// of the second, so that a few jumps lead far.
fn jump_of(log: &PhaseLog, event: u64, depths: &Vec<u64>, jumps: &Vec<u64>) -> u64
    requires noted { event < length log.now.log.events }
    requires within { event ≤ vec_len jumps.now }
    requires as_many { vec_len depths.now ≡ vec_len jumps.now }
    requires earlier { CausesComeBefore log.now.log }
    requires jumps { AreJumps log.now.log jumps.now.items }
    ensures { orders log.now.log result event ≡ true }
{
    let Some(cause) = log.cause_of(event) else {
        return event;
    };
    let near = jumps[cause as usize];
    let far = jumps[near as usize];
    let first = depths[cause as usize].saturating_sub(depths[near as usize]);
    let second = depths[near as usize].saturating_sub(depths[far as usize]);
    if first == second { far } else { cause }
}

/// For each event one that orders it, from which the next is quickly reached. `depths` is room for how many causes lie before each event.
pub(crate) fn fill_jumps(
    log: &PhaseLog,
    depths: &mut Vec<u64>,
    jumps: &mut Vec<u64>,
) -> Result<(), NoMemory>
    ensures { OnOk result (HasJumps log.now.log jumps.new.items) }
{
    depths.clear();
    jumps.clear();
    'events: for event in 0..log.event_count() {
        let depth = depth_of(log, event, depths);
        let jump = jump_of(log, event, depths, jumps);
        depths.push(depth)?;
        jumps.push(jump)?;
    }
    Ok(())
}

/// Whether an event orders another: it is that one, or is reached from it by causes. Jumps that end before it are not taken.
pub(crate) fn orders(log: &PhaseLog, jumps: &Vec<u64>, first: u64, second: u64) -> bool
    requires noted { second < length log.now.log.events }
    requires count { vec_len jumps.now ≡ length log.now.log.events }
    requires earlier { CausesComeBefore log.now.log }
    requires jumps { AreJumps log.now.log jumps.now.items }
    ensures { result ≡ orders log.now.log first second }
{
    let mut at = second;
    'back: while first < at {
        let jump = jumps[at as usize];
        if first <= jump && jump < at {
            at = jump;
        } else if let Some(cause) = log.cause_of(at) {
            at = cause;
        } else {
            return false;
        }
    }
    at == first
}
