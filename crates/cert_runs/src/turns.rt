// A line of a run that has begun.

ghost use Rattle.std.specs.Prelude.{◌≤◌, ◌^◌, IfOk};
ghost use Rattle.cert_laws.specs.Replays.{PhaseNumber, SlotAt, is_through};
ghost use Rattle.cert_text.specs.Views.{run_line_said};
ghost use Rattle.cert_replay.specs.Kept.{EndsPhase, Follows, IsReplaying, claims_race, bound_kept, time_kept};
ghost use Rattle.cert_runs.specs.Runs.{Tells, said_by};
ghost use Rattle.cert_runs.specs.Searches.{LooksAlong, LooksIfEnded};

use crate::search::Search;
use cert_replay::{Replaying, Stepper};
use cert_text::RunLine;
use std::sync::ledger::Ledger;
use vf_base::{NoMemory, Steps};

/// The present phase ends, where it may, and is looked into for a claimed race. The answer is whether it ends.
fn end_phase(replaying: &mut Replaying<'_>, search: &mut Search<'_>) -> Result<bool, NoMemory>
    requires { IsReplaying replaying.old }
    ensures ends { IfOk result (λ ended. EndsPhase ended replaying.old replaying.new) }
    ensures looks { IfOk result (λ ended. LooksIfEnded ended replaying.old search.old search.new) }
{
    if !replaying.end_phase()? {
        return Ok(false);
    }
    search.look(replaying)?;
    Ok(true)
}

/// The present phase ends and the slot of a time begins, where both may.
fn to_slot(
    replaying: &mut Replaying<'_>,
    search: &mut Search<'_>,
    time: u64,
) -> Result<bool, NoMemory>
    requires { IsReplaying replaying.old }
    ensures goes { IfOk result (λ went. Follows (said_by (claims_race replaying.old) (bound_kept replaying.old) (SlotAt time)) went replaying.old replaying.new) }
    ensures looks { IfOk result (λ went. LooksAlong (SlotAt time) went replaying.old search.old search.new) }
{
    if !end_phase(replaying, search)? {
        return Ok(false);
    }
    let went = replaying.turn_to_slot(time)?;
    Ok(went)
}

/// The present phase ends and the phase of a number of the slot begins, where both may.
fn to_phase(
    replaying: &mut Replaying<'_>,
    search: &mut Search<'_>,
    number: u64,
) -> Result<bool, NoMemory>
    requires { IsReplaying replaying.old }
    ensures goes { IfOk result (λ went. Follows (said_by (claims_race replaying.old) (bound_kept replaying.old) (PhaseNumber number)) went replaying.old replaying.new) }
    ensures looks { IfOk result (λ went. LooksAlong (PhaseNumber number) went replaying.old search.old search.new) }
{
    if !end_phase(replaying, search)? {
        return Ok(false);
    }
    let went = replaying.turn_to_phase(number)?;
    Ok(went)
}

/// A line of a run that has begun. The answer is whether it is followed; a phase that it ends is looked into for a claimed race.
pub(crate) fn go_on<L: Ledger>(
    replaying: &mut Replaying<'_>,
    search: &mut Search<'_>,
    line: RunLine,
    steps: &mut Steps<L>,
) -> Result<bool, NoMemory>
    requires replaying { IsReplaying replaying.old }
    requires low { time_kept replaying.old ≤ 2 ^ 63 }
    ensures goes { IfOk result (λ went. Follows (said_by (claims_race replaying.old) (bound_kept replaying.old) (run_line_said line)) went replaying.old replaying.new) }
    ensures looks { IfOk result (λ went. LooksAlong (run_line_said line) went replaying.old search.old search.new) }
{
    match line {
        RunLine::Slot(time) => {
            let went = to_slot(replaying, search, time)?;
            Ok(went)
        }
        RunLine::Phase(number) => {
            let went = to_phase(replaying, search, number)?;
            Ok(went)
        }
        RunLine::Steps(process, count) => {
            let went = replaying.step(Stepper::Process, process, count, steps)?;
            Ok(went)
        }
        RunLine::Updates(process, count) => {
            let went = replaying.step(Stepper::Lane, process, count, steps)?;
            Ok(went)
        }
    }
}

/// Whether a run that has begun is through to its bound: its last phase may end, and no further turn up to the bound is possible. The last phase is looked into
/// for a claimed race.
pub(crate) fn ends_through(
    replaying: &mut Replaying<'_>,
    search: &mut Search<'_>,
) -> Result<bool, NoMemory>
    requires { IsReplaying replaying.old }
    ensures tells { IfOk result (λ through. Tells through replaying.old) }
    ensures looks { IfOk result (λ through. LooksIfEnded through replaying.old search.old search.new) }
{
    if !end_phase(replaying, search)? {
        return Ok(false);
    }
    Ok(replaying.is_through())
}
