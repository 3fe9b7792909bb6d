// The events of a phase, one after the other, beside the line that is still open.

ghost use Rattle.std.specs.Prelude.{◌≡◌, ◌+◌, ◌≤◌, ◌<◌, ◌^◌, IfOk};
ghost use Rattle.std.specs.Option.{option_map};
ghost use Rattle.slot_record.specs.Records.{event_of};
ghost use Rattle.cert_laws.specs.Written.{with_step, with_update};
ghost use Rattle.cert_text.specs.Views.{run_line_said};
ghost use Rattle.run_lines.specs.Open.{step_more, update_more, count_in, with_event, GoesOn, IsAfter};

use causal_monitor::Actor;
use cert_text::{RunLine, append_run_line};
use std::alloc::Global;
use vf_base::NoMemory;

/// The open line with one more step, where it is one of the process's steps.
fn more_steps(last: RunLine, process: u64) -> Option<RunLine>
    requires { count_in last < 2 ^ 63 }
    ensures { option_map run_line_said result ≡ step_more process (run_line_said last) }
{
    match last {
        RunLine::Steps(other, count) => {
            if other == process {
                Some(RunLine::Steps(process, count + 1))
            } else {
                None
            }
        }
        RunLine::Slot(_) | RunLine::Phase(_) | RunLine::Updates(_, _) => None,
    }
}

/// The open line with one more update, where it is one of the process's updates.
fn more_updates(last: RunLine, process: u64) -> Option<RunLine>
    requires { count_in last < 2 ^ 63 }
    ensures { option_map run_line_said result ≡ update_more process (run_line_said last) }
{
    match last {
        RunLine::Updates(other, count) => {
            if other == process {
                Some(RunLine::Updates(process, count + 1))
            } else {
                None
            }
        }
        RunLine::Slot(_) | RunLine::Phase(_) | RunLine::Steps(_, _) => None,
    }
}

/// The line that is open after another: the one that goes on, else the next one, before which the open one is written.
fn line_after(
    alloc: Global,
    out: &mut Vec<u8>,
    last: RunLine,
    longer: Option<RunLine>,
    next: RunLine,
) -> Result<RunLine, NoMemory>
    ensures { IfOk result (λ line. IsAfter out.old.items (run_line_said last) (option_map run_line_said longer) (run_line_said next) out.new.items (run_line_said line)) }
{
    match longer {
        Some(line) => Ok(line),
        None => {
            append_run_line(alloc, out, last)?;
            Ok(next)
        }
    }
}

/// A step of a process.
fn append_step(
    alloc: Global,
    out: &mut Vec<u8>,
    last: RunLine,
    process: u64,
) -> Result<RunLine, NoMemory>
    requires { count_in last < 2 ^ 63 }
    ensures lines { IfOk result (λ line. GoesOn out.old.items (run_line_said last) (with_step process) out.new.items (run_line_said line)) }
    ensures count { IfOk result (λ line. count_in line ≤ count_in last + 1) }
{
    let longer = more_steps(last, process);
    let line = line_after(alloc, out, last, longer, RunLine::Steps(process, 1))?;
    Ok(line)
}

/// A nonblocking update of a process.
fn append_update(
    alloc: Global,
    out: &mut Vec<u8>,
    last: RunLine,
    process: u64,
) -> Result<RunLine, NoMemory>
    requires { count_in last < 2 ^ 63 }
    ensures lines { IfOk result (λ line. GoesOn out.old.items (run_line_said last) (with_update process) out.new.items (run_line_said line)) }
    ensures count { IfOk result (λ line. count_in line ≤ count_in last + 1) }
{
    let longer = more_updates(last, process);
    let line = line_after(alloc, out, last, longer, RunLine::Updates(process, 1))?;
    Ok(line)
}

/// An event; the answer is the line that is open after it.
pub(crate) fn append_event(
    alloc: Global,
    out: &mut Vec<u8>,
    last: RunLine,
    actor: Actor,
) -> Result<RunLine, NoMemory>
    requires { count_in last < 2 ^ 63 }
    ensures lines { IfOk result (λ line. GoesOn out.old.items (run_line_said last) (with_event (event_of actor)) out.new.items (run_line_said line)) }
    ensures count { IfOk result (λ line. count_in line ≤ count_in last + 1) }
{
    match actor {
        Actor::Step(process) => {
            let line = append_step(alloc, out, last, u64::from(process.0))?;
            Ok(line)
        }
        Actor::Lane(process) => {
            let line = append_update(alloc, out, last, u64::from(process.0))?;
            Ok(line)
        }
        Actor::Eval(_) | Actor::Move(_) => Ok(last),
    }
}
