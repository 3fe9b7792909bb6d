// The processes that are in the midst of a run: a run is nested in the one that was the innermost before it.

ghost use Rattle.std.specs.Prelude.{◌≡◌, not, IfOk, OnOk};
ghost use Rattle.vf_base.specs.Base.{process_number};
ghost use Rattle.block_told.specs.Running.{is_innermost, innermost_after, begun_after, running_of, runs_after};

use vf_base::{NoMemory, ProcId};

/// Whether the innermost run is that of a process.
fn is_innermost(running: &[ProcId], process: ProcId) -> bool
    ensures { result ≡ is_innermost (running_of running.now) (process_number process) }
{
    match running.last() {
        Some(last) => last.0 == process.0,
        None => false,
    }
}

/// The innermost run goes on or ends.
fn go_on(running: &mut Vec<ProcId>, ready: bool)
    ensures { running_of running.new.items ≡ innermost_after ready (running_of running.old.items) }
{
    if !ready {
        let _ = running.pop();
    }
}

/// A step begins a run, which goes on or is at its end.
fn begin(running: &mut Vec<ProcId>, process: ProcId, ready: bool) -> Result<(), NoMemory>
    ensures { OnOk result (running_of running.new.items ≡ begun_after (process_number process) ready (running_of running.old.items)) }
{
    if ready {
        running.push(process)?;
    }
    Ok(())
}

/// A process took a step, after which it is ready or not: it is the first step of a run, or one of the innermost run. It answers whether it is a first step.
pub fn note_step(running: &mut Vec<ProcId>, process: ProcId, ready: bool) -> Result<bool, NoMemory>
    ensures begins { IfOk result (λ begins. begins ≡ not (is_innermost (running_of running.old.items) (process_number process))) }
    ensures running { OnOk result (running_of running.new.items ≡ runs_after (process_number process) ready (running_of running.old.items)) }
{
    if is_innermost(running, process) {
        go_on(running, ready);
        return Ok(false);
    }
    begin(running, process, ready)?;
    Ok(true)
}
