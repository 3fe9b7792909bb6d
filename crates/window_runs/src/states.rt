// Where the processes stand after a window's runs.

ghost use Rattle.std.specs.Prelude.{◌≡◌, ◌<◌, ◌^◌, length, OnOk};
ghost use Rattle.std.specs.Option.{option_map};
ghost use Rattle.window_runs.specs.RunsByProcess.{IsRunIndexOf};
ghost use Rattle.window_runs.specs.Standing.{standing_after, AreStatesAfter};

use crate::index::RunIndex;
use process_code::{ProcState, RunEnd};
use std::alloc::Global;
use vf_base::{NoMemory, ProcId};

/// Where a process stands after a run, if it had one; else where it stood before.
pub fn standing_after<'s>(state: &'s ProcState, run: Option<&'s RunEnd>) -> &'s ProcState
    ensures { result.now ≡ standing_after state.now (option_map (λ run. run.now) run.entry) }
{
    match run {
        None => state,
        Some(last) => &last.state,
    }
}

/// Puts where each process stands after some runs, of which this is the index, if it stood so before them, in place of what is listed in `later`.
///
/// # Errors
///
/// Want of memory.
pub fn states_after(
    alloc: Global,
    states: &[ProcState],
    runs: &[RunEnd],
    index: &RunIndex,
    later: &mut Vec<ProcState>,
) -> Result<(), NoMemory>
    requires count { length states.now ≡ length index.now.phases }
    requires index { IsRunIndexOf (length index.now.phases) runs.now index.now }
    requires few { length states.now < 2 ^ 32 }
    ensures { OnOk result (AreStatesAfter states.now runs.now later.new.items) }
{
    later.clear();
    'processes: for (number, state) in states.iter().enumerate() {
        let last = index.last(runs, ProcId(number as u32));
        let copy = standing_after(state, last).copy(alloc)?;
        later.push(copy)?;
    }
    Ok(())
}
