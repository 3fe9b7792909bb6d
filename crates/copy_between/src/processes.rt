// The states of processes that a copy keeps.

ghost use Rattle.std.specs.Prelude.{◌≡◌, OnOk};
ghost use Rattle.vf_base.specs.Base.{process_number};
ghost use Rattle.copy_between.specs.Differing.{IsOwnState, IsKeptAt};

use copy_state::FaultCopy;
use process_code::ProcState;
use std::alloc::Global;
use vf_base::{NoMemory, ProcId};

/// A process stands in a state of its own, which is kept where the process does otherwise in it than in the good machine's.
///
/// # Errors
///
/// Want of memory. The copy isn't to be used again then.
pub fn keep_state(
    alloc: Global,
    copy: &mut FaultCopy,
    process: ProcId,
    good: &ProcState,
    own: &ProcState,
) -> Result<(), NoMemory>
    ensures rest { OnOk result (copy.new ≡ record copy.old { states = copy.new.states }) }
    ensures kept { OnOk result (IsKeptAt (IsOwnState good.now own.now) (process_number process) copy.old.states copy.new.states) }
{
    if good.same(own) {
        copy.rejoin(process);
        return Ok(());
    }
    let kept = own.copy(alloc)?;
    copy.split(process, kept)?;
    Ok(())
}
