// What is kept within a slot.

ghost use Rattle.std.specs.Prelude.{◌≡◌, []};

use copy_state::{ByProcess, FaultCopy};
use std::alloc::Global;
use v_design::Update;
use vf_base::Seq;

/// What a faulty machine in lockstep has otherwise than the good one within a slot: a copy that keeps values, and the pending updates of the processes that have own ones;
/// and the updates in the lanes of such processes, where there are some. A copy's states are of no concern here.
#[derive(Drop)]
pub struct LockstepCopy {
    pub copy: FaultCopy,
    pub lanes: ByProcess<Seq<Update>>,
}

/// A slot begins with what a copy keeps before it: all lanes are empty.
pub fn begin_slot(alloc: Global, copy: FaultCopy) -> LockstepCopy
    ensures copy { result.copy ≡ copy }
    ensures lanes { result.lanes ≡ [] }
{
    LockstepCopy {
        copy,
        lanes: ByProcess::new(alloc),
    }
}
