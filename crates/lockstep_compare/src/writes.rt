// Updates compared, process by process.

ghost use Rattle.std.specs.Prelude.{◌≡◌, ◌<◌, true, map, IfOk, OnOk};
ghost use Rattle.std.specs.List.{All};
ghost use Rattle.vf_base.specs.Base.{process_number};
ghost use Rattle.lockstep_compare.specs.Among.{AreWritesKeptAmong};

use lockstep_copy::{LockstepCopy, keep_writes};
use std::alloc::Global;
use v_design::{Due, Update};
use vf_base::{NoMemory, ProcId};

/// The processes of a machine, as far as what they have yet to write goes.
pub trait Processes {
    ghost use Rattle.std.specs.Prelude.{◌≡◌, ◌<◌, ℕ, map};
    ghost use Rattle.vf_base.specs.Base.{process_number};
    ghost use Rattle.v_design.specs.Plain.{due_of, update_of};
    ghost use Rattle.lockstep_index.specs.Writes.{OwnWrites};

    /// How many processes there are.
    ghost count: { Self → ℕ };

    /// What each has yet to write, by its number.
    ghost writes: { Self → ℕ → OwnWrites };

    /// The updates that a process has pending, in the order of their appends.
    fn later(&self, process: ProcId) -> &[Due]
        requires { process_number process < count self.now }
        ensures { map due_of result.now ≡ (writes self.now (process_number process)).later };

    /// The updates in the lane of a process.
    fn lane(&self, process: ProcId) -> &[Update]
        requires { process_number process < count self.now }
        ensures { map update_of result.now ≡ (writes self.now (process_number process)).lane };
}

/// Of each of some processes the faulty machine's updates are kept where they aren't the good one's. It answers whether all go on in lockstep: the updates that are
/// pending are due at the good ones' times, and as many are in each lane.
///
/// # Errors
///
/// Want of memory. What is kept isn't to be used again then, nor where one doesn't go on in lockstep.
pub fn keep_all_writes<G: Processes, F: Processes>(
    alloc: Global,
    own: &mut LockstepCopy,
    good: &G,
    faulty: &F,
    processes: &[ProcId],
) -> Result<bool, NoMemory>
    requires good { All (λ process. process < G.count good.now) (map process_number processes.now) }
    requires faulty { All (λ process. process < F.count faulty.now) (map process_number processes.now) }
    ensures { IfOk result (λ goes. goes ≡ true → AreWritesKeptAmong (G.writes good.now) (F.writes faulty.now) (map process_number processes.now) own.old own.new) }
{
    'processes: for place in 0..processes.len() {
        let process = processes[place];
        if !keep_writes(
            alloc,
            own,
            process,
            good.later(process),
            good.lane(process),
            faulty.later(process),
            faulty.lane(process),
        )? {
            return Ok(false);
        }
    }
    Ok(true)
}
