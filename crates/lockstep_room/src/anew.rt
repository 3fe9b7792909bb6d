// A runner is put into any state that is shown, object by object and process by process.

ghost use Rattle.std.specs.Prelude.{◌≡◌, ◌≤◌, length, OnOk};
ghost use Rattle.lockstep_exchange.specs.block_events.Runners.{IsWhole, machine_of, state_of};
ghost use Rattle.lockstep_exchange.specs.Putting.{ProcessesArePut, ValuesArePut};
ghost use Rattle.lockstep_room.specs.Rooms.{processes_below, values_below};
ghost use Rattle.lockstep_room.specs.Rooms.{AreCounts, MayStandAt, MayStandSo};

use crate::counts::Counts;
use crate::following::follow_process;
use lockstep_exchange::{Runner, ShownState};
use vf_base::{NoMemory, ObjectId, ProcId};

/// Each of so many objects comes to hold what is shown.
fn stand_objects<S: ShownState>(runner: &mut Runner, good: &S, count: u32)
    requires whole { IsWhole runner.old }
    requires stands { MayStandSo (machine_of runner.old).design (S.shows good.now) (state_of runner.old) }
    requires count { count ≤ length (state_of runner.old).values }
    ensures machine { machine_of runner.new ≡ machine_of runner.old }
    ensures state { (of : MayStandSo (machine_of runner.old).design (S.shows good.now) (state_of runner.old)) →
        ValuesArePut (values_below count of.good) (state_of runner.old) (state_of runner.new) }
    ensures whole { IsWhole runner.new }
{
    'objects: for number in 0..count {
        let object = ObjectId(number);
        runner.put_value(object, good.value(object));
    }
}

/// Each of so many processes comes to stand where it is shown to.
fn stand_processes<S: ShownState>(
    runner: &mut Runner,
    good: &S,
    counts: Counts,
) -> Result<(), NoMemory>
    requires whole { IsWhole runner.old }
    requires design { S.design good.now ≡ (machine_of runner.old).design }
    requires stands { MayStandSo (machine_of runner.old).design (S.shows good.now) (state_of runner.old) }
    requires counts { AreCounts (machine_of runner.old).design counts }
    ensures machine { OnOk result (machine_of runner.new ≡ machine_of runner.old) }
    ensures state { OnOk result ((of : MayStandSo (machine_of runner.old).design (S.shows good.now) (state_of runner.old)) →
        ProcessesArePut (processes_below counts.processes of.good) (state_of runner.old) (state_of runner.new)) }
    ensures whole { OnOk result (IsWhole runner.new) }
{
    'processes: for number in 0..counts.processes {
        follow_process(runner, good, counts, ProcId(number))?;
    }
    Ok(())
}

/// A runner comes into the state that is shown, which is at a time in steps, whatever its state was before.
///
/// # Errors
///
/// Want of memory. The runner isn't to be used again then.
pub fn stand<S: ShownState>(
    runner: &mut Runner,
    good: &S,
    time: u64,
    counts: Counts,
) -> Result<(), NoMemory>
    requires whole { IsWhole runner.old }
    requires design { S.design good.now ≡ (machine_of runner.old).design }
    requires counts { AreCounts (machine_of runner.old).design counts }
    requires stands { MayStandAt (machine_of runner.old).design (S.shows good.now) time }
    ensures machine { OnOk result (machine_of runner.new ≡ machine_of runner.old) }
    ensures state { OnOk result ((of : MayStandAt (machine_of runner.old).design (S.shows good.now) time) → state_of runner.new ≡ of.good) }
    ensures whole { OnOk result (IsWhole runner.new) }
{
    block_changes::differences_are_one();
    runner.clear(time);
    stand_objects(runner, good, counts.objects);
    stand_processes(runner, good, counts)?;
    Ok(())
}
