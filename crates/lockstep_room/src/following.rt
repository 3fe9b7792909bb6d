// A runner follows the good machine over events that it doesn't take itself.

ghost use Rattle.std.specs.Prelude.{◌≡◌, ◌∷◌, [], map, OnOk};
ghost use Rattle.vf_base.specs.Base.{object_number, process_number};
ghost use Rattle.lockstep_exchange.specs.block_events.Runners.{IsWhole, machine_of, state_of};
ghost use Rattle.lockstep_exchange.specs.Putting.{ProcessesArePut, ValuesArePut};
ghost use Rattle.lockstep_room.specs.Rooms.{AreCounts, IsBrought, MayFollow, MayStandSo, processes_among, values_among};
ghost use Rattle.lockstep_exchange.specs.Putting.{lane_numbers};

use crate::counts::Counts;
use lockstep_exchange::{Runner, ShownState};
use vf_base::{NoMemory, ObjectId, ProcId};

/// An object, if it is there, comes to hold what is shown.
fn follow_object<S: ShownState>(runner: &mut Runner, good: &S, counts: Counts, object: ObjectId)
    requires whole { IsWhole runner.old }
    requires counts { AreCounts (machine_of runner.old).design counts }
    requires stands { MayStandSo (machine_of runner.old).design (S.shows good.now) (state_of runner.old) }
    ensures machine { machine_of runner.new ≡ machine_of runner.old }
    ensures state { (of : MayStandSo (machine_of runner.old).design (S.shows good.now) (state_of runner.old)) →
        ValuesArePut (values_among (object_number object ∷ []) of.good) (state_of runner.old) (state_of runner.new) }
    ensures whole { IsWhole runner.new }
{
    if object.0 < counts.objects {
        runner.put_value(object, good.value(object));
    }
}

/// Each of some objects comes to hold what is shown.
fn follow_objects<S: ShownState>(
    runner: &mut Runner,
    good: &S,
    counts: Counts,
    objects: &[ObjectId],
)
    requires whole { IsWhole runner.old }
    requires counts { AreCounts (machine_of runner.old).design counts }
    requires stands { MayStandSo (machine_of runner.old).design (S.shows good.now) (state_of runner.old) }
    ensures machine { machine_of runner.new ≡ machine_of runner.old }
    ensures state { (of : MayStandSo (machine_of runner.old).design (S.shows good.now) (state_of runner.old)) →
        ValuesArePut (values_among (map object_number objects.now) of.good) (state_of runner.old) (state_of runner.new) }
    ensures whole { IsWhole runner.new }
{
    'objects: for place in 0..objects.len() {
        follow_object(runner, good, counts, objects[place]);
    }
}

/// A process, if it is there, comes to stand where it is shown to.
pub(crate) fn follow_process<S: ShownState>(
    runner: &mut Runner,
    good: &S,
    counts: Counts,
    process: ProcId,
) -> Result<(), NoMemory>
    requires whole { IsWhole runner.old }
    requires design { S.design good.now ≡ (machine_of runner.old).design }
    requires counts { AreCounts (machine_of runner.old).design counts }
    requires stands { MayStandSo (machine_of runner.old).design (S.shows good.now) (state_of runner.old) }
    ensures machine { OnOk result (machine_of runner.new ≡ machine_of runner.old) }
    ensures state { OnOk result ((of : MayStandSo (machine_of runner.old).design (S.shows good.now) (state_of runner.old)) →
        ProcessesArePut (processes_among (process_number process ∷ []) of.good) (state_of runner.old) (state_of runner.new)) }
    ensures whole { OnOk result (IsWhole runner.new) }
{
    if process.0 >= counts.processes {
        return Ok(());
    }
    runner.put_process(
        process,
        good.state_of(process),
        good.later(process),
        good.lane(process),
    )?;
    Ok(())
}

/// Each of some processes comes to stand where it is shown to.
fn follow_processes<S: ShownState>(
    runner: &mut Runner,
    good: &S,
    counts: Counts,
    processes: &[ProcId],
) -> Result<(), NoMemory>
    requires whole { IsWhole runner.old }
    requires design { S.design good.now ≡ (machine_of runner.old).design }
    requires counts { AreCounts (machine_of runner.old).design counts }
    requires stands { MayStandSo (machine_of runner.old).design (S.shows good.now) (state_of runner.old) }
    ensures machine { OnOk result (machine_of runner.new ≡ machine_of runner.old) }
    ensures state { OnOk result ((of : MayStandSo (machine_of runner.old).design (S.shows good.now) (state_of runner.old)) →
        ProcessesArePut (processes_among (map process_number processes.now) of.good) (state_of runner.old) (state_of runner.new)) }
    ensures whole { OnOk result (IsWhole runner.new) }
{
    'processes: for place in 0..processes.len() {
        follow_process(runner, good, counts, processes[place])?;
    }
    Ok(())
}

/// The same of one process, if there is one.
fn follow_lane<S: ShownState>(
    runner: &mut Runner,
    good: &S,
    counts: Counts,
    lane: Option<ProcId>,
) -> Result<(), NoMemory>
    requires whole { IsWhole runner.old }
    requires design { S.design good.now ≡ (machine_of runner.old).design }
    requires counts { AreCounts (machine_of runner.old).design counts }
    requires stands { MayStandSo (machine_of runner.old).design (S.shows good.now) (state_of runner.old) }
    ensures machine { OnOk result (machine_of runner.new ≡ machine_of runner.old) }
    ensures state { OnOk result ((of : MayStandSo (machine_of runner.old).design (S.shows good.now) (state_of runner.old)) →
        ProcessesArePut (processes_among (lane_numbers lane) of.good) (state_of runner.old) (state_of runner.new)) }
    ensures whole { OnOk result (IsWhole runner.new) }
{
    let Some(process) = lane else {
        return Ok(());
    };
    follow_process(runner, good, counts, process)?;
    Ok(())
}

/// Some objects of a runner come to hold what is shown, and some processes, and the one whose lane took a step, if one did, to stand where they are shown to. Those that
/// aren't there are passed over.
///
/// # Errors
///
/// Want of memory. The runner isn't to be used again then.
pub fn bring<S: ShownState>(
    runner: &mut Runner,
    good: &S,
    counts: Counts,
    objects: &[ObjectId],
    processes: &[ProcId],
    lane: Option<ProcId>,
) -> Result<(), NoMemory>
    requires whole { IsWhole runner.old }
    requires design { S.design good.now ≡ (machine_of runner.old).design }
    requires counts { AreCounts (machine_of runner.old).design counts }
    requires stands { MayStandSo (machine_of runner.old).design (S.shows good.now) (state_of runner.old) }
    ensures machine { OnOk result (machine_of runner.new ≡ machine_of runner.old) }
    ensures state { OnOk result ((of : MayStandSo (machine_of runner.old).design (S.shows good.now) (state_of runner.old)) →
        IsBrought (map object_number objects.now) (map process_number processes.now) lane of.good (state_of runner.old) (state_of runner.new)) }
    ensures whole { OnOk result (IsWhole runner.new) }
{
    follow_objects(runner, good, counts, objects);
    follow_processes(runner, good, counts, processes)?;
    follow_lane(runner, good, counts, lane)?;
    Ok(())
}

/// A runner comes into the state that is shown, which has changed from the runner's in some objects, in some processes, and in the one whose lane took a step, if one did, alone.
///
/// # Errors
///
/// Want of memory. The runner isn't to be used again then.
pub fn follow<S: ShownState>(
    runner: &mut Runner,
    good: &S,
    counts: Counts,
    objects: &[ObjectId],
    processes: &[ProcId],
    lane: Option<ProcId>,
) -> Result<(), NoMemory>
    requires whole { IsWhole runner.old }
    requires design { S.design good.now ≡ (machine_of runner.old).design }
    requires counts { AreCounts (machine_of runner.old).design counts }
    requires follows { MayFollow (machine_of runner.old).design (S.shows good.now) (map object_number objects.now) (map process_number processes.now) lane (state_of runner.old) }
    ensures machine { OnOk result (machine_of runner.new ≡ machine_of runner.old) }
    ensures state { OnOk result ((of : MayFollow (machine_of runner.old).design (S.shows good.now) (map object_number objects.now) (map process_number processes.now) lane
        (state_of runner.old)) → state_of runner.new ≡ of.stands.good) }
    ensures whole { OnOk result (IsWhole runner.new) }
{
    block_changes::differences_are_one();
    bring(runner, good, counts, objects, processes, lane)?;
    Ok(())
}
