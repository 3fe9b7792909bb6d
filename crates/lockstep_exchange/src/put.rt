// What is kept of the faulty machine is put into the good machine's state.

ghost use Rattle.std.specs.Prelude.{◌≡◌, map, [], Some, OnOk};
ghost use Rattle.vf_base.specs.Base.{process_number};
ghost use Rattle.vf_base.specs.Lists.{change_at, has};
ghost use Rattle.v_design.specs.Plain.{fault_of, update_of};
ghost use Rattle.v_design.specs.States.{found_or};
ghost use Rattle.copy_laws.specs.Differences.{own_of, Ascend};
ghost use Rattle.copy_state.specs.Listed.{entry_of};
ghost use Rattle.lockstep_index.specs.Writes.{with_writes};
ghost use Rattle.lockstep_copy.specs.lockstep_slots.Kept.{kept_within};
ghost use Rattle.lockstep_copy.specs.Kept.{kept_by};
ghost use Rattle.block_events.specs.Runners.{IsWhole, machine_of, state_of};
ghost use Rattle.lockstep_exchange.specs.Putting.{KeptFits, ValuesArePut, ValuesFit, WritesArePut, found_among, lane_numbers};
ghost use Rattle.lockstep_exchange.specs.Exchange.{ArePutFor, MayPutIn, acts_among};

use block_events::Runner;
use copy_state::Entry;
use four_value::Vec4;
use lockstep_copy::LockstepCopy;
use v_design::{Fault, Update};
use vf_base::{NoMemory, ObjectId, ProcId};

/// Each object of which a value is listed comes to hold it.
fn put_listed(runner: &mut Runner, listed: &[Entry<Vec4>])
    requires whole { IsWhole runner.old }
    requires fits { ValuesFit (machine_of runner.old).design (state_of runner.old) (map entry_of listed.now) }
    requires ascend { Ascend (map entry_of listed.now) }
    ensures machine { machine_of runner.new ≡ machine_of runner.old }
    ensures state { ValuesArePut (own_of (map entry_of listed.now)) (state_of runner.old) (state_of runner.new) }
    ensures whole { IsWhole runner.new }
{
    'objects: for own in listed {
        runner.put_value(ObjectId(own.number), own.kept);
    }
}

/// Each object of which a value is kept comes to hold it, as one after the other is found.
fn put_found(runner: &mut Runner, own: &LockstepCopy)
    requires whole { IsWhole runner.old }
    requires fits { KeptFits (machine_of runner.old).design (state_of runner.old) own.now }
    ensures machine { machine_of runner.new ≡ machine_of runner.old }
    ensures state { ValuesArePut (kept_within (kept_by own.now) (state_of runner.old)).values (state_of runner.old) (state_of runner.new) }
    ensures whole { IsWhole runner.new }
{
    own.copy.ascending();
    let mut next = own.copy.next_held(ObjectId(0), 0);
    'objects: while let Some(held) = next {
        runner.put_value(held.object, held.value);
        next = own.copy.next_held(ObjectId(held.object.0 + 1), held.hint);
    }
}

/// Each object of which a value is kept comes to hold it.
fn put_values(runner: &mut Runner, own: &LockstepCopy)
    requires whole { IsWhole runner.old }
    requires fits { KeptFits (machine_of runner.old).design (state_of runner.old) own.now }
    ensures machine { machine_of runner.new ≡ machine_of runner.old }
    ensures state { ValuesArePut (kept_within (kept_by own.now) (state_of runner.old)).values (state_of runner.old) (state_of runner.new) }
    ensures whole { IsWhole runner.new }
{
    own.copy.ascending();
    match own.copy.listed() {
        Some(listed) => put_listed(runner, listed),
        None => put_found(runner, own),
    }
}

/// The updates that are kept in the lane of a process: none where there is no lane.
fn lane_of(own: &LockstepCopy, process: ProcId) -> &[Update]
    ensures { map update_of result.now ≡ map update_of (found_or [] (own_of own.now.lanes (process_number process))) }
{
    match own.lanes.get(process) {
        Some(lane) => lane.as_slice(),
        None => &[],
    }
}

/// A process comes to have the updates that are kept of it, if some are.
fn put_writes(runner: &mut Runner, own: &LockstepCopy, process: ProcId) -> Result<(), NoMemory>
    requires whole { IsWhole runner.old }
    requires fits { KeptFits (machine_of runner.old).design (state_of runner.old) own.now }
    ensures machine { OnOk result (machine_of runner.new ≡ machine_of runner.old) }
    ensures state { OnOk result (state_of runner.new ≡ record (state_of runner.old) {
      processes = change_at (state_of runner.old).processes (process_number process) (with_writes ((kept_by own.now).writes (process_number process)));
    }) }
    ensures whole { OnOk result (IsWhole runner.new) }
{
    let Some(later) = own.copy.updates(process) else {
        return Ok(());
    };
    runner.put_updates(process, later, lane_of(own, process))?;
    Ok(())
}

/// The same of each of some processes.
fn put_some_writes(
    runner: &mut Runner,
    own: &LockstepCopy,
    processes: &[ProcId],
) -> Result<(), NoMemory>
    requires whole { IsWhole runner.old }
    requires fits { KeptFits (machine_of runner.old).design (state_of runner.old) own.now }
    ensures machine { OnOk result (machine_of runner.new ≡ machine_of runner.old) }
    ensures state { OnOk result (WritesArePut (found_among (has (map process_number processes.now)) (kept_by own.now).writes) (state_of runner.old) (state_of runner.new)) }
    ensures whole { OnOk result (IsWhole runner.new) }
{
    'processes: for place in 0..processes.len() {
        put_writes(runner, own, processes[place])?;
    }
    Ok(())
}

/// The same of one process, if there is one.
fn put_lane_writes(
    runner: &mut Runner,
    own: &LockstepCopy,
    lane: Option<ProcId>,
) -> Result<(), NoMemory>
    requires whole { IsWhole runner.old }
    requires fits { KeptFits (machine_of runner.old).design (state_of runner.old) own.now }
    ensures machine { OnOk result (machine_of runner.new ≡ machine_of runner.old) }
    ensures state { OnOk result (WritesArePut (found_among (has (lane_numbers lane)) (kept_by own.now).writes) (state_of runner.old) (state_of runner.new)) }
    ensures whole { OnOk result (IsWhole runner.new) }
{
    let Some(process) = lane else {
        return Ok(());
    };
    put_writes(runner, own, process)?;
    Ok(())
}

/// A runner in the good machine's state becomes the faulty machine of a fault: it comes to hold the values that are kept, and some processes, and the one whose lane takes a step, if one
/// does, come to have the updates that are kept of them. What other processes have yet to write stays the good machine's: no event sees it.
///
/// # Errors
///
/// Want of memory. The runner isn't to be used again then.
pub fn put_in(
    runner: &mut Runner,
    own: &LockstepCopy,
    fault: Fault,
    acted: &[ProcId],
    lane: Option<ProcId>,
) -> Result<(), NoMemory>
    requires whole { IsWhole runner.old }
    requires put { MayPutIn (machine_of runner.old).design own.now (state_of runner.old) }
    ensures machine { OnOk result (machine_of runner.new ≡ record (machine_of runner.old) { fault = Some (fault_of fault) }) }
    ensures state { OnOk result ((of : MayPutIn (machine_of runner.old).design own.now (state_of runner.old)) →
        ArePutFor (acts_among (map process_number acted.now) lane) (state_of runner.old) of.faulty (state_of runner.new)) }
    ensures whole { OnOk result (IsWhole runner.new) }
{
    block_changes::differences_are_one();
    runner.processes_may_stand();
    put_values(runner, own);
    put_some_writes(runner, own, acted)?;
    put_lane_writes(runner, own, lane)?;
    runner.set_fault(Some(fault));
    Ok(())
}
