// Changes of what is held by process.

ghost use Rattle.std.specs.Prelude.{◌≡◌, ◌<◌, length, map, List, [], OnOk};
ghost use Rattle.vf_base.specs.Lists.{AllHold, change_at};
ghost use Rattle.vf_base.specs.Base.{process_number};
ghost use Rattle.vf_base.specs.declared.ids.ProcId.{ProcId};
ghost use Rattle.v_design.specs.declared.plan.Update.{Update};
ghost use Rattle.v_design.specs.Plain.{due_of};
ghost use Rattle.event_queue.specs.Queues.{HeldProcess, held_at, nothing_held, repeated, with_holding, with_later, with_updates};
ghost use Rattle.event_queue.specs.declared.held.Holding.TheVariants as Holding;
ghost use Rattle.event_queue.specs.Arranged.{HasRoom, held_by_process, without_at, lane_number, changed_each};

use crate::held::{Held, Holding};
use v_design::{Due, Update};
use vf_base::{NoMemory, ProcId, Seq};

/// Holds one process so.
pub fn hold(processes: &mut [Held], process: ProcId, holding: Holding)
    requires { process.0 < length processes.old }
    ensures { held_by_process processes.new ≡ change_at (held_by_process processes.old) process.0 (with_holding holding) }
{
    let held = &mut processes[process.0 as usize];
    held.hold(holding);
}

/// Lets go of each process of a list.
pub fn free_each(processes: &mut [Held], freed: &[ProcId])
    requires { AllHold (λ n. n < length processes.old) (map process_number freed.now) }
    ensures { held_by_process processes.new ≡ changed_each (with_holding Holding.Free) (map process_number freed.now) (held_by_process processes.old) }
{
    for process in freed {
        hold(processes, *process, Holding::Free);
    }
}

/// Takes the updates that are due at a time out of the list of each process that has a lane.
pub fn drop_each(processes: &mut [Held], lanes: &[(ProcId, Seq<Update>)], time: u64)
    requires { AllHold (λ n. n < length processes.old) (map lane_number lanes.now) }
    ensures { held_by_process processes.new ≡ changed_each (without_at time) (map lane_number lanes.now) (held_by_process processes.old) }
{
    for lane in lanes {
        drop_due(processes, lane.0, time);
    }
}

/// Takes the updates that are due at a time out of the list of one process.
fn drop_due(processes: &mut [Held], process: ProcId, time: u64)
    requires { process.0 < length processes.old }
    ensures { held_by_process processes.new ≡ change_at (held_by_process processes.old) process.0 (without_at time) }
{
    let held = &mut processes[process.0 as usize];
    held.drop_due(time);
}

/// Makes room for one more update of a process.
pub fn reserve_update(processes: &mut [Held], process: ProcId) -> Result<(), NoMemory>
    requires { process.0 < length processes.old }
    ensures room { OnOk result (HasRoom processes.new process.0) }
    ensures same { held_by_process processes.new ≡ held_by_process processes.old }
{
    let held = &mut processes[process.0 as usize];
    held.reserve()
}

/// Appends an update of a process. There is room for it.
pub fn push_update(processes: &mut [Held], process: ProcId, due: Due)
    requires number { process.0 < length processes.old }
    requires room { HasRoom processes.old process.0 }
    ensures { held_by_process processes.new ≡ change_at (held_by_process processes.old) process.0 (with_later (due_of due)) }
{
    let held = &mut processes[process.0 as usize];
    held.push(due);
}

/// Lets go of one process, and of its updates.
fn clear_one(processes: &mut [Held], number: usize)
    requires { number < length processes.old }
    ensures { held_by_process processes.new ≡ change_at (held_by_process processes.old) number (λ (held : HeldProcess). nothing_held) }
{
    let held = &mut processes[number];
    held.clear();
}

/// Lets go of all processes, and of their updates.
pub fn clear_all(processes: &mut [Held])
    ensures { held_by_process processes.new ≡ repeated nothing_held (length processes.old) }
{
    'numbers: for number in 0..processes.len() {
        clear_one(processes, number);
    }
}

/// The updates of a process, in the order of their appends.
pub fn updates_of(processes: &[Held], process: ProcId) -> &[Due]
    requires { process.0 < length processes.now }
    ensures { map due_of result.now ≡ (held_at (held_by_process processes.now) process.0).later }
{
    processes[process.0 as usize].later.as_slice()
}

/// How a process is held.
pub fn holding_of(processes: &[Held], process: ProcId) -> Holding
    requires { process.0 < length processes.now }
    ensures { result ≡ (held_at (held_by_process processes.now) process.0).holding }
{
    processes[process.0 as usize].holding
}

/// Lets go of the updates of a process.
pub fn clear_updates(processes: &mut [Held], process: ProcId)
    requires { process.0 < length processes.old }
    ensures { held_by_process processes.new ≡ change_at (held_by_process processes.old) process.0 (with_updates []) }
{
    let held = &mut processes[process.0 as usize];
    held.clear_updates();
}
