// What a step leaves to the sets and to the queue of a table.

ghost use Rattle.std.specs.Prelude.{◌≡◌, ◌<◌, Bool, length, map, OnOk};
ghost use Rattle.std.specs.Option.{option_map, option_to_list};
ghost use Rattle.vf_base.specs.Base.{process_number};
ghost use Rattle.vf_base.specs.Lists.{change_at};
ghost use Rattle.v_design.specs.Plain.{due_of};
ghost use Rattle.event_queue.specs.Queues.{held_at, with_holding, with_laters};
ghost use Rattle.event_queue.specs.declared.held.Holding.TheVariants as Holding;
ghost use Rattle.process_code.specs.Points.{said_by};
ghost use Rattle.process_table.specs.Rows.{row_states, state_at};
ghost use Rattle.process_table.specs.Arranged.{HasStage, stage_holding, later_by, held_so};
ghost use Rattle.process_table.specs.Deeds.{read_by, written_by, read_said, written_said};

use crate::deed::Act;
use crate::row::Row;
use crate::set::ProcessSet;
use event_queue::Queue;
use process_code::{Did, Stage};
use v_design::Due;
use vf_base::{NoMemory, ProcId};

/// Where a process stands: its stage, whether it is ready, and whether it waits.
#[derive(Clone, Copy)]
pub struct Standing {
    pub stage: Stage,
    pub ready: bool,
    pub waits: bool,
}

/// Where a process stands.
pub fn standing_of(rows: &Vec<Row>, process: ProcId) -> Standing
    requires { process_number process < length rows.now.items }
    ensures { HasStage (state_at (row_states rows.now.items) (process_number process)).activity result.stage result.ready result.waits }
{
    let stage = rows[process.0 as usize].state.stage;
    match stage {
        Stage::Ready => Standing {
            stage,
            ready: true,
            waits: false,
        },
        Stage::Waiting(_) => Standing {
            stage,
            ready: false,
            waits: true,
        },
        Stage::Asleep(_) => Standing {
            stage,
            ready: false,
            waits: false,
        },
        Stage::Postponed => Standing {
            stage,
            ready: false,
            waits: false,
        },
        Stage::Done => Standing {
            stage,
            ready: false,
            waits: false,
        },
    }
}

/// What a step did to an object, if it touched one.
pub fn act_of(did: &Did) -> Option<Act>
    ensures read { read_by result ≡ read_said (said_by did.now) }
    ensures write { written_by result ≡ written_said (said_by did.now) }
{
    match did {
        Did::Read(object) => Some(Act::Read(*object)),
        Did::Write(update) => Some(Act::Write(*update)),
        Did::Later(_, _) => None,
        Did::Await => None,
        Did::Sleep(_) => None,
        Did::Zero => None,
        Did::Finished => None,
        Did::Inner => None,
    }
}

/// The update that a step appended, if it did.
pub fn later_of(did: &Did) -> Option<Due>
    ensures { option_to_list (option_map due_of result) ≡ later_by (said_by did.now) }
{
    match did {
        Did::Later(update, time) => Some(Due {
            time: *time,
            update: *update,
        }),
        Did::Read(_) => None,
        Did::Write(_) => None,
        Did::Await => None,
        Did::Sleep(_) => None,
        Did::Zero => None,
        Did::Finished => None,
        Did::Inner => None,
    }
}

/// Puts a process into a set or takes it out.
pub fn mark(set: &mut ProcessSet, process: ProcId, member: bool)
    requires { process_number process < length set.old }
    ensures { set.new ≡ change_at set.old (process_number process) (λ (old : Bool). member) }
{
    if member {
        set.insert(process);
    } else {
        set.remove(process);
    }
}

/// Appends the update that a step says it appended, if it did.
fn append_later(queue: &mut Queue, process: ProcId, did: &Did) -> Result<(), NoMemory>
    requires { process_number process < length queue.old }
    ensures { OnOk result (queue.new ≡ change_at queue.old (process_number process) (with_laters (later_by (said_by did.now)))) }
{
    match did {
        Did::Later(update, time) => queue.schedule_update(process, *time, *update),
        Did::Read(_) => Ok(()),
        Did::Write(_) => Ok(()),
        Did::Await => Ok(()),
        Did::Sleep(_) => Ok(()),
        Did::Zero => Ok(()),
        Did::Finished => Ok(()),
        Did::Inner => Ok(()),
    }
}

/// Holds a process that isn't held as its stage says.
fn hold(queue: &mut Queue, process: ProcId, stage: Stage) -> Result<(), NoMemory>
    requires number { process_number process < length queue.old }
    requires free { (held_at queue.old (process_number process)).holding ≡ Holding.Free }
    ensures { OnOk result (queue.new ≡ change_at queue.old (process_number process) (with_holding (stage_holding stage))) }
{
    match stage {
        Stage::Asleep(time) => queue.sleep(process, time),
        Stage::Postponed => queue.postpone(process),
        Stage::Ready => Ok(()),
        Stage::Waiting(_) => Ok(()),
        Stage::Done => Ok(()),
    }
}

/// Lets the queue hold what a step of a process leaves to it.
pub fn keep(queue: &mut Queue, process: ProcId, did: &Did, stage: Stage) -> Result<(), NoMemory>
    requires number { process_number process < length queue.old }
    requires free { (held_at queue.old (process_number process)).holding ≡ Holding.Free }
    ensures { OnOk result (queue.new ≡ change_at queue.old (process_number process) (held_so (stage_holding stage) (later_by (said_by did.now)))) }
{
    append_later(queue, process, did)?;
    hold(queue, process, stage)?;
    Ok(())
}

/// Lets the queue hold a process that isn't held as its stage says, with some updates.
pub fn hold_with(
    queue: &mut Queue,
    process: ProcId,
    stage: Stage,
    updates: &[Due],
) -> Result<(), NoMemory>
    requires number { process_number process < length queue.old }
    requires free { (held_at queue.old (process_number process)).holding ≡ Holding.Free }
    ensures { OnOk result (queue.new ≡ change_at queue.old (process_number process) (held_so (stage_holding stage) (map due_of updates.now))) }
{
    queue.schedule_updates(process, updates)?;
    hold(queue, process, stage)?;
    Ok(())
}

/// The same with one update, if there is one.
pub fn hold_one(
    queue: &mut Queue,
    process: ProcId,
    stage: Stage,
    update: Option<Due>,
) -> Result<(), NoMemory>
    requires number { process_number process < length queue.old }
    requires free { (held_at queue.old (process_number process)).holding ≡ Holding.Free }
    ensures { OnOk result (queue.new ≡ change_at queue.old (process_number process) (held_so (stage_holding stage) (option_to_list (option_map due_of update)))) }
{
    match update {
        Some(due) => hold_with(queue, process, stage, &[due]),
        None => hold_with(queue, process, stage, &[]),
    }
}
