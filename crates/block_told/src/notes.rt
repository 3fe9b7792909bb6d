// What an event told is told of the block.

ghost use Rattle.std.specs.Prelude.{◌≡◌, ◌<◌, ◌^◌, ◌++◌, map, OnOk};
ghost use Rattle.value_change.specs.declared.change.Change.{Change};
ghost use Rattle.block_told.specs.Tells.{write_seen, noted_seen, CountsStep, TellsStepOf, TellsNodeOf};

use crate::told::BlockTold;
use causal_monitor::Noted;
use machine_events::Told;
use value_change::Change;
use vf_base::{Access, AccessKind, NoMemory, ObjectId, ProcId};

/// Appends the changes of nets, as writes by a process in a line.
fn add_net_changes(
    accesses: &mut Vec<Noted>,
    changes: &[Change],
    process: ProcId,
    line: u32,
) -> Result<(), NoMemory>
    ensures { OnOk result (map noted_seen accesses.new.items ≡ map noted_seen accesses.old.items ++ map write_seen changes.now) }
{
    'changes: for change in changes {
        accesses.push(Noted {
            access: Access {
                kind: AccessKind::Write,
                object: change.object,
                process,
                line,
            },
            old: Some(change.old),
            new: Some(change.new),
            entry: None,
        })?;
    }
    Ok(())
}

/// Appends the objects of changes.
fn add_objects(objects: &mut Vec<ObjectId>, changes: &[Change]) -> Result<(), NoMemory>
    ensures { OnOk result (objects.new.items ≡ objects.old.items ++ map (λ (change : Change). change.object) changes.now) }
{
    'changes: for change in changes {
        objects.push(change.object)?;
    }
    Ok(())
}

impl BlockTold {
    /// Counts a step of a process, which begins a run or doesn't.
    pub fn count_step(&mut self, process: ProcId, begins: bool) -> Result<(), NoMemory>
        requires { self.old.steps < 2 ^ 63 }
        ensures { OnOk result (CountsStep process begins self.old self.new) }
    {
        if begins {
            self.stepped.push(process)?;
        }
        self.steps += 1;
        Ok(())
    }

    /// Tells what a process or lane step told of itself.
    pub fn add_step(&mut self, told: &Told) -> Result<(), NoMemory>
        ensures { OnOk result (TellsStepOf told.now self.old self.new) }
    {
        self.accesses.extend_from_slice(told.accesses())?;
        self.changed.extend_from_slice(told.changed())?;
        self.ended.extend_from_slice(told.ended())?;
        Ok(())
    }

    /// Tells what work on a node told of itself, behind a step of a process in a line.
    pub fn add_node(&mut self, told: &Told, process: ProcId, line: u32) -> Result<(), NoMemory>
        ensures { OnOk result (TellsNodeOf told.now self.old self.new) }
    {
        add_net_changes(&mut self.accesses, told.net_changes(), process, line)?;
        self.accesses.extend_from_slice(told.accesses())?;
        add_objects(&mut self.changed, told.net_changes())?;
        self.ended.extend_from_slice(told.ended())?;
        Ok(())
    }
}
