// Waits that end.

ghost use Rattle.std.specs.Prelude.{◌≡◌, ◌<◌, ◌++◌, [], length, map, get_or, IfOk, OnOk};
ghost use Rattle.std.specs.List.{All};
ghost use Rattle.vf_base.specs.Base.{object_number, process_number};
ghost use Rattle.vf_base.specs.Lists.{AllHold};
ghost use Rattle.four_value.specs.Values.{IsWidth};
ghost use Rattle.v_design.specs.Accesses.{waiting_entries};
ghost use Rattle.v_design.specs.Trees.{Entry};
ghost use Rattle.causal_monitor.specs.Notes.{noted_access};
ghost use Rattle.value_change.specs.Changes.{change_seen};
ghost use Rattle.process_table.specs.Arranged.{IsKept, table_of};
ghost use Rattle.process_table.specs.Noted.{AreNoted, EndsWait};
ghost use Rattle.process_table.specs.Rows.{IsGoodRow, row_states, state_at};
ghost use Rattle.process_table.specs.Wakes.{Climbs, HasWaiters, HasWoken, IsWoken, IsWokenAt};

use crate::entries::{first_matching, push_others};
use crate::row::Row;
use crate::rows::make_ready;
use crate::table::ProcessTable;
use causal_monitor::Noted;
use std::alloc::Global;
use std::mem;
use value_change::Change;
use vf_base::{NoMemory, ObjectId, ProcId};
use wait_index::WaitIndex;

/// Puts the accesses of a process's wait behind those that are listed, if some changes end the wait, and tells whether they do.
fn note_ended(
    rows: &Vec<Row>,
    process: ProcId,
    changes: &[Change],
    accesses: &mut Vec<Noted>,
) -> Result<bool, NoMemory>
    requires number { process_number process < length rows.now.items }
    requires good { AllHold IsGoodRow rows.now.items }
    requires widths { AllHold (λ (entry : Entry). IsWidth entry.width) (waiting_entries (state_at (row_states rows.now.items) (process_number process)).activity) }
    ensures { IfOk result (λ told. EndsWait (map change_seen changes.now) (process_number process) (state_at (row_states rows.now.items)
        (process_number process)).activity told accesses.old.items accesses.new.items) }
{
    let row = &rows[process.0 as usize];
    let entries = row.state.waits(&row.code);
    let Some(first) = first_matching(changes, entries) else {
        return Ok(false);
    };
    let line = row.state.wait_line(&row.code);
    push_others(process, line, entries, first, accesses)?;
    Ok(true)
}

/// Puts the processes that may wait on an object behind those that are listed.
fn push_waiters(
    index: &WaitIndex,
    object: ObjectId,
    candidates: &mut Vec<u32>,
) -> Result<(), NoMemory>
    requires { object_number object < length index.now }
    ensures { OnOk result (candidates.new.items ≡ candidates.old.items ++ get_or index.now (object_number object) []) }
{
    'waiters: for process in index.of(object) {
        candidates.push(process.0)?;
    }
    Ok(())
}

/// Lists the processes that may wait on the objects of some changes.
fn list_waiters(
    index: &WaitIndex,
    changes: &[Change],
    candidates: &mut Vec<u32>,
) -> Result<(), NoMemory>
    requires { All (λ change. object_number change.object < length index.now) changes.now }
    ensures { OnOk result (HasWaiters index.now (map change_seen changes.now) candidates.new.items) }
{
    candidates.clear();
    'changes: for change in changes {
        push_waiters(index, change.object, candidates)?;
    }
    Ok(())
}

/// Lists the processes that may wait on the objects of some changes, in ascending order.
fn list_candidates(
    index: &WaitIndex,
    changes: &[Change],
    candidates: &mut Vec<u32>,
) -> Result<(), NoMemory>
    requires { All (λ change. object_number change.object < length index.now) changes.now }
    ensures waiters { OnOk result (HasWaiters index.now (map change_seen changes.now) candidates.new.items) }
    ensures climbs { OnOk result (Climbs candidates.new.items) }
{
    list_waiters(index, changes, candidates)?;
    candidates.sort_unstable();
    Ok(())
}

impl<'d> ProcessTable<'d> {
    /// Makes a process ready if some changes end its wait. Behind the accesses and the processes that are listed it then puts the accesses of the wait, and
    /// the process.
    fn wake_process(
        &mut self,
        process: ProcId,
        changes: &[Change],
        accesses: &mut Vec<Noted>,
        ended: &mut Vec<ProcId>,
    ) -> Result<(), NoMemory>
        requires kept { IsKept self.old }
        ensures woken { OnOk result (IsWokenAt (map change_seen changes.now) (table_of self.old) (table_of self.new) (map noted_access accesses.old.items)
            (map noted_access accesses.new.items) (map process_number ended.old.items) (map process_number ended.new.items) (process_number process)) }
        ensures noted { OnOk result (AreNoted (table_of self.old).design accesses.old.items → AreNoted (table_of self.old).design accesses.new.items) }
        ensures kept { OnOk result (IsKept self.new) }
    {
        if process.0 as usize >= self.rows.len() {
            return Ok(());
        }
        if !note_ended(&self.rows, process, changes, accesses)? {
            return Ok(());
        }
        make_ready(&mut self.rows, process);
        self.ready.insert(process);
        ended.push(process)?;
        Ok(())
    }

    /// Makes the processes ready whose waits some changes end. Behind the accesses and the processes that are listed it puts the accesses of these
    /// waits, by process and entry, and the processes, ascending.
    ///
    /// # Errors
    ///
    /// Want of memory.
    pub fn wake(
        &mut self,
        changes: &[Change],
        accesses: &mut Vec<Noted>,
        ended: &mut Vec<ProcId>,
    ) -> Result<(), NoMemory>
        requires kept { IsKept self.old }
        requires objects { All (λ change. object_number change.object < length (table_of self.old).design.objects) changes.now }
        ensures woken { OnOk result (IsWoken (map change_seen changes.now) (table_of self.old) (table_of self.new) (map noted_access accesses.old.items)
            (map noted_access accesses.new.items) (map process_number ended.old.items) (map process_number ended.new.items)) }
        ensures noted { OnOk result (AreNoted (table_of self.old).design accesses.old.items → AreNoted (table_of self.old).design accesses.new.items) }
        ensures ended { OnOk result (All (λ process. process_number process < length (table_of self.old).processes) ended.old.items →
            All (λ process. process_number process < length (table_of self.old).processes) ended.new.items) }
        ensures kept { OnOk result (IsKept self.new) }
    {
        let mut candidates = mem::replace(&mut self.candidates, Vec::new(self.alloc));
        list_candidates(&self.index, changes, &mut candidates)?;
        self.wake_each(&candidates, changes, accesses, ended)?;
        self.candidates = candidates;
        Ok(())
    }

    /// The same, where each process whose wait some changes end is among some candidates.
    fn wake_each(
        &mut self,
        candidates: &[u32],
        changes: &[Change],
        accesses: &mut Vec<Noted>,
        ended: &mut Vec<ProcId>,
    ) -> Result<(), NoMemory>
        requires kept { IsKept self.old }
        requires climbs { Climbs candidates.now }
        requires all { HasWoken (map change_seen changes.now) (table_of self.old).processes candidates.now }
        ensures woken { OnOk result (IsWoken (map change_seen changes.now) (table_of self.old) (table_of self.new) (map noted_access accesses.old.items)
            (map noted_access accesses.new.items) (map process_number ended.old.items) (map process_number ended.new.items)) }
        ensures noted { OnOk result (AreNoted (table_of self.old).design accesses.old.items → AreNoted (table_of self.old).design accesses.new.items) }
        ensures kept { OnOk result (IsKept self.new) }
    {
        let mut next = 0;
        'candidates: for number in candidates {
            let place = *number as usize;
            if place < next {
                continue;
            }
            self.wake_process(ProcId(*number), changes, accesses, ended)?;
            next = place + 1;
        }
        Ok(())
    }
}
