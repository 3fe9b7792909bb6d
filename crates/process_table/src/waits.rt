// Waits that begin, and waits that a phase begins with.

ghost use Rattle.std.specs.Prelude.{◌≡◌, ◌++◌, map, OnOk};
ghost use Rattle.vf_base.specs.Base.{process_number};
ghost use Rattle.vf_base.specs.Lists.{AllHold, joined, map_numbered};
ghost use Rattle.v_design.specs.Accesses.{await_accesses, held_by, waiting_entries};
ghost use Rattle.v_design.specs.PlainDesigns.{design_of};
ghost use Rattle.causal_monitor.specs.Notes.{noted_access};
ghost use Rattle.event_queue.specs.Queues.{nothing_held};
ghost use Rattle.process_table.specs.Arranged.{IsKept, table_of, with_held};
ghost use Rattle.process_table.specs.Noted.{AreNoted, AreHeld, IsEntryIn};
ghost use Rattle.process_table.specs.Rows.{IsGoodRow, row_state};
ghost use Rattle.process_table.specs.Tables.{process_in};

use crate::entries::{push_entries, push_held};
use crate::row::Row;
use crate::table::ProcessTable;
use causal_monitor::Noted;
use v_design::Design;
use vf_base::{AccessKind, NoMemory, ProcId};

/// Puts the accesses of the entries on net pieces of the wait that a process is in behind those that are listed.
fn hold_row(
    design: &Design,
    process: ProcId,
    row: &Row,
    accesses: &mut Vec<Noted>,
) -> Result<(), NoMemory>
    requires good { IsGoodRow row.now }
    requires entries { AllHold (IsEntryIn (design_of design.now)) (waiting_entries (row_state row.now).activity) }
    ensures accesses { OnOk result (map noted_access accesses.new.items ≡ map noted_access accesses.old.items ++ held_by (design_of design.now)
        (process_number process) (with_held (row_state row.now) nothing_held)) }
    ensures held { OnOk result (AreHeld (design_of design.now) accesses.old.items → AreHeld (design_of design.now) accesses.new.items) }
{
    let entries = row.state.waits(&row.code);
    let line = row.state.wait_line(&row.code);
    push_held(design, process, line, entries, accesses)?;
    Ok(())
}

impl<'d> ProcessTable<'d> {
    /// Puts the accesses of the wait that a process is in behind those that are listed, one for each entry, with the line of the step that began it;
    /// none where it is in no wait.
    ///
    /// # Errors
    ///
    /// Want of memory.
    pub fn note_wait(
        &self,
        process: ProcId,
        line: u32,
        accesses: &mut Vec<Noted>,
    ) -> Result<(), NoMemory>
        requires kept { IsKept self.now }
        ensures accesses { OnOk result (map noted_access accesses.new.items ≡ map noted_access accesses.old.items ++ await_accesses
            (process_number process) line (process_in (table_of self.now) (process_number process)).activity) }
        ensures noted { OnOk result (AreNoted (table_of self.now).design accesses.old.items → AreNoted (table_of self.now).design accesses.new.items) }
    {
        if process.0 as usize >= self.rows.len() {
            return Ok(());
        }
        let row = &self.rows[process.0 as usize];
        let entries = row.state.waits(&row.code);
        push_entries(AccessKind::Await, process, line, entries, accesses)?;
        Ok(())
    }

    /// Puts the entries on net pieces of all waits behind those that are listed, by process and entry: what a phase that begins holds.
    ///
    /// # Errors
    ///
    /// Want of memory.
    pub fn note_held(&self, accesses: &mut Vec<Noted>) -> Result<(), NoMemory>
        requires kept { IsKept self.now }
        ensures accesses { OnOk result (map noted_access accesses.new.items ≡ map noted_access accesses.old.items ++ joined (map_numbered (held_by
            (table_of self.now).design) 0 (table_of self.now).processes)) }
        ensures held { OnOk result (AreHeld (table_of self.now).design accesses.old.items → AreHeld (table_of self.now).design accesses.new.items) }
    {
        'rows: for (number, row) in self.rows.iter().enumerate() {
            hold_row(self.design, ProcId(number as u32), row, accesses)?;
        }
        Ok(())
    }
}
