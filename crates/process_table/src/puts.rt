// A table put into a given state, and where its processes stand.

ghost use Rattle.std.specs.Prelude.{◌≡◌, ◌<◌, ℕ, length, map, [], OnOk};
ghost use Rattle.vf_base.specs.Base.{process_number};
ghost use Rattle.vf_base.specs.Lists.{change_at};
ghost use Rattle.v_design.specs.Designs.{FlatProcess};
ghost use Rattle.v_design.specs.Plain.{due_of};
ghost use Rattle.v_design.specs.States.{ProcessState, idle_process};
ghost use Rattle.process_code.specs.Points.{activity_of};
ghost use Rattle.process_code.specs.StatesOf.{IsStateOf};
ghost use Rattle.process_code.specs.declared.code.Code.{Code};
ghost use Rattle.run_ends.specs.RunEnds.{IsCodeAt};
ghost use Rattle.process_table.specs.Tables.{process_in};
ghost use Rattle.process_table.specs.Arranged.{IsKept, table_of};
ghost use Rattle.process_table.specs.Puts.{MayStand, StandsAt, process_at_state};

use crate::holds::{hold_with, mark, standing_of};
use crate::rows::{clear_rows, put_state};
use crate::table::ProcessTable;
use process_code::{ProcState, codes_are_one};
use v_design::Due;
use vf_base::{NoMemory, ProcId};

impl<'d> ProcessTable<'d> {
    /// Each process is done, with no update pending and nothing in its lane, at a time in steps. What was held is let go of.
    pub fn clear(&mut self, time: u64)
        requires { IsKept self.old }
        ensures table { table_of self.new ≡ record (table_of self.old) { time = time; processes = map (λ (process : FlatProcess). idle_process) (table_of self.old).design.processes } }
        ensures kept { IsKept self.new }
    {
        self.time = time;
        self.queue.clear();
        clear_rows(&mut self.rows);
        self.ready.clear();
        self.lanes.clear();
    }

    /// A process of a table that was cleared comes to stand at a state, with some of its updates pending, in the order of their appends. The state may be one of any code of
    /// the process.
    ///
    /// # Errors
    ///
    /// Want of memory.
    pub fn put(
        &mut self,
        process: ProcId,
        state: ProcState,
        updates: &[Due],
    ) -> Result<(), NoMemory>
        requires kept { IsKept self.old }
        requires number { process_number process < length (table_of self.old).processes }
        requires idle { process_in (table_of self.old) (process_number process) ≡ idle_process }
        requires stands { (code : Code) → IsCodeAt (table_of self.old).design (process_number process) code →
            StandsAt (table_of self.old).design (table_of self.old).time (process_number process) state (map due_of updates.now) code }
        ensures design { OnOk result ((table_of self.new).design ≡ (table_of self.old).design) }
        ensures table { OnOk result ((code : Code) → IsCodeAt (table_of self.old).design (process_number process) code → table_of self.new ≡ record (table_of self.old) {
          processes = change_at (table_of self.old).processes (process_number process) (λ (old : ProcessState). process_at_state code state (map due_of updates.now));
        }) }
        ensures kept { OnOk result (IsKept self.new) }
    {
        codes_are_one();
        put_state(&mut self.rows, process, &state)?;
        let standing = standing_of(&self.rows, process);
        hold_with(&mut self.queue, process, standing.stage, updates)?;
        mark(&mut self.ready, process, standing.ready);
        Ok(())
    }

    /// Where a process stands: in each code of the process it is a state that does what the process does.
    pub fn state_of(&self, process: ProcId) -> &ProcState
        requires kept { IsKept self.now }
        requires number { process_number process < length (table_of self.now).processes }
        ensures state { (code : Code) → IsCodeAt (table_of self.now).design (process_number process) code → IsStateOf code result.now }
        ensures activity { (code : Code) → IsCodeAt (table_of self.now).design (process_number process) code →
            activity_of code result.now ≡ (process_in (table_of self.now) (process_number process)).activity }
    {
        codes_are_one();
        let row = &self.rows[process.0 as usize];
        &row.state
    }

    /// The nonblocking updates of a process that are pending, in the order of their appends.
    pub fn updates_of(&self, process: ProcId) -> &[Due]
        requires kept { IsKept self.now }
        requires number { process_number process < length (table_of self.now).processes }
        ensures { map due_of result.now ≡ (process_in (table_of self.now) (process_number process)).later }
    {
        self.queue.updates(process)
    }

    /// Each process of a table stands where one may be put.
    pub fn processes_may_stand(&self)
        requires { IsKept self.now }
        ensures { (number : ℕ) → MayStand (table_of self.now).design (table_of self.now).time number (process_in (table_of self.now) number) }
    {}
}
