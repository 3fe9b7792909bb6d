// Processes that come to stand elsewhere at any moment, and where processes stand in two tables.

ghost use Rattle.std.specs.Prelude.{◌≡◌, ◌≤◌, ◌<◌, ◌↔◌, IsTrue, true, length, map, OnOk};
ghost use Rattle.vf_base.specs.Base.{process_number};
ghost use Rattle.vf_base.specs.Lists.{AllHold, change_at};
ghost use Rattle.v_design.specs.Accesses.{is_waiting};
ghost use Rattle.v_design.specs.Places.{PlacesDiffer};
ghost use Rattle.v_design.specs.Plain.{due_of, update_of};
ghost use Rattle.v_design.specs.States.{ProcessState, LaterUpdate};
ghost use Rattle.process_code.specs.Points.{activity_of};
ghost use Rattle.process_code.specs.StatesOf.{IsStateOf};
ghost use Rattle.process_code.specs.declared.code.Code.{Code};
ghost use Rattle.run_ends.specs.RunEnds.{IsCodeAt};
ghost use Rattle.process_table.specs.Tables.{process_in};
ghost use Rattle.process_table.specs.Arranged.{IsKept, stage_holding, table_of};
ghost use Rattle.process_table.specs.Puts.{IsStateAt, StandsAt};
ghost use Rattle.process_table.specs.Rows.{RowChanges, RowsChange, row_state, with_lane};
ghost use Rattle.process_table.specs.Replaces.{ReplacesRow, process_readied, row_of, state_with, with_pending};
ghost use Rattle.process_table.specs.Waited.{body_of};

use crate::holds::{mark, standing_of};
use crate::row::Row;
use crate::rows::{has_lane, make_ready};
use crate::table::ProcessTable;
use event_queue::Holding;
use process_code::{ProcState, Stage, codes_are_one};
use std::alloc::Global;
use std::mem;
use v_design::{Due, Update};
use vf_base::{NoMemory, ProcId, Seq};

/// How the queue holds a process at a stage.
fn holding_at(stage: Stage) -> Holding
    ensures { result ≡ stage_holding stage }
{
    match stage {
        Stage::Asleep(time) => Holding::Asleep(time),
        Stage::Postponed => Holding::Postponed,
        Stage::Ready => Holding::Free,
        Stage::Waiting(_) => Holding::Free,
        Stage::Done => Holding::Free,
    }
}

impl<'d> Row<'d> {
    /// The updates that are left in the lane.
    fn updates_left(&self) -> &[Update]
        ensures { map update_of result.now ≡ (row_state self.now).lane }
    {
        let lane = self.lane.as_slice();
        let taken = self.taken.min(lane.len());
        &lane[taken..]
    }

    /// Puts updates in the place of those that are left in the lane, whose memory is used again.
    fn fill_lane(&mut self, alloc: Global, updates: &[Update]) -> Result<(), NoMemory>
        ensures { OnOk result (RowChanges self.old self.new (with_lane (map update_of updates.now) (row_state self.old))) }
    {
        let mut lane = mem::replace(&mut self.lane, Seq::from_vec(Vec::new(alloc))).into_vec();
        lane.clear();
        lane.extend_from_slice(updates)?;
        self.lane = Seq::from_vec(lane);
        self.taken = 0;
        Ok(())
    }

    /// The process comes to stand at a state, with these updates in its lane. The memory of the row is used again.
    fn replace(&mut self, alloc: Global, state: &ProcState, lane: &[Update]) -> Result<(), NoMemory>
        requires { IsStateOf self.old.code state.now }
        ensures { OnOk result (RowChanges self.old self.new (row_of (activity_of self.old.code state.now) (map update_of lane.now))) }
    {
        self.state.copy_from(state)?;
        self.fill_lane(alloc, lane)?;
        Ok(())
    }
}

/// A process comes to stand at a state, with these updates in its lane.
fn replace_row(
    alloc: Global,
    rows: &mut Vec<Row>,
    process: ProcId,
    state: &ProcState,
    lane: &[Update],
) -> Result<(), NoMemory>
    requires number { process_number process < length rows.old.items }
    requires state { IsStateAt rows.old.items (process_number process) state.now }
    ensures { OnOk result (ReplacesRow rows.old.items rows.new.items (process_number process) state.now (map update_of lane.now)) }
{
    rows[process.0 as usize].replace(alloc, state, lane)
}

/// Puts updates in the place of those of a process's lane.
fn fill_row(
    alloc: Global,
    rows: &mut Vec<Row>,
    process: ProcId,
    updates: &[Update],
) -> Result<(), NoMemory>
    requires { process_number process < length rows.old.items }
    ensures { OnOk result (RowsChange rows.old.items rows.new.items (process_number process) (with_lane (map update_of updates.now))) }
{
    rows[process.0 as usize].fill_lane(alloc, updates)
}

impl<'d> ProcessTable<'d> {
    /// A process comes to stand at a state, with these updates pending, in the order of their appends, and these in its lane, whatever it did before. The state may be
    /// one of any code of the process. All other processes stay.
    ///
    /// # Errors
    ///
    /// Want of memory; the table is then not to be used again.
    pub fn replace(
        &mut self,
        process: ProcId,
        state: &ProcState,
        later: &[Due],
        lane: &[Update],
    ) -> Result<(), NoMemory>
        requires kept { IsKept self.old }
        requires number { process_number process < length (table_of self.old).processes }
        requires stands { (code : Code) → IsCodeAt (table_of self.old).design (process_number process) code →
            StandsAt (table_of self.old).design (table_of self.old).time (process_number process) state.now (map due_of later.now) code }
        ensures design { OnOk result ((table_of self.new).design ≡ (table_of self.old).design) }
        ensures table { OnOk result ((code : Code) → IsCodeAt (table_of self.old).design (process_number process) code → table_of self.new ≡ record (table_of self.old) {
          processes = change_at (table_of self.old).processes (process_number process) (λ (old : ProcessState). state_with code state.now (map due_of later.now)
              (map update_of lane.now));
        }) }
        ensures kept { OnOk result (IsKept self.new) }
    {
        codes_are_one();
        replace_row(self.alloc, &mut self.rows, process, state, lane)?;
        let standing = standing_of(&self.rows, process);
        self.queue
            .replace(process, holding_at(standing.stage), later)?;
        mark(&mut self.ready, process, standing.ready);
        let busy = has_lane(&self.rows, process);
        mark(&mut self.lanes, process, busy);
        Ok(())
    }

    /// A process has these updates pending, in the order of their appends, and these in its lane, in the place of its own. It does what it did. No update is due
    /// before the present time.
    ///
    /// # Errors
    ///
    /// Want of memory; the table is then not to be used again.
    pub fn put_updates(
        &mut self,
        process: ProcId,
        later: &[Due],
        lane: &[Update],
    ) -> Result<(), NoMemory>
        requires kept { IsKept self.old }
        requires number { process_number process < length (table_of self.old).processes }
        requires after { AllHold (λ (update : LaterUpdate). (table_of self.old).time ≤ update.time) (map due_of later.now) }
        ensures table { OnOk result (table_of self.new ≡ record (table_of self.old) {
          processes = change_at (table_of self.old).processes (process_number process) (with_pending (map due_of later.now) (map update_of lane.now));
        }) }
        ensures kept { OnOk result (IsKept self.new) }
    {
        fill_row(self.alloc, &mut self.rows, process, lane)?;
        self.queue.put_updates(process, later)?;
        let busy = has_lane(&self.rows, process);
        mark(&mut self.lanes, process, busy);
        Ok(())
    }

    /// A process that waits becomes ready.
    pub fn wake_one(&mut self, process: ProcId)
        requires kept { IsKept self.old }
        requires waits { is_waiting (process_in (table_of self.old) (process_number process)).activity ≡ true }
        ensures table { table_of self.new ≡ record (table_of self.old) { processes = change_at (table_of self.old).processes (process_number process) process_readied } }
        ensures kept { IsKept self.new }
    {
        make_ready(&mut self.rows, process);
        self.ready.insert(process);
    }

    /// The updates that are left in a process's lane, in the order in which they are written.
    pub fn lane_of(&self, process: ProcId) -> &[Update]
        requires kept { IsKept self.now }
        requires number { process_number process < length (table_of self.now).processes }
        ensures { map update_of result.now ≡ (process_in (table_of self.now) (process_number process)).lane }
    {
        self.rows[process.0 as usize].updates_left()
    }

    /// Whether a process stands at the point of a state, which may be one of any code of the process. Then the state does what the process does; and where no two
    /// statements of the process stand at one place, as in each design that keeps its rules, it is true exactly where it does.
    pub fn stands_at(&self, process: ProcId, state: &ProcState) -> bool
        requires kept { IsKept self.now }
        requires number { process_number process < length (table_of self.now).processes }
        ensures activity { IsTrue result → (code : Code) → IsCodeAt (table_of self.now).design (process_number process) code →
            (process_in (table_of self.now) (process_number process)).activity ≡ activity_of code state.now }
        ensures equal { (code : Code) → IsCodeAt (table_of self.now).design (process_number process) code → PlacesDiffer (body_of (table_of self.now).design
            (process_number process)) → IsStateOf code state.now → (IsTrue result ↔ (process_in (table_of self.now) (process_number process)).activity ≡ activity_of code state.now) }
    {
        codes_are_one();
        let row = &self.rows[process.0 as usize];
        row.state.same(state)
    }

    /// Whether a process stands at one point here and in another table of the same design. Then it does the same in both; and where no two statements of the process
    /// stand at one place, as in each design that keeps its rules, it is true exactly where it does.
    pub fn does_same(&self, other: &ProcessTable, process: ProcId) -> bool
        requires kept { IsKept self.now }
        requires other_kept { IsKept other.now }
        requires number { process_number process < length (table_of self.now).processes }
        requires design { (table_of other.now).design ≡ (table_of self.now).design }
        ensures activity { IsTrue result → (process_in (table_of self.now) (process_number process)).activity ≡ (process_in (table_of other.now) (process_number process)).activity }
        ensures equal { PlacesDiffer (body_of (table_of self.now).design (process_number process)) → (IsTrue result ↔ (process_in (table_of self.now)
            (process_number process)).activity ≡ (process_in (table_of other.now) (process_number process)).activity) }
    {
        self.stands_at(process, other.state_of(process))
    }
}
