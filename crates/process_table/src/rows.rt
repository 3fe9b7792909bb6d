// The rows of a table, and changes of one of them.

ghost use Rattle.std.specs.Prelude.{◌≡◌, ◌<◌, ◌≤◌, ◌^◌, [], true, length, map, IfOk, OnOk};
ghost use Rattle.std.specs.Option.{option_map};
ghost use Rattle.vf_base.specs.Base.{process_number};
ghost use Rattle.vf_base.specs.Counts.{raised};
ghost use Rattle.vf_base.specs.Lists.{AllHold};
ghost use Rattle.v_design.specs.Plain.{process_of, statement_of, update_of};
ghost use Rattle.v_design.specs.Reads.{named_by};
ghost use Rattle.v_design.specs.Sized.{IsSizedStatement};
ghost use Rattle.v_design.specs.States.{is_ready, is_any, first_update};
ghost use Rattle.v_design.specs.declared.plan.Process.{Process};
ghost use Rattle.process_operands.specs.BoundsLaws.{AreBelow};
ghost use Rattle.process_code.specs.Points.{activity_of, said_by, ReadsBelow};
ghost use Rattle.process_code.specs.StatesOf.{IsStateOf};
ghost use Rattle.process_table.specs.Puts.{doing, IsStateAt, PutsState, ClearsRows};
ghost use Rattle.process_table.specs.Rows.{RowState, IsGoodRow, RowChanges, RowsChange, StepsRow, StepsRows, row_state, row_states, row_text, state_at, text_at, made_ready, after_update};
ghost use Rattle.process_table.specs.Rows.{with_lane, new_state, idle_row};

use crate::row::Row;
use process_code::{Did, ProcState, Stage, compile, step};
use std::alloc::Global;
use std::sync::ledger::Ledger;
use v_design::{Process, Update, Values};
use vf_base::{NoMemory, ProcId, Seq, Steps};

/// A row of a process, ready before its first step, with an empty lane.
fn new_row<'d>(alloc: Global, process: &'d Process) -> Result<Row<'d>, NoMemory>
    requires { IsSizedStatement (statement_of process.now.body) }
    ensures good { IfOk result (λ row. IsGoodRow row) }
    ensures text { IfOk result (λ row. row.code.process.now ≡ process.now) }
    ensures state { IfOk result (λ row. row_state row ≡ new_state (process_of process.now)) }
{
    let code = compile(alloc, process)?;
    let state = ProcState::new(alloc, &code)?;
    Ok(Row {
        code,
        state,
        lane: Seq::from_vec(Vec::new(alloc)),
        taken: 0,
    })
}

/// The rows of some processes, each ready before its first step.
pub fn new_rows<'d>(alloc: Global, processes: &'d [Process]) -> Result<Vec<Row<'d>>, NoMemory>
    requires { AllHold (λ (process : Process). IsSizedStatement (statement_of process.body)) processes.now }
    ensures good { IfOk result (λ rows. AllHold IsGoodRow rows.items) }
    ensures texts { IfOk result (λ rows. map row_text rows.items ≡ map process_of processes.now) }
    ensures states { IfOk result (λ rows. row_states rows.items ≡ map new_state (map process_of processes.now)) }
{
    let mut rows = Vec::new(alloc);
    'processes: for process in processes {
        let row = new_row(alloc, process)?;
        rows.push(row)?;
    }
    Ok(rows)
}

impl<'d> Row<'d> {
    /// A process that waits, sleeps or is postponed becomes ready; it has read no operand yet.
    fn make_ready(&mut self)
        ensures { RowChanges self.old self.new (made_ready (row_state self.old)) }
    {
        if matches!(self.state.stage, Stage::Done) {
            return;
        }
        self.state.operands.clear();
        self.state.wake();
    }

    /// The process is done, and its lane is empty.
    fn clear(&mut self)
        ensures { RowChanges self.old self.new idle_row }
    {
        self.state.operands.clear();
        self.state.stage = Stage::Done;
        self.taken = self.lane.as_slice().len();
    }

    /// The process comes to stand at a state, in the memory of the row.
    fn put_state(&mut self, state: &ProcState) -> Result<(), NoMemory>
        requires { IsStateOf self.old.code state.now }
        ensures { OnOk result (RowChanges self.old self.new (doing (activity_of self.old.code state.now) (row_state self.old))) }
    {
        self.state.copy_from(state)?;
        Ok(())
    }

    /// One step of a ready process. It answers the line of the step's statement and what the step did.
    fn step<V: Values, L: Ledger>(
        &mut self,
        values: &V,
        now: u64,
        steps: &mut Steps<L>,
    ) -> (u32, Did)
        requires good { IsGoodRow self.old }
        requires ready { is_ready (row_state self.old).activity ≡ true }
        requires there { AreBelow (length (V.values values.now)) (named_by (statement_of self.old.code.process.now.body)) }
        requires now { now ≤ 2 ^ 63 }
        ensures step { StepsRow now (V.values values.now) self.old self.new result.0 (said_by result.1) }
        ensures reads { ReadsBelow (length (V.values values.now)) (said_by result.1) }
        ensures ticks { steps.new ≡ raised steps.old }
    {
        let line = self.state.line(&self.code);
        let did = step(&self.code, &mut self.state, values, now, steps);
        (line, did)
    }

    /// Takes the first update of the lane.
    fn take_update(&mut self) -> Option<Update>
        ensures row { RowChanges self.old self.new (after_update (row_state self.old)) }
        ensures update { option_map update_of result ≡ first_update (row_state self.old).lane }
    {
        let lane = self.lane.as_slice();
        if self.taken >= lane.len() {
            return None;
        }
        let update = lane[self.taken];
        self.taken += 1;
        Some(update)
    }

    /// Puts another lane in the place of the one that is there.
    fn put_lane(&mut self, lane: Seq<Update>)
        ensures { RowChanges self.old self.new (with_lane (map update_of lane) (row_state self.old)) }
    {
        self.lane = lane;
        self.taken = 0;
    }
}

/// Makes a process ready that waits, sleeps or is postponed.
pub fn make_ready(rows: &mut Vec<Row>, process: ProcId)
    requires { process_number process < length rows.old.items }
    ensures { RowsChange rows.old.items rows.new.items (process_number process) made_ready }
{
    rows[process.0 as usize].make_ready();
}

/// One step of a ready process. It answers the line of the step's statement and what the step did.
pub fn step_row<V: Values, L: Ledger>(
    rows: &mut Vec<Row>,
    process: ProcId,
    values: &V,
    now: u64,
    steps: &mut Steps<L>,
) -> (u32, Did)
    requires good { AllHold IsGoodRow rows.old.items }
    requires ready { is_ready (state_at (row_states rows.old.items) (process_number process)).activity ≡ true }
    requires there { AreBelow (length (V.values values.now)) (named_by (text_at (map row_text rows.old.items) (process_number process)).body) }
    requires now { now ≤ 2 ^ 63 }
    ensures step { StepsRows now (V.values values.now) (process_number process) rows.old.items rows.new.items result.0 (said_by result.1) }
    ensures reads { ReadsBelow (length (V.values values.now)) (said_by result.1) }
    ensures ticks { steps.new ≡ raised steps.old }
{
    rows[process.0 as usize].step(values, now, steps)
}

/// Takes the first update of a process's lane.
pub fn take_update(rows: &mut Vec<Row>, process: ProcId) -> Option<Update>
    requires { process_number process < length rows.old.items }
    ensures rows { RowsChange rows.old.items rows.new.items (process_number process) after_update }
    ensures update { option_map update_of result ≡ first_update (state_at (row_states rows.old.items) (process_number process)).lane }
{
    rows[process.0 as usize].take_update()
}

/// Puts another lane in the place of a process's lane.
pub fn put_lane(rows: &mut Vec<Row>, process: ProcId, lane: Seq<Update>)
    requires { process_number process < length rows.old.items }
    ensures { RowsChange rows.old.items rows.new.items (process_number process) (with_lane (map update_of lane)) }
{
    rows[process.0 as usize].put_lane(lane);
}

/// The process of a row is done, and its lane is empty.
fn clear_row(rows: &mut Vec<Row>, number: usize)
    requires { number < length rows.old.items }
    ensures { RowsChange rows.old.items rows.new.items number (λ (row : RowState). idle_row) }
{
    rows[number].clear();
}

/// All processes are done, and their lanes are empty.
pub fn clear_rows(rows: &mut Vec<Row>)
    ensures { ClearsRows rows.old.items rows.new.items }
{
    'numbers: for number in 0..rows.len() {
        clear_row(rows, number);
    }
}

/// A process comes to stand at a state.
///
/// # Errors
///
/// Want of memory.
pub fn put_state(rows: &mut Vec<Row>, process: ProcId, state: &ProcState) -> Result<(), NoMemory>
    requires number { process_number process < length rows.old.items }
    requires state { IsStateAt rows.old.items (process_number process) state.now }
    ensures { OnOk result (PutsState rows.old.items rows.new.items (process_number process) state.now) }
{
    rows[process.0 as usize].put_state(state)
}

/// Whether the lane of a process has an update.
pub fn has_lane(rows: &Vec<Row>, process: ProcId) -> bool
    requires { process_number process < length rows.now.items }
    ensures { result ≡ is_any (state_at (row_states rows.now.items) (process_number process)).lane }
{
    let row = &rows[process.0 as usize];
    if row.taken < row.lane.as_slice().len() {
        return true;
    }
    false
}
