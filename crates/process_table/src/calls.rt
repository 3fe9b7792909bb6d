// What a table can do.

ghost use Rattle.std.specs.Prelude.{◌≡◌, ◌≤◌, ◌<◌, ◌^◌, ◌++◌, ◌+◌, true, false, length, map, List, ℕ, IfOk, IfSome, OnOk, OnErr};
ghost use Rattle.std.specs.Option.{option_map};
ghost use Rattle.vf_base.specs.Base.{object_number, process_number};
ghost use Rattle.vf_base.specs.Counts.{raised};
ghost use Rattle.vf_base.specs.Lists.{AllHold, change_at, first_place, joined, map_numbered};
ghost use Rattle.v_design.specs.PlainDesigns.{design_of};
ghost use Rattle.v_design.specs.Plain.{update_of};
ghost use Rattle.v_design.specs.Designs.{Machine};
ghost use Rattle.v_design.specs.States.{State, ProcessState, start, is_ready, is_any, first_update, after_lane_step, turn_of, has_event, some_in};
ghost use Rattle.process_code.specs.Points.{activity_of};
ghost use Rattle.process_code.specs.StatesOf.{IsStateOf};
ghost use Rattle.process_code.specs.declared.code.Code.{Code};
ghost use Rattle.run_ends.specs.RunEnds.{IsCodeAt};
ghost use Rattle.process_table.specs.Tables.{IsTableOf, process_in, is_woken};
ghost use Rattle.process_table.specs.Deeds.{IsStepOf, read_by, turn_kind};
ghost use Rattle.process_table.specs.Arranged.{IsKept, table_of};

use crate::deed::{Stepped, TableTurn};
use crate::holds::{act_of, keep, later_of, mark, standing_of};
use crate::rows::{has_lane, new_rows, step_row, take_update};
use crate::set::ProcessSet;
use crate::table::ProcessTable;
use event_queue::Queue;
use process_code::{ProcState, codes_are_one};
use std::alloc::Global;
use std::sync::ledger::Ledger;
use v_design::{Design, Update, Values};
use vf_base::{NoMemory, ProcId, Steps};
use wait_index::WaitIndex;

impl<'d> ProcessTable<'d> {
    /// The processes of a design at the start of a run, each ready before its first step, at time 0.
    ///
    /// # Errors
    ///
    /// Want of memory.
    pub fn new(alloc: Global, design: &'d Design) -> Result<ProcessTable<'d>, NoMemory>
        ensures does { IfOk result (λ table. (machine : Machine) → design_of design.now ≡ machine.design → IsTableOf machine (start machine) (table_of table)) }
        ensures kept { IfOk result (λ table. IsKept table) }
    {
        let processes = design.processes.as_slice();
        let count = processes.len() as u32;
        let index = WaitIndex::new(alloc, design)?;
        let rows = new_rows(alloc, processes)?;
        let ready = ProcessSet::new(alloc, count, true)?;
        let lanes = ProcessSet::new(alloc, count, false)?;
        let queue = Queue::new(alloc, count)?;
        Ok(ProcessTable {
            alloc,
            design,
            time: 0,
            rows,
            index,
            ready,
            lanes,
            queue,
            candidates: Vec::new(alloc),
        })
    }

    /// The present time, in steps.
    pub fn time(&self) -> u64
        ensures { result ≡ (table_of self.now).time }
    {
        self.time
    }

    /// How many processes there are.
    pub fn processes(&self) -> usize
        requires kept { IsKept self.now }
        ensures { result ≡ length (table_of self.now).design.processes }
    {
        self.design.processes.as_slice().len()
    }

    /// The ready process with the least number.
    pub fn first_ready(&self) -> Option<ProcId>
        requires kept { IsKept self.now }
        ensures { option_map process_number result ≡ first_place (λ (p : ProcessState). is_ready p.activity) (table_of self.now).processes }
    {
        self.ready.first()
    }

    /// The process with the least number whose lane has an update.
    pub fn first_lane(&self) -> Option<ProcId>
        requires kept { IsKept self.now }
        ensures { option_map process_number result ≡ first_place (λ (p : ProcessState). is_any p.lane) (table_of self.now).processes }
    {
        self.lanes.first()
    }

    /// Whether a process is there and ready.
    pub fn is_ready(&self, process: ProcId) -> bool
        requires kept { IsKept self.now }
        ensures { result ≡ is_ready (process_in (table_of self.now) (process_number process)).activity }
    {
        self.ready.contains(process)
    }

    /// Whether a process is there and its lane has an update.
    pub fn has_lane(&self, process: ProcId) -> bool
        requires kept { IsKept self.now }
        ensures { result ≡ is_any (process_in (table_of self.now) (process_number process)).lane }
    {
        self.lanes.contains(process)
    }

    /// One step of a ready process, over the values of all objects. It reads or writes one object at most, and reads one of the design; what it writes, the caller writes.
    ///
    /// # Errors
    ///
    /// Want of memory, for an update that it appends or for a sleep.
    pub fn step<V: Values, L: Ledger>(
        &mut self,
        process: ProcId,
        values: &V,
        steps: &mut Steps<L>,
    ) -> Result<Stepped, NoMemory>
        requires kept { IsKept self.old }
        requires ready { is_ready (process_in (table_of self.old) (process_number process)).activity ≡ true }
        requires values { length (V.values values.now) ≡ length (table_of self.old).design.objects }
        requires time { (table_of self.old).time ≤ 2 ^ 63 }
        ensures step { IfOk result (λ stepped. (machine : Machine) (state : State) → IsTableOf machine state (table_of self.old) →
            state.values ≡ V.values values.now → IsStepOf machine state (process_number process) stepped (table_of self.new)) }
        ensures reads { IfOk result (λ stepped. IfSome (read_by stepped.act) (λ object. object < length (table_of self.old).design.objects)) }
        ensures ticks { steps.new ≡ raised steps.old }
        ensures kept { IfOk result (λ _. IsKept self.new) }
    {
        let (line, did) = step_row(&mut self.rows, process, values, self.time, steps);
        let standing = standing_of(&self.rows, process);
        keep(&mut self.queue, process, &did, standing.stage)?;
        mark(&mut self.ready, process, standing.ready);
        Ok(Stepped {
            line,
            act: act_of(&did),
            later: later_of(&did),
            waits: standing.waits,
            ready: standing.ready,
        })
    }

    /// Where a process stands, as a copy: in each code of the process it is a state that does what the process does.
    ///
    /// # Errors
    ///
    /// Want of memory.
    pub fn copy_state(&self, process: ProcId) -> Result<ProcState, NoMemory>
        requires kept { IsKept self.now }
        requires number { process_number process < length (table_of self.now).processes }
        ensures state { IfOk result (λ copy. (code : Code) → IsCodeAt (table_of self.now).design (process_number process) code → IsStateOf code copy) }
        ensures activity { IfOk result (λ copy. (code : Code) → IsCodeAt (table_of self.now).design (process_number process) code →
            activity_of code copy ≡ (process_in (table_of self.now) (process_number process)).activity) }
    {
        codes_are_one();
        let row = &self.rows[process.0 as usize];
        let copy = row.state.copy(self.alloc)?;
        Ok(copy)
    }

    /// Takes the first update of a process's lane.
    pub fn lane_step(&mut self, process: ProcId) -> Option<Update>
        requires kept { IsKept self.old }
        requires number { process_number process < length (table_of self.old).processes }
        ensures update { option_map update_of result ≡ first_update (process_in (table_of self.old) (process_number process)).lane }
        ensures rest { table_of self.new ≡ record (table_of self.old) { processes = change_at (table_of self.old).processes (process_number process) after_lane_step } }
        ensures kept { IsKept self.new }
    {
        let update = take_update(&mut self.rows, process);
        let more = has_lane(&self.rows, process);
        mark(&mut self.lanes, process, more);
        update
    }

    /// The turn that comes where no event is possible; it isn't taken. `None` where nothing is left that a turn could activate.
    pub fn next_turn(&self) -> Option<TableTurn>
        requires kept { IsKept self.now }
        ensures { (machine : Machine) (state : State) → IsTableOf machine state (table_of self.now) → option_map turn_kind result ≡ turn_of state }
    {
        if self.queue.has_postponed() {
            return Some(TableTurn::Postponed);
        }
        if self.queue.has_due(self.time) {
            return Some(TableTurn::Updates);
        }
        match self.queue.next_time() {
            Some(time) => Some(TableTurn::Time(time)),
            None => None,
        }
    }
}
