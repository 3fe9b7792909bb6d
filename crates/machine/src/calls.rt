// What a machine can do.

ghost use Rattle.std.specs.Prelude.{◌≡◌, ◌≤◌, ◌^◌, ℕ, false, Some, IfOk, IsSomeAnd};
ghost use Rattle.std.specs.Option.{option_map};
ghost use Rattle.v_design.specs.States.{State, start};
ghost use Rattle.v_design.specs.Views.{machine_with};
ghost use Rattle.causal_monitor.specs.declared.slot.Turn.TheVariants as turns;
ghost use Rattle.machine_laws.specs.SlotLoop.{slot_from};
ghost use Rattle.machine.specs.Ticks.{raised_by, process_steps};
ghost use Rattle.machine.specs.Standing.{IsStanding, RunsSlot, EveryOrderEndsHere, machine_kept, state_kept, begins_next, notes_runs, first_turn};

use crate::end::SlotEnd;
use crate::guide::Guide;
use crate::parts::{Machine, Stage};
use causal_monitor::SlotLog;
use machine_events::{Told, later_time};
use net_graph::Graph;
use net_state::NetState;
use process_table::ProcessTable;
use run_record::RunRecord;
use slot_record::SlotRecord;
use std::alloc::Global;
use std::sync::ledger::Ledger;
use v_design::{Design, Fault, View};
use vf_base::{NoMemory, Steps};

impl<'d> Machine<'d> {
    /// A machine at the start of its run: a design, good or under a fault. It notes no process runs.
    ///
    /// # Errors
    ///
    /// Want of memory.
    pub fn new(
        alloc: Global,
        design: &'d Design,
        graph: &'d Graph<'d>,
        fault: Option<Fault>,
    ) -> Result<Machine<'d>, NoMemory>
        requires { graph.now.design.now ≡ design.now }
        ensures machine { IfOk result (λ m. machine_kept m ≡ machine_with design.now fault) }
        ensures begins { IfOk result (λ m. begins_next m ≡ Some (start (machine_with design.now fault))) }
        ensures standing { IfOk result (λ m. IsStanding m) }
        ensures notes { IfOk result (λ m. notes_runs m ≡ false) }
        ensures turn { IfOk result (λ m. first_turn m.stage ≡ turns.Start) }
    {
        order_laws::nets();
        order_laws::first_run_goes_on();
        let nets = NetState::new(alloc, View { design, fault }, graph)?;
        let table = ProcessTable::new(alloc, design)?;
        let processes = design.processes.as_slice().len();
        let record = SlotRecord::new(alloc, processes, nets.object_count())?;
        Ok(Machine {
            graph,
            nets,
            table,
            record,
            runs: RunRecord::none(alloc),
            noting: false,
            stage: Stage::Start,
            told: Told::new(alloc),
        })
    }

    /// The time of the slot that comes next, in steps: 0 at the start. `None` where no slot is left.
    pub fn next_time(&self) -> Option<u64>
        requires { IsStanding self.now }
        ensures { result ≡ option_map (λ (begins : State). begins.time) (begins_next self.now) }
    {
        match self.stage {
            Stage::Start => Some(self.table.time()),
            Stage::Between => later_time(&self.table),
            Stage::Over => None,
        }
    }

    /// Runs the next slot in the first order, to its end or through its first process or lane step past 100,000, and answers how it ends. `log` is
    /// the log of its phases afterwards, whatever it held before; the memory of what it held is used again. `steps` ticks once for each step of a process.
    ///
    /// # Errors
    ///
    /// Want of memory.
    pub fn slot<L: Ledger>(
        &mut self,
        log: &mut SlotLog,
        steps: &mut Steps<L>,
    ) -> Result<SlotEnd, NoMemory>
        requires standing { IsStanding self.old }
        requires left { IsSomeAnd (begins_next self.old) (λ begins. begins.time ≤ 2 ^ 63) }
        ensures machine { IfOk result (λ _. machine_kept self.new ≡ machine_kept self.old) }
        ensures slot { IfOk result (λ end. (begins : State) → begins_next self.old ≡ Some begins → RunsSlot (machine_kept self.old) begins (first_turn self.old.stage) end self.new log.new) }
        ensures ticks { IfOk result (λ _. (begins : State) → begins_next self.old ≡ Some begins → steps.new ≡ raised_by (process_steps (slot_from (machine_kept self.old) begins)) steps.old) }
        ensures every_order { IfOk result (λ _. (begins : State) → begins_next self.old ≡ Some begins → EveryOrderEndsHere (machine_kept self.old) begins self.new) }
        ensures standing { IfOk result (λ _. IsStanding self.new) }
        ensures notes { IfOk result (λ _. notes_runs self.new ≡ notes_runs self.old) }
        ensures turn { IfOk result (λ _. first_turn self.new.stage ≡ turns.Time) }
    {
        let mut guide = Guide::Alone;
        let end = self.run_slot(log, &mut guide, steps)?;
        Ok(end)
    }
}
