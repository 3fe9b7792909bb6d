// A step of a process beside the good machine's runs.

ghost use Rattle.std.specs.Prelude.{◌≡◌, ◌<◌, ◌≤◌, ◌^◌, length, IfOk, IfSome, OnOk};
ghost use Rattle.vf_base.specs.Base.{process_number};
ghost use Rattle.v_design.specs.Designs.{Machine};
ghost use Rattle.v_design.specs.States.{State};
ghost use Rattle.net_state.specs.States.{values_in};
ghost use Rattle.process_table.specs.Arranged.{IsKept, table_of};
ghost use Rattle.process_table.specs.Deeds.{IsStepOf, read_by};
ghost use Rattle.process_table.specs.Tables.{IsTableOf};
ghost use Rattle.runs_beside.specs.Beside.{IsSomewhere, IsSomewhereAmong, StaysOf, Steps as StepsOn, StepsQuietly, StepsThere};
ghost use Rattle.runs_beside.specs.Choice.{ComesLater, ComesNext};
ghost use Rattle.runs_beside.specs.Runs.{run_at};

use crate::beside::RunsBeside;
use crate::run::RunSoFar;
use good_runs::TriedStep;
use net_state::NetState;
use process_table::{ProcessTable, Stepped};
use std::sync::ledger::Ledger;
use vf_base::{NoMemory, ProcId, Steps};

impl<'w> RunsBeside<'w> {
    /// A process takes a step again that was tried in the slot before: it is brought from there.
    fn step_again(
        &mut self,
        table: &mut ProcessTable,
        phase: u32,
        process: ProcId,
        run: RunSoFar,
        one: &TriedStep,
    ) -> Result<Stepped, NoMemory>
        requires kept { IsKept table.old }
        requires stands { IsSomewhere self.old table.old phase (process_number process) }
        requires run { run ≡ run_at phase self.old.runs.items (process_number process) }
        requires next { ComesNext self.old.tried.now self.old.next phase (process_number process) run one.now }
        ensures step { IfOk result (λ stepped. StepsThere self.old table.old phase (process_number process) stepped table.new) }
        ensures reads { IfOk result (λ stepped. IfSome (read_by stepped.act) (λ object. object < length (table_of table.old).design.objects)) }
        ensures kept { OnOk result (IsKept table.new) }
        ensures beside { OnOk result (StepsQuietly self.old self.new table.old phase (process_number process)) }
        ensures stays { OnOk result (StaysOf self.old self.new) }
    {
        known_steps::known_steps_go_on();
        copy_laws::own_runs();
        copy_laws::shared_runs();
        own_counts::own_steps_count();
        own_slots::second_runs();
        let stepped = table.follow(process, one.line, one.act, &one.state)?;
        self.next += 1;
        self.note(process, run, stepped.ready, false);
        Ok(stepped)
    }

    /// A process takes a step that wasn't tried before: it is brought from the good machine's run, where the process's own goes as that one, else it is taken.
    fn step_beside<L: Ledger>(
        &mut self,
        table: &mut ProcessTable,
        nets: &NetState,
        phase: u32,
        process: ProcId,
        run: RunSoFar,
        steps: &mut Steps<L>,
    ) -> Result<Stepped, NoMemory>
        requires kept { IsKept table.old }
        requires time { (table_of table.old).time ≤ 2 ^ 63 }
        requires objects { length (values_in nets.now) ≡ length (table_of table.old).design.objects }
        requires stands { IsSomewhereAmong self.old table.old nets.now phase (process_number process) }
        requires run { run ≡ run_at phase self.old.runs.items (process_number process) }
        requires later { ComesLater self.old.tried.now self.old.next phase (process_number process) run }
        ensures step { IfOk result (λ stepped. (machine : Machine) (state : State) → IsTableOf machine state (table_of table.old) →
            state.values ≡ values_in nets.now → IsStepOf machine state (process_number process) stepped (table_of table.new)) }
        ensures reads { IfOk result (λ stepped. IfSome (read_by stepped.act) (λ object. object < length (table_of table.old).design.objects)) }
        ensures kept { OnOk result (IsKept table.new) }
        ensures beside { OnOk result (StepsOn self.old self.new table.old nets.now phase (process_number process) steps.old steps.new) }
        ensures stays { OnOk result (StaysOf self.old self.new) }
    {
        known_steps::known_steps_go_on();
        copy_laws::own_runs();
        copy_laws::shared_runs();
        own_counts::own_steps_count();
        own_slots::second_runs();
        match self.known_step(table, nets, phase, process, run) {
            Some(known) => {
                let stepped = table.follow(process, known.line, known.act, known.next)?;
                self.note(process, run, stepped.ready, true);
                Ok(stepped)
            }
            None => {
                let stepped = table.step(process, nets, steps)?;
                self.note(process, run, stepped.ready, false);
                Ok(stepped)
            }
        }
    }

    /// A process takes the next step of the first order, in the phase of a number, counted from 0: it is brought from where it was tried before, or from the good machine's run, or taken. `steps` ticks
    /// where it is taken.
    ///
    /// # Errors
    ///
    /// Want of memory.
    pub fn step<L: Ledger>(
        &mut self,
        table: &mut ProcessTable,
        nets: &NetState,
        phase: u32,
        process: ProcId,
        steps: &mut Steps<L>,
    ) -> Result<Stepped, NoMemory>
        requires kept { IsKept table.old }
        requires time { (table_of table.old).time ≤ 2 ^ 63 }
        requires objects { length (values_in nets.now) ≡ length (table_of table.old).design.objects }
        requires stands { IsSomewhereAmong self.old table.old nets.now phase (process_number process) }
        ensures step { IfOk result (λ stepped. (machine : Machine) (state : State) → IsTableOf machine state (table_of table.old) →
            state.values ≡ values_in nets.now → IsStepOf machine state (process_number process) stepped (table_of table.new)) }
        ensures reads { IfOk result (λ stepped. IfSome (read_by stepped.act) (λ object. object < length (table_of table.old).design.objects)) }
        ensures kept { OnOk result (IsKept table.new) }
        ensures beside { OnOk result (StepsOn self.old self.new table.old nets.now phase (process_number process) steps.old steps.new) }
        ensures stays { OnOk result (StaysOf self.old self.new) }
    {
        let run = self.run_of(phase, process);
        match self.tried_step(phase, process, run) {
            Some(one) => {
                let stepped = self.step_again(table, phase, process, run, one)?;
                Ok(stepped)
            }
            None => {
                let stepped = self.step_beside(table, nets, phase, process, run, steps)?;
                Ok(stepped)
            }
        }
    }
}
