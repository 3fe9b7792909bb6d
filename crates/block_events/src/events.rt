// The events of a block.

ghost use Rattle.std.specs.Prelude.{◌≡◌, ◌≤◌, ◌<◌, ◌^◌, Some, None, IfOk, OnOk, length};
ghost use Rattle.vf_base.specs.Base.{node_number, process_number};
ghost use Rattle.vf_base.specs.Counts.{raised};
ghost use Rattle.v_design.specs.States.{Evaluation};
ghost use Rattle.v_design.specs.Runs.{work_of};
ghost use Rattle.v_design.specs.WellFormed.{KeepsRules};
ghost use Rattle.race_laws.specs.Writes.{WritesAreOf};
ghost use Rattle.machine_laws.specs.SlotLoop.{NoNodeWorks, first_lane, first_ready};
ghost use Rattle.net_state.specs.States.{nodes_in};
ghost use Rattle.process_code.specs.StatesOf.{IsStateOf};
ghost use Rattle.process_code.specs.declared.code.Code.{Code};
ghost use Rattle.run_ends.specs.RunEnds.{IsCodeAt};
ghost use Rattle.process_table.specs.Known.{IsKnownStep};
ghost use Rattle.block_events.specs.Runners.{IsWhole, machine_of, state_of};
ghost use Rattle.block_told.specs.Tells.{IsUntold};
ghost use Rattle.block_events.specs.Going.{IsTakenStep, WorksOn, Settles, StepsOn, LaneStepsOn, node_events};

use crate::runner::Runner;
use block_told::{BlockTold, note_step};
use machine_events::{follow_alone, lane_alone, node_alone, step_alone};
use process_code::{ProcState, StepAct};
use process_table::Act;
use std::sync::ledger::Ledger;
use v_design::Due;
use vf_base::{NoMemory, NodeId, ProcId, Steps};

/// A step that a process took: the line of its statement, what it did, and where the process stands behind it.
#[derive(Drop)]
pub struct TakenStep {
    pub line: u32,
    pub act: StepAct,
    pub state: ProcState,
}

impl<'d> Runner<'d> {
    /// The least node with work is evaluated, and its nets get the values, behind a step of a process in a line.
    fn work(
        &mut self,
        node: NodeId,
        told: &mut BlockTold,
        process: ProcId,
        line: u32,
    ) -> Result<(), NoMemory>
        requires whole { IsWhole self.old }
        requires there { node_number node < length (nodes_in self.old.nets) }
        requires node { work_of 0 (state_of self.old).nodes ≡ Some (Evaluation (node_number node)) }
        ensures { OnOk result (WorksOn (node_events (node_number node)) self.old self.new told.old told.new) }
    {
        machine_laws::phases_go_on();
        copy_laws::moves();
        node_alone(&mut self.nets, &mut self.table, &mut self.told, node)?;
        told.add_node(&self.told, process, line)?;
        Ok(())
    }

    /// Behind a step of a process in a line nodes are worked on, the least first, until none has work. It answers whether none has: so it is, but after 2^64 - 1 of them.
    ///
    /// # Errors
    ///
    /// Want of memory.
    pub fn settle(
        &mut self,
        told: &mut BlockTold,
        process: ProcId,
        line: u32,
    ) -> Result<bool, NoMemory>
        requires { IsWhole self.old }
        ensures { IfOk result (λ quiet. Settles quiet self.old self.new told.old told.new) }
    {
        'nodes: for worked in 0..u64::MAX {
            let Some(node) = self.nets.least_node() else {
                return Ok(true);
            };
            self.work(node, told, process, line)?;
        }
        Ok(false)
    }

    /// The least ready process takes a step, where no node has work and no lane has an update; `steps` ticks once. It answers the step. Each process is still
    /// to write objects of the design alone, and so it is behind the step (`race_laws::writes_stay`).
    ///
    /// # Errors
    ///
    /// Want of memory.
    pub fn take_step<L: Ledger>(
        &mut self,
        process: ProcId,
        told: &mut BlockTold,
        steps: &mut Steps<L>,
    ) -> Result<TakenStep, NoMemory>
        requires whole { IsWhole self.old }
        requires nodes { NoNodeWorks (state_of self.old) }
        requires lanes { first_lane (state_of self.old) ≡ None }
        requires ready { first_ready (state_of self.old) ≡ Some (process_number process) }
        requires time { (state_of self.old).time ≤ 2 ^ 63 }
        requires room { told.old.steps < 2 ^ 63 }
        requires rules { KeepsRules (machine_of self.old).design }
        requires writes { WritesAreOf (machine_of self.old).design (state_of self.old) }
        ensures goes { OnOk result (StepsOn (process_number process) self.old self.new told.old told.new) }
        ensures step { IfOk result (λ taken. IsTakenStep (machine_of self.old) (state_of self.old) (process_number process) taken) }
        ensures ticks { OnOk result (steps.new ≡ raised steps.old) }
    {
        machine_laws::phases_go_on();
        copy_laws::moves();
        race_laws::writes_stay();
        let step = step_alone(
            &mut self.nets,
            &mut self.table,
            &mut self.told,
            process,
            steps,
        )?;
        let ready = self.table.is_ready(process);
        let begins = note_step(&mut self.running, process, ready)?;
        told.count_step(process, begins)?;
        told.add_step(&self.told)?;
        Ok(TakenStep {
            line: step.stepped.line,
            act: step.stepped.kept_act(),
            state: step.state,
        })
    }

    /// The least ready process takes a step that is known, where no node has work and no lane has an update: it does what the step does, and stands then at a state, which may be one of any code of
    /// the process. Its code isn't run. It answers the line of the step's statement. Each process is still to write objects of the design alone, and so it is behind the step (`race_laws::writes_stay`).
    ///
    /// # Errors
    ///
    /// Want of memory.
    pub fn follow_step(
        &mut self,
        process: ProcId,
        told: &mut BlockTold,
        line: u32,
        act: StepAct,
        next: &ProcState,
    ) -> Result<u32, NoMemory>
        requires whole { IsWhole self.old }
        requires nodes { NoNodeWorks (state_of self.old) }
        requires lanes { first_lane (state_of self.old) ≡ None }
        requires ready { first_ready (state_of self.old) ≡ Some (process_number process) }
        requires room { told.old.steps < 2 ^ 63 }
        requires rules { KeepsRules (machine_of self.old).design }
        requires writes { WritesAreOf (machine_of self.old).design (state_of self.old) }
        requires stands { (code : Code) → IsCodeAt (machine_of self.old).design (process_number process) code → IsStateOf code next.now }
        requires known { IsKnownStep (machine_of self.old) (state_of self.old) (process_number process) line act next.now }
        ensures { OnOk result (StepsOn (process_number process) self.old self.new told.old told.new) }
    {
        machine_laws::phases_go_on();
        copy_laws::moves();
        race_laws::writes_stay();
        let followed = follow_alone(
            &mut self.nets,
            &mut self.table,
            &mut self.told,
            process,
            line,
            act,
            next,
        )?;
        // Named, since what checks borrows here has to be told of the types of a step's parts.
        let _done: Option<Act> = followed.act;
        let _later: Option<Due> = followed.later;
        let ready = self.table.is_ready(process);
        let first = note_step(&mut self.running, process, ready)?;
        told.count_step(process, first)?;
        told.add_step(&self.told)?;
        Ok(followed.line)
    }

    /// The least lane's first update is written, where no node has work. It is the first event of the block. It answers the line of its statement. Each process is still to
    /// write objects of the design alone, and so it is behind the write (`race_laws::writes_stay`).
    ///
    /// # Errors
    ///
    /// Want of memory.
    pub fn take_lane(&mut self, process: ProcId, told: &mut BlockTold) -> Result<u32, NoMemory>
        requires whole { IsWhole self.old }
        requires nodes { NoNodeWorks (state_of self.old) }
        requires lanes { first_lane (state_of self.old) ≡ Some (process_number process) }
        requires told { IsUntold told.old }
        requires rules { KeepsRules (machine_of self.old).design }
        requires writes { WritesAreOf (machine_of self.old).design (state_of self.old) }
        ensures { OnOk result (LaneStepsOn (process_number process) self.old self.new told.new) }
    {
        machine_laws::phases_go_on();
        copy_laws::moves();
        race_laws::writes_stay();
        let update = lane_alone(&mut self.nets, &mut self.table, &mut self.told, process)?;
        told.lane = Some(process);
        told.steps = 1;
        told.add_step(&self.told)?;
        Ok(update.line)
    }
}
