// A step of a process or of its lane.

ghost use Rattle.std.specs.Prelude.{◌≡◌, Some, None, OnOk};
ghost use Rattle.vf_base.specs.Base.{process_number};
ghost use Rattle.v_design.specs.States.{Step, LaneStep};
ghost use Rattle.machine_laws.specs.SlotLoop.{NoNodeWorks, first_lane, first_ready, after_event};
ghost use Rattle.machine.specs.Standing.{state_kept};
ghost use Rattle.machine.specs.Guides.{CountsOn, IsMovingBy, StaysGuide};
ghost use Rattle.machine.specs.Moments.{IsMoving, GoesOn};

use crate::guide::Guide;
use crate::parts::Machine;
use crate::runs::{note_run, state_before};
use machine_events::{finish_step, step_lane};
use std::sync::ledger::Ledger;
use vf_base::{NoMemory, ProcId, Steps};

impl<'d> Machine<'d> {
    /// The least ready process takes a step, where no node has work and no lane has an update.
    ///
    /// # Errors
    ///
    /// Want of memory.
    pub(crate) fn process_step<L: Ledger>(
        &mut self,
        guide: &mut Guide<'_>,
        process: ProcId,
        steps: &mut Steps<L>,
    ) -> Result<(), NoMemory>
        requires moving { IsMovingBy guide.old steps.old self.old }
        requires nodes { NoNodeWorks (state_kept self.old) }
        requires lanes { first_lane (state_kept self.old) ≡ None }
        requires ready { first_ready (state_kept self.old) ≡ Some (process_number process) }
        ensures goes_on { OnOk result (GoesOn (λ machine at. after_event machine (Step (process_number process)) at) self.old self.new) }
        ensures counts { OnOk result (CountsOn (λ machine at. after_event machine (Step (process_number process)) at) guide.old guide.new steps.old steps.new self.old) }
        ensures stays { OnOk result (StaysGuide guide.old guide.new) }
    {
        machine_laws::slot_goes_on();
        race_laws::writes_stay();
        runs_beside::runs_go_beside();
        let number = self.record.number();
        let before = state_before(&self.table, self.noting, process)?;
        let stepped = guide.step(&mut self.table, &self.nets, number, process, steps)?;
        note_run(
            &mut self.runs,
            before,
            &self.nets,
            &self.table,
            number,
            process,
            &stepped,
        )?;
        finish_step(
            &mut self.nets,
            &mut self.table,
            &mut self.record,
            &mut self.told,
            process,
            &stepped,
        )?;
        Ok(())
    }

    /// The least lane's first update is written, where no node has work.
    ///
    /// # Errors
    ///
    /// Want of memory.
    pub(crate) fn lane_step(&mut self, process: ProcId) -> Result<(), NoMemory>
        requires moving { IsMoving self.old }
        requires nodes { NoNodeWorks (state_kept self.old) }
        requires lanes { first_lane (state_kept self.old) ≡ Some (process_number process) }
        ensures { OnOk result (GoesOn (λ machine at. after_event machine (LaneStep (process_number process)) at) self.old self.new) }
    {
        machine_laws::slot_goes_on();
        race_laws::writes_stay();
        run_record::runs_go_on();
        step_lane(
            &mut self.nets,
            &mut self.table,
            &mut self.record,
            &mut self.told,
            process,
        )?;
        Ok(())
    }
}
