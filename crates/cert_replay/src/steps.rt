// Steps of processes and of their lanes.

ghost use Rattle.std.specs.Prelude.{◌≡◌, ◌≤◌, ◌^◌, true, IfOk, OnOk};
ghost use Rattle.vf_base.specs.Base.{process_number};
ghost use Rattle.process_table.specs.Arranged.{IsKept, table_of};
ghost use Rattle.cert_laws.specs.Replays.{next_line, step_on};
ghost use Rattle.cert_replay.specs.Kept.{Follows, IsReplaying, claims_race, bound_kept, time_kept, event_by, line_by};
ghost use Rattle.cert_replay.specs.Deeds.{TakesStep, may_step};

use crate::replaying::{Replaying, Stepper};
use machine_events::{step_lane, step_process};
use process_table::ProcessTable;
use std::sync::ledger::Ledger;
use vf_base::{MAX_SLOT_STEPS, NoMemory, ProcId, Steps};

/// Whether a step of a process or of its lane is possible.
fn may_step(table: &ProcessTable, stepper: Stepper, process: ProcId) -> bool
    requires { IsKept table.now }
    ensures { result ≡ may_step (table_of table.now) stepper (process_number process) }
{
    match stepper {
        Stepper::Process => table.is_ready(process),
        Stepper::Lane => table.has_lane(process),
    }
}

impl<'d> Replaying<'d> {
    /// A process or its lane takes a step, which is possible and counted; the node events that follow are still to be done.
    ///
    /// # Errors
    ///
    /// Want of memory.
    fn take_step<L: Ledger>(
        &mut self,
        stepper: Stepper,
        process: ProcId,
        steps: &mut Steps<L>,
    ) -> Result<(), NoMemory>
        requires replaying { IsReplaying self.old }
        requires low { time_kept self.old ≤ 2 ^ 63 }
        requires possible { may_step (table_of self.old.table) stepper (process_number process) ≡ true }
        ensures { OnOk result (TakesStep (event_by stepper (process_number process)) self.old self.new) }
    {
        race_laws::writes_stay();
        match stepper {
            Stepper::Process => {
                step_process(
                    &mut self.nets,
                    &mut self.table,
                    &mut self.record,
                    &mut self.told,
                    process,
                    steps,
                )?;
                Ok(())
            }
            Stepper::Lane => {
                step_lane(
                    &mut self.nets,
                    &mut self.table,
                    &mut self.record,
                    &mut self.told,
                    process,
                )?;
                Ok(())
            }
        }
    }

    /// A process or its lane takes a step, where one is possible and the slot may have one more, and then all node events are done. The answer is whether it did.
    ///
    /// # Errors
    ///
    /// Want of memory.
    fn step_once<L: Ledger>(
        &mut self,
        stepper: Stepper,
        process: ProcId,
        steps: &mut Steps<L>,
    ) -> Result<bool, NoMemory>
        requires replaying { IsReplaying self.old }
        requires low { time_kept self.old ≤ 2 ^ 63 }
        ensures { IfOk result (λ went. Follows (λ machine replay. step_on machine (event_by stepper (process_number process)) replay) went self.old self.new) }
    {
        if self.steps >= MAX_SLOT_STEPS {
            return Ok(false);
        }
        if !may_step(&self.table, stepper, process) {
            return Ok(false);
        }
        self.steps += 1;
        self.take_step(stepper, process, steps)?;
        self.settle()?;
        Ok(true)
    }

    /// A process or its lane takes so many steps, at least one; after each all node events are done. The answer is whether the run goes on: each step is possible, and
    /// the slot has at most 100,000 steps. The time is so low that no delay leads past 64 bits.
    ///
    /// # Errors
    ///
    /// Want of memory.
    pub fn step<L: Ledger>(
        &mut self,
        stepper: Stepper,
        process: u64,
        count: u64,
        steps: &mut Steps<L>,
    ) -> Result<bool, NoMemory>
        requires replaying { IsReplaying self.old }
        requires low { time_kept self.old ≤ 2 ^ 63 }
        ensures { IfOk result (λ went. Follows (λ machine replay. next_line (claims_race self.old) machine (bound_kept self.old)
            (line_by stepper process count) replay) went self.old self.new) }
    {
        if count == 0 {
            return Ok(false);
        }
        let Ok(number) = u32::try_from(process) else {
            return Ok(false);
        };
        let mut left = count;
        'steps: while left > 0 {
            if !self.step_once(stepper, ProcId(number), steps)? {
                return Ok(false);
            }
            left -= 1;
        }
        Ok(true)
    }
}
