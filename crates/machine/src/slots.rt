// The beginning and the end of a slot.

ghost use Rattle.std.specs.Prelude.{◌≡◌, ◌≤◌, ◌^◌, ℕ, IfOk, OnOk, IsSomeAnd};
ghost use Rattle.machine.specs.Standing.{IsStanding, begins_next, outcome_of};
ghost use Rattle.machine.specs.Phases.{IsBegun, BeginsSlotHere, IsEnded, FinishesSlot, outcome_told, stage_after};

use crate::end::SlotEnd;
use crate::parts::{Machine, Stage};
use crate::phases::turn_to_slot;
use causal_monitor::SlotLog;
use machine_events::begin_phase;
use vf_base::{NoMemory, Pair};

/// How a slot ends, by whether it is hyperactive and by its first race.
fn end_of(hyper: bool, race: Option<Pair>) -> SlotEnd
    ensures { outcome_of result ≡ outcome_told hyper race }
{
    if hyper {
        return SlotEnd::Hyper;
    }
    match race {
        Some(pair) => SlotEnd::Race(pair),
        None => SlotEnd::Fine,
    }
}

/// Where a machine stands after a slot.
fn stage_after(hyper: bool) -> Stage
    ensures { result ≡ stage_after hyper }
{
    if hyper { Stage::Over } else { Stage::Between }
}

impl<'d> Machine<'d> {
    /// The next slot begins, with its first phase.
    ///
    /// # Errors
    ///
    /// Want of memory.
    pub(crate) fn begin_slot(&mut self, log: &mut SlotLog) -> Result<(), NoMemory>
        requires standing { IsStanding self.old }
        requires left { IsSomeAnd (begins_next self.old) (λ begins. begins.time ≤ 2 ^ 63) }
        ensures { OnOk result (BeginsSlotHere self.old self.new log.new) }
    {
        machine_laws::slot_goes_on();
        race_laws::writes_stay();
        run_record::runs_go_on();
        let turn = turn_to_slot(self.stage, &mut self.table)?;
        self.record.begin_slot(log)?;
        self.runs.begin_slot();
        begin_phase(&self.table, &mut self.record, &mut self.told, turn)?;
        Ok(())
    }

    /// The slot's last phase ends.
    ///
    /// # Errors
    ///
    /// Want of memory.
    pub(crate) fn finish(&mut self, log: &mut SlotLog, hyper: bool) -> Result<SlotEnd, NoMemory>
        requires { IsEnded hyper self.old log.old }
        ensures { IfOk result (λ end. FinishesSlot hyper end self.old self.new log.old log.new) }
    {
        machine_laws::slot_ends();
        order_laws::first_run_goes_on();
        run_record::runs_go_on();
        self.record.end_phase(self.graph, log)?;
        log.time = self.table.time();
        self.stage = stage_after(hyper);
        Ok(end_of(hyper, self.record.race()))
    }
}
