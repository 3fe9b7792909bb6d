// A slot run beside the good machine's slot of its time.

ghost use Rattle.std.specs.Prelude.{◌≡◌, ◌≤◌, ◌^◌, ℕ, List, length, Option, Some, IfOk, IsSomeAnd, OnOk, find, nat_eq};
ghost use Rattle.v_design.specs.Designs.{good_machine};
ghost use Rattle.v_design.specs.OwnSteps.{phases_if, slot_beside};
ghost use Rattle.v_design.specs.Runs.{FirstSlot};
ghost use Rattle.v_design.specs.States.{State};
ghost use Rattle.causal_monitor.specs.declared.slot.Turn.TheVariants as turns;
ghost use Rattle.machine_laws.specs.SlotLoop.{first_moment, slot_from};
ghost use Rattle.own_slots.specs.Slots.{WereTried};
ghost use Rattle.window_runs.specs.OfSlot.{TellsSlot};
ghost use Rattle.machine.specs.BesideRuns.{MayGoBeside, TicksAtMostOwn};
ghost use Rattle.machine.specs.Guides.{Counts, HasCounted, StaysGuide};
ghost use Rattle.machine.specs.Standing.{IsStanding, RunsSlot, EveryOrderEndsHere, machine_kept, begins_next, first_turn, notes_runs};

use crate::end::SlotEnd;
use crate::guide::Guide;
use crate::parts::Machine;
use causal_monitor::SlotLog;
use good_runs::TriedStep;
use runs_beside::RunsBeside;
use std::alloc::Global;
use std::sync::ledger::Ledger;
use vf_base::{NoMemory, Steps};
use window_runs::SlotRuns;

impl<'d> Machine<'d> {
    /// Runs the next slot in the first order, its steps made in a way that is told, to which a counter went at the slot's beginning.
    ///
    /// # Errors
    ///
    /// Want of memory.
    pub(crate) fn run_slot<L: Ledger>(
        &mut self,
        log: &mut SlotLog,
        guide: &mut Guide<'_>,
        steps: &mut Steps<L>,
    ) -> Result<SlotEnd, NoMemory>
        requires standing { IsStanding self.old }
        requires left { IsSomeAnd (begins_next self.old) (λ begins. begins.time ≤ 2 ^ 63) }
        requires counts { (begins : State) → begins_next self.old ≡ Some begins → Counts guide.old (machine_kept self.old) (first_moment begins) steps.old steps.old }
        ensures machine { IfOk result (λ _. machine_kept self.new ≡ machine_kept self.old) }
        ensures slot { IfOk result (λ end. (begins : State) → begins_next self.old ≡ Some begins →
            RunsSlot (machine_kept self.old) begins (first_turn self.old.stage) end self.new log.new) }
        ensures stays { OnOk result (StaysGuide guide.old guide.new) }
        ensures counts { IfOk result (λ _. (begins : State) → begins_next self.old ≡ Some begins → HasCounted (machine_kept self.old) begins guide.new steps.old steps.new) }
        ensures every_order { IfOk result (λ _. (begins : State) → begins_next self.old ≡ Some begins → EveryOrderEndsHere (machine_kept self.old) begins self.new) }
        ensures standing { IfOk result (λ _. IsStanding self.new) }
        ensures notes { IfOk result (λ _. notes_runs self.new ≡ notes_runs self.old) }
        ensures turn { IfOk result (λ _. first_turn self.new.stage ≡ turns.Time) }
    {
        order_laws::fine_slots();
        self.begin_slot(log)?;
        let hyper = self.run(log, guide, steps)?;
        let end = self.finish(log, hyper)?;
        Ok(end)
    }

    /// Runs the next slot as `slot` does, but beside the good machine's slot of that time, of which `goods` has the runs: a step of a run that goes as the good machine's is
    /// brought from there, and one that was tried in this slot before, as `tried` has them in their order, from there. `steps` ticks once for each other step of a
    /// process: together with those that were tried at most once for each own step of the slot.
    ///
    /// # Errors
    ///
    /// Want of memory.
    pub fn slot_beside<'w, L: Ledger>(
        &mut self,
        alloc: Global,
        log: &mut SlotLog,
        goods: &SlotRuns<'w>,
        tried: &'w [TriedStep],
        steps: &mut Steps<L>,
    ) -> Result<SlotEnd, NoMemory>
        requires standing { IsStanding self.old }
        requires left { IsSomeAnd (begins_next self.old) (λ begins. begins.time ≤ 2 ^ 63) }
        requires goods { MayGoBeside (machine_kept self.old) (begins_next self.old) goods.now tried.now }
        ensures machine { IfOk result (λ _. machine_kept self.new ≡ machine_kept self.old) }
        ensures slot { IfOk result (λ end. (begins : State) → begins_next self.old ≡ Some begins →
            RunsSlot (machine_kept self.old) begins (first_turn self.old.stage) end self.new log.new) }
        ensures ticks { IfOk result (λ _. (begins : State) (good_slots : List FirstSlot) (found : Option FirstSlot) → begins_next self.old ≡ Some begins →
            find (λ (other : FirstSlot). nat_eq other.begins.time begins.time) good_slots ≡ found →
            TellsSlot (machine_kept self.old).design begins.time (phases_if (good_machine (machine_kept self.old).design) found) goods.now →
            WereTried (good_machine (machine_kept self.old).design) (machine_kept self.old) (phases_if (good_machine (machine_kept self.old).design) found) begins tried.now →
            TicksAtMostOwn (slot_beside (good_machine (machine_kept self.old).design) (machine_kept self.old) good_slots (slot_from (machine_kept self.old) begins)) (length tried.now)
            steps.old steps.new) }
        ensures every_order { IfOk result (λ _. (begins : State) → begins_next self.old ≡ Some begins → EveryOrderEndsHere (machine_kept self.old) begins self.new) }
        ensures standing { IfOk result (λ _. IsStanding self.new) }
        ensures notes { IfOk result (λ _. notes_runs self.new ≡ notes_runs self.old) }
        ensures turn { IfOk result (λ _. first_turn self.new.stage ≡ turns.Time) }
    {
        runs_beside::runs_go_beside();
        let processes = self.graph.design.processes.as_slice().len();
        let kept = RunsBeside::new(alloc, processes, *goods, tried)?;
        let mut guide = Guide::Beside(kept);
        let end = self.run_slot(log, &mut guide, steps)?;
        Ok(end)
    }
}
