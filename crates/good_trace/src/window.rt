// A window of the good first run.

ghost use Rattle.std.specs.Prelude.{◌≡◌, ℕ, ◌+◌, ◌<◌, ◌≤◌, Some, IfOk, length, map, slice_get};
ghost use Rattle.std.specs.Option.{option_map};
ghost use Rattle.vf_base.specs.Base.{object_number, node_number, process_number};
ghost use Rattle.v_design.specs.Assignments.{value_at};
ghost use Rattle.v_design.specs.Designs.{good_machine};
ghost use Rattle.v_design.specs.Laws.{HaveWidths};
ghost use Rattle.v_design.specs.Plain.{due_of};
ghost use Rattle.v_design.specs.Runs.{FirstSlot};
ghost use Rattle.trace_window.specs.Moments.{window_events, window_values};
ghost use Rattle.trace_window.specs.Acted.{evaluated_at, stepped_at};
ghost use Rattle.trace_window.specs.Touched.{touched_at, written_at, IsFirstFrom};
ghost use Rattle.trace_window.specs.Writes.{written_of};
ghost use Rattle.v_design.specs.Grades.{Phase};
ghost use Rattle.v_design.specs.OwnSteps.{process_runs};
ghost use Rattle.run_ends.specs.RunEnds.{ender_told};
ghost use Rattle.between_slots.specs.Between.{state_through, activity_through, window_phases};
ghost use Rattle.between_slots.specs.Updates.{updates_through, Rests, LastIsFew, RestingStatesAreTold};
ghost use Rattle.copy_laws.specs.Windows.{IsWindow, good_slots, window_slots, window_steps};
ghost use Rattle.window_runs.specs.OfPhase.{TellsRuns};
ghost use Rattle.good_trace.specs.BesideSlots.{TellsSlots};
ghost use Rattle.good_trace.specs.RunsKept.{Stands, TellsRun};
ghost use Rattle.good_trace.specs.SlotsTold.{AreWritesOf, IsUnwritten, slot_run_ends};

use crate::beside::WindowSlots;
use crate::between::{BetweenSlots, copy_updates};
use crate::ending::GoodEnd;
use crate::events::{Events, changes_between};
use crate::pushed::SlotTable;
use four_value::Vec4;
use process_code::{ProcState, RunEnd, codes_are_one};
use std::alloc::Global;
use std::marker::{Model, PhantomData};
use trace_window::Change;
use v_design::{Due, World};
use vf_base::{NoMemory, NodeId, ObjectId, ProcId};
use window_runs::{PhaseRuns, RunIndex, runs_between, standing_after};

/// Slots of the good first run of the world `N` in a row, which contracts see as how many slots of the run stand before the window and before its end, and how it ends.
#[derive(Drop)]
pub struct TraceWindow<N: World> {
    pub(crate) begins: u64,
    pub(crate) ends: u64,
    pub(crate) last: GoodEnd,
    /// How many phases its slots have.
    pub(crate) phases: u32,
    /// What stands before the window, what its events write and touch, its slots, and the ends of the runs in these by process.
    pub(crate) before: BetweenSlots,
    pub(crate) events: Events,
    pub(crate) slots: SlotTable,
    pub(crate) index: RunIndex,
    pub(crate) world: PhantomData<N>,
}

impl<N: World> Model for TraceWindow<N> {
    ghost use Rattle.good_trace.specs.Slots.{end_of};
    ghost use Rattle.good_trace.specs.Traces.{WindowKept};
    ghost use Rattle.good_trace.specs.RunsKept.{KeepsWindow};

    ghost Value = { WindowKept };

    ghost view = { λ w. record { before = w.begins; through = w.ends; ending = end_of w.last } };

    ghost invariant = { λ w. KeepsWindow N.design N.plan w.begins w.ends (end_of w.last) w.phases w.before w.events w.slots w.index };
}

impl<N: World> TraceWindow<N> {
    ghost use Rattle.good_trace.specs.Slots.{end_of};

    /// The number of slots of the good first run before the window.
    pub fn begins(&self) -> u64
        ensures number { result ≡ self.now.before }
        ensures window { IsWindow N.design N.plan self.now.before self.now.through self.now.ending }
    {
        self.begins
    }

    /// That number with the window's own slots added.
    pub fn ends(&self) -> u64
        ensures number { result ≡ self.now.through }
        ensures slots { self.now.through ≤ self.now.before + 64 }
        ensures steps { window_steps N.design N.plan self.now.before self.now.through ≤ 300000 }
    {
        self.ends
    }

    /// How the window ends.
    pub fn ending(&self) -> GoodEnd
        ensures { end_of result ≡ self.now.ending }
    {
        self.last
    }

    /// How many events the window has. They are numbered through from 0 on, and the number of an event is its moment.
    pub fn moments(&self) -> u32
        ensures { result ≡ length (window_events N.design N.plan self.now.before self.now.through) }
    {
        self.events.count
    }

    /// What an object holds before the event of a moment; behind the last event what it holds at the window's end.
    pub fn value_at(&self, object: ObjectId, moment: u32) -> Vec4
        requires { object_number object < length N.design.objects }
        ensures { result ≡ value_at (window_values N.design N.plan self.now.before self.now.through moment) (object_number object) }
    {
        let first = self.before.values[object.0 as usize];
        self.events.changes.value_at(first, object, moment)
    }

    /// The first moment that isn't before another and at which an event reads or writes an object, a net piece only where that changes; none where none does.
    pub fn next_touch(&self, object: ObjectId, moment: u32) -> Option<u32>
        requires { object_number object < length N.design.objects }
        ensures { IsFirstFrom (touched_at (good_machine N.design) (window_events N.design N.plan self.now.before self.now.through) (object_number object))
            (length (window_events N.design N.plan self.now.before self.now.through)) moment result }
    {
        self.events.touches.first_at_or_after(object.0, moment)
    }

    /// The first moment that isn't before another and at which an event writes an object, a net piece only where that changes; none where none does.
    pub fn next_change(&self, object: ObjectId, moment: u32) -> Option<u32>
        requires { object_number object < length N.design.objects }
        ensures { IsFirstFrom (written_at (good_machine N.design) (window_events N.design N.plan self.now.before self.now.through) (object_number object))
            (length (window_events N.design N.plan self.now.before self.now.through)) moment result }
    {
        self.events.changes.next(object, moment)
    }

    /// The first moment that isn't before another and at which a node is evaluated; none where it isn't.
    pub fn next_evaluation(&self, node: NodeId, moment: u32) -> Option<u32>
        requires { node_number node < length N.design.nodes }
        ensures { IsFirstFrom (evaluated_at (window_events N.design N.plan self.now.before self.now.through) (node_number node))
            (length (window_events N.design N.plan self.now.before self.now.through)) moment result }
    {
        self.events.evaluations.first_at_or_after(node.0, moment)
    }

    /// The first moment that isn't before another and at which a process or its lane takes a step; none where neither does.
    pub fn next_step(&self, process: ProcId, moment: u32) -> Option<u32>
        requires { process_number process < length N.design.processes }
        ensures { IsFirstFrom (stepped_at (window_events N.design N.plan self.now.before self.now.through) (process_number process))
            (length (window_events N.design N.plan self.now.before self.now.through)) moment result }
    {
        self.events.steps.first_at_or_after(process.0, moment)
    }

    /// How many phases the window's slots have. They are numbered through from 1 on.
    pub fn phases(&self) -> u32
        ensures { result ≡ length (window_phases N.design N.plan self.now.before self.now.through) }
    {
        self.phases
    }

    /// How many phases the window's slots before one have, whose number is counted from the window's beginning: so its phases are numbered from one more on.
    pub fn phases_before(&self, slot: u32) -> u32
        requires { self.now.before + slot ≤ self.now.through }
        ensures { result ≡ length (window_phases N.design N.plan self.now.before (self.now.before + slot)) }
    {
        self.slots.beginnings[slot as usize].phases
    }

    /// The end of the run of a number, counted from 0, among those of a process in a phase; none where there are fewer.
    pub fn run(&self, process: ProcId, phase: u32, number: u32) -> Option<&RunEnd>
        requires process { process_number process < length N.design.processes }
        requires phase { (1 ≤ phase) × (phase ≤ length (window_phases N.design N.plan self.now.before self.now.through)) }
        ensures { (before : ℕ) (one : Phase) → phase ≡ before + 1 → slice_get (window_phases N.design N.plan self.now.before self.now.through) before ≡ Some one →
            TellsRun N.design (process_number process) one number (option_map (λ run. run.now) result) }
    {
        codes_are_one();
        self.index.run(&self.slots.runs, process, phase, number)
    }

    /// The runs of a phase.
    pub fn phase_runs(&self, phase: u32) -> PhaseRuns<'_>
        ensures { (before : ℕ) (one : Phase) → phase ≡ before + 1 → slice_get (window_phases N.design N.plan self.now.before self.now.through) before ≡ Some one →
            TellsRuns N.design one.begins.time (λ process. process_runs (good_machine N.design) process one) result }
    {
        codes_are_one();
        PhaseRuns {
            index: &self.index,
            runs: &self.slots.runs,
            phase,
        }
    }

    /// Its slots, for a machine that runs beside them.
    pub fn slots_told(&self) -> WindowSlots<'_>
        ensures { TellsSlots N.design (window_slots N.design N.plan self.now.before self.now.through) result }
    {
        codes_are_one();
        // The numbers of the phases fit.
        let _phases = self.phases;
        WindowSlots {
            times: &self.slots.times,
            beginnings: &self.slots.beginnings,
            index: &self.index,
            runs: &self.slots.runs,
        }
    }

    /// Where a process stands before the window's first slot begins.
    pub fn process_at_beginning(&self, process: ProcId) -> &ProcState
        requires { process_number process < length N.design.processes }
        ensures { Stands N.design (process_number process) (activity_through N.design N.plan self.now.before (process_number process)) result.now }
    {
        codes_are_one();
        &self.before.states[process.0 as usize]
    }

    /// How many slots the window has. They are numbered from 0 on.
    pub fn slots(&self) -> u32
        ensures { self.now.before + result ≡ self.now.through }
    {
        self.slots.times.len() as u32
    }

    /// The time of the slot of a number, in steps.
    pub fn slot_time(&self, slot: u32) -> u64
        requires { self.now.before + slot < self.now.through }
        ensures { (one : FirstSlot) → slice_get (good_slots N.design N.plan) (self.now.before + slot) ≡ Some one → result ≡ one.begins.time }
    {
        self.slots.times[slot as usize]
    }

    /// How many events the window's slots before one have: so what an object holds before that slot is what it holds at this moment. Behind the last slot these are
    /// all events.
    pub fn first_moment(&self, slot: u32) -> u32
        requires { self.now.before + slot ≤ self.now.through }
        ensures moment { result ≡ length (window_events N.design N.plan self.now.before (self.now.before + slot)) }
        ensures values { window_values N.design N.plan self.now.before self.now.through result ≡ (state_through N.design N.plan (self.now.before + slot)).values }
    {
        self.slots.beginnings[slot as usize].moment
    }

    /// Where a process stands before a slot; behind the last slot where it stands at the window's end.
    pub fn state_before(&self, process: ProcId, slot: u32) -> &ProcState
        requires process { process_number process < length N.design.processes }
        requires slot { self.now.before + slot ≤ self.now.through }
        ensures { Stands N.design (process_number process) (activity_through N.design N.plan (self.now.before + slot) (process_number process)) result.now }
    {
        codes_are_one();
        window_runs::ends_go_on();
        between_slots::runs_lead();
        let phases = self.phases_before(slot);
        let first = &self.before.states[process.0 as usize];
        standing_after(
            first,
            self.index.last_through(&self.slots.runs, process, phases),
        )
    }

    /// The nonblocking updates that a process has pending before a slot, in the order of its statements; behind the last slot those at the window's end.
    ///
    /// # Errors
    ///
    /// Want of memory.
    pub fn updates_before(
        &self,
        alloc: Global,
        process: ProcId,
        slot: u32,
    ) -> Result<Vec<Due>, NoMemory>
        requires process { process_number process < length N.design.processes }
        requires slot { self.now.before + slot ≤ self.now.through }
        ensures { IfOk result (λ updates. map due_of updates.items ≡ updates_through N.design N.plan (self.now.before + slot) (process_number process)) }
    {
        window_runs::ends_go_on();
        between_slots::updates_pend();
        let first = self.before.updates[process.0 as usize].as_slice();
        if slot == 0 {
            let copy = copy_updates(alloc, first)?;
            return Ok(copy);
        }
        let time = self.slot_time(slot - 1);
        let phases = self.phases_before(slot);
        let pending = self
            .index
            .pending_through(alloc, &self.slots.runs, process, phases, time, first)?;
        Ok(pending)
    }

    /// In the state before a slot, and behind the last one, each value is as wide as its object, and nothing is left to do before time moves on: no node has work, and
    /// each lane is empty. So that state is told by its time, its values, and what the processes do and have pending.
    ///
    /// It does nothing when it runs.
    pub fn rests_before(&self, slot: u32)
        requires { self.now.before + slot ≤ self.now.through }
        ensures rests { Rests N.design (state_through N.design N.plan (self.now.before + slot)) }
        ensures widths { HaveWidths (good_machine N.design) (state_through N.design N.plan (self.now.before + slot)).values }
        ensures told { RestingStatesAreTold }
        ensures few { LastIsFew N.design N.plan (self.now.before + slot) }
    {
        between_slots::updates_pend();
        // What the window keeps says so.
        let _last = self.last;
    }

    /// The changes of objects in the events of a slot, in order: each write of a variable, also where that keeps its value, and each change of a net piece. So an object
    /// without a change holds behind the slot what it held before.
    pub fn changes_in(&self, slot: u32) -> &[Change]
        requires { self.now.before + slot < self.now.through }
        ensures changes { AreWritesOf (good_machine N.design) (window_events N.design N.plan (self.now.before + slot) (self.now.before + slot + 1))
            (length (window_events N.design N.plan self.now.before (self.now.before + slot))) (map written_of result.now) }
        ensures others { (object : ℕ) → object < length N.design.objects → IsUnwritten object result.now →
            value_at (state_through N.design N.plan (self.now.before + slot + 1)).values object ≡ value_at (state_through N.design N.plan (self.now.before + slot)).values object }
    {
        let first = self.slots.beginnings[slot as usize].changes;
        let end = self.slots.beginnings[slot as usize + 1].changes;
        changes_between(self.events.changes.all(), first, end)
    }

    /// The runs that end in a slot, in the order in which they end: so a process steps in the slot just where it has one.
    pub fn runs_in(&self, slot: u32) -> &[RunEnd]
        requires { self.now.before + slot < self.now.through }
        ensures { map ender_told result.now ≡ slot_run_ends N.design N.plan self.now.before (self.now.before + slot) }
    {
        window_runs::ends_go_on();
        // The window has more slots than stand before this one, and their number fits.
        let _all = self.slots();
        let after = self.phases_before(slot);
        let through = self.phases_before(slot + 1);
        runs_between(&self.slots.runs, after, through)
    }
}
