// The good first run as it is pushed.

ghost use Rattle.std.specs.Prelude.{◌≡◌, ◌+◌, ◌-◌, ◌<◌, ◌≤◌, false, IfOk, OnOk, OnErr};
ghost use Rattle.copy_laws.specs.Windows.{IsWindow, window_steps};
ghost use Rattle.good_trace.specs.Slots.{IsSlotAt, is_full, end_of};

use crate::between::{BetweenSlots, first_states, no_updates};
use crate::closing::{Closed, close_slots};
use crate::ending::GoodEnd;
use crate::first::first_values;
use crate::pushed::{PushedSlots, let_go};
use crate::setup::Setup;
use crate::slot::{count_steps, phases_after};
use crate::spare::{Spare, spare_of};
use crate::window::TraceWindow;
use causal_monitor::SlotLog;
use process_code::RunEnd;
use std::alloc::Global;
use std::marker::{Model, PhantomData};
use std::mem;
use v_design::World;
use vf_base::{NoMemory, WINDOW_SLOTS, WINDOW_STEPS};
use window_runs::number_from;

/// The good first run of the world `N` as it is pushed, which contracts see as the code of each process, how many slots were pushed, and how many of these stand in
/// windows that were closed.
#[derive(Drop)]
pub struct Trace<'s, 'd, N: World> {
    alloc: Global,
    setup: &'s Setup<'d, N>,
    /// What stands after the last close; the slots since then, their process and lane steps, and their phases.
    before: BetweenSlots,
    slots: PushedSlots,
    steps: u32,
    phases: u32,
    /// The ends of the runs of a window that is done with, as far as their memory isn't let go yet.
    spent: Vec<RunEnd>,
    pushed: u64,
    closed: u64,
}

impl<'s, 'd, N: World> Model for Trace<'s, 'd, N> {
    ghost use Rattle.good_trace.specs.Traces.{TraceKept};
    ghost use Rattle.good_trace.specs.RunsKept.{KeepsTrace};

    ghost Value = { TraceKept };

    ghost use Rattle.std.specs.Coded.{codes};
    ghost use Rattle.v_design.specs.contracts.tree.FlatExpr as expressions;
    ghost use Rattle.v_design.specs.contracts.tree.FlatStmt as statements;

    ghost coded = { Prim.hlevel (codes, expressions.the_row.coded, statements.the_row.coded) };

    ghost view = { λ t. record { codes = t.setup.now.codes; pushed = t.pushed; closed = t.closed } };

    ghost invariant = { λ t. KeepsTrace t.setup.now.codes N.design N.plan t.pushed t.closed t.steps t.phases t.before t.slots };
}

/// Whether a window that has so many slots and steps is full.
fn is_full(slots: usize, steps: u32) -> bool
    ensures { result ≡ is_full slots steps }
{
    slots >= WINDOW_SLOTS as usize || steps >= WINDOW_STEPS
}

impl<'s, 'd, N: World> Trace<'s, 'd, N> {
    /// A trace of no slots.
    ///
    /// # Errors
    ///
    /// Want of memory.
    pub fn new(alloc: Global, setup: &'s Setup<'d, N>) -> Result<Trace<'s, 'd, N>, NoMemory>
        ensures codes { IfOk result (λ trace. trace.codes ≡ setup.now.codes) }
        ensures none { IfOk result (λ trace. (trace.pushed ≡ 0) × (trace.closed ≡ 0)) }
    {
        let values = first_values(alloc, setup.design, setup.graph)?;
        let codes = setup.codes();
        let states = first_states(alloc, codes)?;
        let updates = no_updates(alloc, codes.len())?;
        let slots = PushedSlots::none(alloc)?;
        Ok(Trace {
            alloc,
            setup,
            before: BetweenSlots {
                values,
                states,
                updates,
            },
            slots,
            steps: 0,
            phases: 0,
            spent: Vec::new(alloc),
            pushed: 0,
            closed: 0,
        })
    }

    /// Puts the next slot of the good first run at the end, by its log and the ends of its process runs, and tells whether the window is full now. What the window needs
    /// of the log is gathered from it, so the log stays the caller's.
    ///
    /// # Errors
    ///
    /// Want of memory, or no further number of a moment. The trace is as before then.
    pub fn push(&mut self, log: &SlotLog, mut runs: Vec<RunEnd>) -> Result<bool, NoMemory>
        requires next { IsSlotAt self.old.codes N.design N.plan self.old.pushed log.now runs.items }
        requires room { is_full (self.old.pushed - self.old.closed) (window_steps N.design N.plan self.old.closed self.old.pushed) ≡ false }
        ensures pushed { OnOk result (self.new ≡ record self.old { pushed = self.old.pushed + 1 }) }
        ensures full { IfOk result (λ full. full ≡ is_full (self.new.pushed - self.new.closed) (window_steps N.design N.plan self.new.closed self.new.pushed)) }
        ensures err { OnErr result (self.new ≡ self.old) }
    {
        machine_laws::phases_are_few();
        window_runs::ends_go_on();
        let steps = count_steps(log);
        let phases = phases_after(self.phases, log);
        number_from(&mut runs, self.phases);
        let_go(&mut self.spent, runs.len());
        let sizes = self.setup.sizes();
        self.slots.push(sizes, log, runs, phases)?;
        self.phases = phases;
        self.steps += steps;
        self.pushed += 1;
        Ok(is_full(self.slots.table.times.len(), self.steps))
    }

    /// The slots since the last close as a window, which ends as is told. The memory of a window that is done with is used again, if one is given: then memory is taken
    /// only where the window has more of something than ever.
    ///
    /// # Errors
    ///
    /// Want of memory, or no further number of a change. The trace is as before then.
    pub fn close_window(
        &mut self,
        last: GoodEnd,
        used: Option<TraceWindow<N>>,
    ) -> Result<TraceWindow<N>, NoMemory>
        requires some { self.old.closed < self.old.pushed }
        requires last { IsWindow N.design N.plan self.old.closed self.old.pushed (end_of last) }
        ensures window { IfOk result (λ window. window ≡ record { before = self.old.closed; through = self.old.pushed; ending = end_of last }) }
        ensures slots { IfOk result (λ window. window.through ≤ window.before + 64) }
        ensures steps { IfOk result (λ window. window_steps N.design N.plan window.before window.through ≤ 300000) }
        ensures closed { OnOk result (self.new ≡ record self.old { closed = self.old.pushed }) }
        ensures err { OnErr result (self.new ≡ self.old) }
    {
        window_runs::ends_go_on();
        between_slots::runs_lead();
        between_slots::updates_pend();
        let sizes = self.setup.sizes();
        let spare = spare_of(
            self.alloc,
            sizes,
            &self.before.values,
            used,
            &mut self.spent,
        )?;
        let Spare {
            closed: memory,
            table,
        } = spare;
        let closed = close_slots(
            self.alloc,
            sizes,
            memory,
            &self.before,
            &mut self.slots,
            self.phases,
        )?;
        let Closed {
            events,
            index,
            later,
        } = closed;
        let slots = mem::replace(&mut self.slots.table, table);
        let beginning = mem::replace(&mut self.before, later);
        let begins = self.closed;
        let ends = self.pushed;
        let phases = self.phases;
        self.closed = ends;
        self.steps = 0;
        self.phases = 0;
        Ok(TraceWindow {
            begins,
            ends,
            last,
            phases,
            before: beginning,
            events,
            slots,
            index,
            world: PhantomData,
        })
    }
}
