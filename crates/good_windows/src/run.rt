// The good machine's run.

ghost use Rattle.std.specs.Prelude.{◌≡◌, ◌+◌, ◌≤◌, true, IfOk, OnOk};
ghost use Rattle.good_windows.specs.Next.{GivesNext, steps_of_slots};
ghost use Rattle.good_windows.specs.Stages.{IsAtStart};

use crate::fill::go_on;
use crate::next::{NextWindow, give};
use crate::slot::empty_log;
use crate::stage::Stage;
use causal_monitor::SlotLog;
use good_trace::Setup;
use machine::Machine;
use run_trace::{RunTrace, RunWindow};
use std::alloc::Global;
use std::marker::Model;
use std::sync::ledger::Ledger;
use v_design::World;
use vf_base::{NoMemory, Steps};

/// The good machine of the world `N` in its first run, with the slots that it ran since the last window. Contracts see it as how many slots of the good first run
/// stand in windows so far, how many were run, and whether it may be used: after a call that ran out of memory it isn't to be used again.
pub struct GoodRun<'s, 'd, N: World> {
    /// The plan's end.
    end: u64,
    machine: Machine<'d>,
    run: RunTrace<'s, 'd, N>,
    /// The memory for the log of the slot that is run.
    log: SlotLog,
    stage: Stage,
}

// Written out, so that its parts are let go of here alone.
impl<'s, 'd, N: World> Drop for GoodRun<'s, 'd, N> {
    fn drop(self) {
        let GoodRun {
            end: _,
            machine: _,
            run: _,
            log: _,
            stage: _,
        } = self;
    }
}

impl<'s, 'd, N: World> Model for GoodRun<'s, 'd, N> {
    ghost use Rattle.good_windows.specs.Next.{RunKept};

    ghost Value = { RunKept };

    ghost use Rattle.good_windows.specs.Stages.{IsGoodRun, is_usable, run_through};

    ghost view = { λ r. record { gone = r.run.trace.closed; ran = run_through r.run.trace.closed r.stage; usable = is_usable r.stage } };

    ghost invariant = { λ r. IsGoodRun N.design N.plan r.end r.machine r.run r.stage };
}

/// The good machine of a setup at its start, which notes the ends of its process runs.
fn noting_machine<'s, 'd, N: World>(
    alloc: Global,
    setup: &'s Setup<'d, N>,
) -> Result<Machine<'d>, NoMemory>
    ensures { IfOk result (λ m. IsAtStart N.design m) }
{
    let mut machine = Machine::new(alloc, setup.design(), setup.graph(), None)?;
    machine.note_runs(alloc)?;
    Ok(machine)
}

impl<'s, 'd, N: World> GoodRun<'s, 'd, N> {
    /// The good machine of a setup at the start of its run.
    ///
    /// # Errors
    ///
    /// Want of memory.
    pub fn new(alloc: Global, setup: &'s Setup<'d, N>) -> Result<GoodRun<'s, 'd, N>, NoMemory>
        ensures none { IfOk result (λ run. run.gone ≡ 0) }
        ensures ran { IfOk result (λ run. run.ran ≡ 0) }
        ensures usable { IfOk result (λ run. run.usable ≡ true) }
    {
        order_laws::first_run_goes_on();
        let design = setup.design();
        let plan = setup.plan();
        let codes = setup.codes();
        let run = RunTrace::new(alloc, setup)?;
        let machine = noting_machine(alloc, setup)?;
        Ok(GoodRun {
            end: plan.end,
            machine,
            run,
            log: empty_log(alloc),
            stage: Stage::Open,
        })
    }

    /// Runs the machine through the slots of one more window, and gives that window; or tells that no slot is left, or that the next one is hyperactive. A window
    /// begins where the last one ended, and is as full as it gets: it ends with the slot that fills it, or where no further slot is one of a window. The memory of
    /// a window that is done with is used again, if one is given. `steps` ticks once for each process step of the slots that are run.
    ///
    /// # Errors
    ///
    /// Want of memory.
    pub fn next_window<L: Ledger>(
        &mut self,
        used: Option<RunWindow<N>>,
        steps: &mut Steps<L>,
    ) -> Result<NextWindow<N>, NoMemory>
        requires { self.old.usable ≡ true }
        ensures next { IfOk result (λ next. GivesNext N.design N.plan self.old.gone next self.new.gone) }
        ensures usable { OnOk result (self.new.usable ≡ true) }
        ensures ticks { OnOk result (steps.new + steps_of_slots N.design N.plan self.old.ran ≤ steps.old + steps_of_slots N.design N.plan self.new.ran) }
    {
        let stage = self.stage;
        self.stage = Stage::Spent;
        let filled = go_on(
            self.end,
            stage,
            &mut self.machine,
            &mut self.run,
            &mut self.log,
            steps,
        )?;
        let next = give(&mut self.run, filled, used)?;
        self.stage = filled.stage;
        Ok(next)
    }
}
