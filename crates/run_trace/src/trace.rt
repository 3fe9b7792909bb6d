// The good first run as it is pushed.

ghost use Rattle.std.specs.Prelude.{◌≡◌, ◌+◌, ◌-◌, ◌<◌, false, nat_eq, IfOk, OnOk, OnErr};
ghost use Rattle.copy_laws.specs.Windows.{IsWindow, window_steps};
ghost use Rattle.good_trace.specs.Slots.{IsSlotAt, is_full, end_of};
ghost use Rattle.run_trace.specs.Windows.{AreBeside};

use crate::window::{RunWindow, memory_of};
use causal_monitor::SlotLog;
use good_trace::{GoodEnd, Setup, Trace};
use process_code::RunEnd;
use std::alloc::Global;
use v_design::World;
use vf_base::NoMemory;
use window_blocks::BlockList;
use window_wakes::WakeList;

/// The good first run of the world `N` as it is pushed: its trace, and beside it the blocks and the wakes of the slots since the last close, before which so many stand.
pub struct RunTrace<'s, 'd, N: World> {
    pub begins: u64,
    pub trace: Trace<'s, 'd, N>,
    pub blocks: BlockList<N>,
    pub wakes: WakeList<N>,
}

// Written out, so that its parts are let go of here alone.
impl<'s, 'd, N: World> Drop for RunTrace<'s, 'd, N> {
    fn drop(self) {
        let RunTrace {
            begins: _,
            trace: _,
            blocks: _,
            wakes: _,
        } = self;
    }
}

impl<'s, 'd, N: World> RunTrace<'s, 'd, N> {
    /// A trace of no slots.
    ///
    /// # Errors
    ///
    /// Want of memory.
    pub fn new(alloc: Global, setup: &'s Setup<'d, N>) -> Result<RunTrace<'s, 'd, N>, NoMemory>
        ensures codes { IfOk result (λ run. run.trace.codes ≡ setup.now.codes) }
        ensures none { IfOk result (λ run. (run.trace.pushed ≡ 0) × (run.trace.closed ≡ 0)) }
        ensures beside { IfOk result AreBeside }
    {
        let trace = Trace::new(alloc, setup)?;
        let design = setup.design();
        let plan = setup.plan();
        Ok(RunTrace {
            begins: 0,
            trace,
            blocks: BlockList::new(alloc),
            wakes: WakeList::new(alloc),
        })
    }

    /// Whether no window was closed yet.
    pub fn is_first(&self) -> bool
        requires { AreBeside self.now }
        ensures { result ≡ nat_eq self.now.trace.closed 0 }
    {
        self.begins == 0
    }

    /// Puts the next slot of the good first run at the end, by its log and the ends of its process runs, and tells whether the window is full now. The log stays the caller's.
    ///
    /// # Errors
    ///
    /// Want of memory, or no further number of a moment. The run isn't to be used again then.
    pub fn push(&mut self, log: &SlotLog, runs: Vec<RunEnd>) -> Result<bool, NoMemory>
        requires next { IsSlotAt self.old.trace.codes N.design N.plan self.old.trace.pushed log.now runs.items }
        requires room { is_full (self.old.trace.pushed - self.old.trace.closed) (window_steps N.design N.plan self.old.trace.closed self.old.trace.pushed) ≡ false }
        requires beside { AreBeside self.old }
        ensures pushed { OnOk result (self.new.trace ≡ record self.old.trace { pushed = self.old.trace.pushed + 1 }) }
        ensures full { IfOk result (λ full. full ≡ is_full (self.new.trace.pushed - self.new.trace.closed) (window_steps N.design N.plan self.new.trace.closed self.new.trace.pushed)) }
        ensures beside { OnOk result (AreBeside self.new) }
    {
        self.blocks.push(log)?;
        self.wakes.push(log)?;
        let full = self.trace.push(log, runs)?;
        Ok(full)
    }

    /// The slots since the last close as a window, which ends as is told. The memory of the trace of a window that is done with is used again, if one is given.
    ///
    /// # Errors
    ///
    /// Want of memory, or no further number of a change. The run is as before then.
    pub fn close_window(
        &mut self,
        last: GoodEnd,
        used: Option<RunWindow<N>>,
    ) -> Result<RunWindow<N>, NoMemory>
        requires some { self.old.trace.closed < self.old.trace.pushed }
        requires last { IsWindow N.design N.plan self.old.trace.closed self.old.trace.pushed (end_of last) }
        requires beside { AreBeside self.old }
        ensures window { IfOk result (λ window. window ≡ record { before = self.old.trace.closed; through = self.old.trace.pushed; ending = end_of last }) }
        ensures closed { OnOk result (self.new.trace ≡ record self.old.trace { closed = self.old.trace.pushed }) }
        ensures beside { OnOk result (AreBeside self.new) }
        ensures err { OnErr result (self.new ≡ self.old) }
    {
        let window = self.trace.close_window(last, memory_of(used))?;
        let blocks = self.blocks.close();
        let wakes = self.wakes.close();
        self.begins = window.ends();
        Ok(RunWindow {
            window,
            blocks,
            wakes,
        })
    }
}
