// A window of the good first run.

ghost use Rattle.std.specs.Prelude.{◌≡◌};

use good_trace::TraceWindow;
use std::marker::Model;
use v_design::World;
use window_blocks::WindowBlocks;
use window_wakes::WindowWakes;

/// A window of the good first run of the world `N`, with its blocks and its wakes, which are of the same slots. Contracts see how many slots of the run stand before it, how
/// many before its end, and how it ends.
pub struct RunWindow<N: World> {
    pub(crate) window: TraceWindow<N>,
    pub(crate) blocks: WindowBlocks<N>,
    pub(crate) wakes: WindowWakes<N>,
}

// Written out, so that its parts are let go of here alone.
impl<N: World> Drop for RunWindow<N> {
    fn drop(self) {
        let RunWindow {
            window: _,
            blocks: _,
            wakes: _,
        } = self;
    }
}

impl<N: World> Model for RunWindow<N> {
    ghost use Rattle.good_trace.specs.Traces.{WindowKept};
    ghost use Rattle.run_trace.specs.Windows.{AreOfOneWindow};

    ghost Value = { WindowKept };

    ghost view = { λ r. r.window };

    ghost invariant = { λ r. AreOfOneWindow r.window r.blocks r.wakes };
}

/// The memory of the trace of a window that is done with, if there is one.
pub(crate) fn memory_of<N: World>(used: Option<RunWindow<N>>) -> Option<TraceWindow<N>> {
    match used {
        None => None,
        Some(window) => Some(window.into_trace_window()),
    }
}

impl<N: World> RunWindow<N> {
    /// What its trace told of its slots.
    fn into_trace_window(self) -> TraceWindow<N> {
        let RunWindow {
            window,
            blocks: _,
            wakes: _,
        } = self;
        window
    }

    /// What its trace tells of its slots.
    pub fn window(&self) -> &TraceWindow<N>
        ensures { result.now ≡ self.now }
    {
        &self.window
    }

    /// The blocks of its slots.
    pub fn blocks(&self) -> &WindowBlocks<N>
        ensures begin { result.now.before ≡ self.now.before }
        ensures end { result.now.through ≡ self.now.through }
    {
        &self.blocks
    }

    /// Whose waits the events of its slots end.
    pub fn wakes(&self) -> &WindowWakes<N>
        ensures begin { result.now.before ≡ self.now.before }
        ensures end { result.now.through ≡ self.now.through }
    {
        &self.wakes
    }
}
