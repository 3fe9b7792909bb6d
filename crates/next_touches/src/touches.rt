// What is remembered, as one value.

ghost use Rattle.std.specs.Prelude.{◌≤◌, length};
ghost use Rattle.v_design.specs.Plain.{site_of};
ghost use Rattle.trace_window.specs.Moments.{window_events};
ghost use Rattle.block_skip.specs.Blocks.{AreProcesses, LeftAlone};
ghost use Rattle.copy_skip.specs.Limits.{AreThere, SiteIsThere};

use crate::limits::copy_limit;
use crate::table::{TouchTable, new_table};
use copy_state::FaultCopy;
use good_trace::{Setup, TraceWindow};
use std::alloc::Global;
use std::marker::{Model, PhantomData};
use v_design::{Fault, World};
use vf_base::NoMemory;

/// Up to which moments events of a window of the good first run of the world `N` leave each object alone, and each process takes no step, as it was found last.
pub struct NextTouches<N: World> {
    table: TouchTable,
    world: PhantomData<N>,
}

// Written out, so that its parts are let go of here alone.
impl<N: World> Drop for NextTouches<N> {
    fn drop(self) {
        let NextTouches { table: _, world: _ } = self;
    }
}

impl<N: World> Model for NextTouches<N> {
    ghost use Rattle.next_touches.specs.Touches.{KnowsTouches};

    ghost Value = { Unit {0} };

    ghost view = { λ _. tt };

    ghost invariant = { λ t. KnowsTouches N.design N.plan t.table };
}

impl<N: World> NextTouches<N> {
    /// Nothing is known yet.
    ///
    /// # Errors
    ///
    /// Want of memory.
    pub fn new(alloc: Global, setup: &Setup<'_, N>) -> Result<NextTouches<N>, NoMemory> {
        let table = new_table(alloc, setup)?;
        Ok(NextTouches {
            table,
            world: PhantomData,
        })
    }

    /// The limit, or a lesser moment, before which all events of a window from a first one on leave a copy's values and updates of a fault alone; of states of processes that the copy keeps
    /// nothing is said. What was found for other copies of the window is used again.
    pub fn copy_limit(
        &mut self,
        setup: &Setup<'_, N>,
        window: &TraceWindow<N>,
        copy: &FaultCopy,
        fault: Fault,
        first: u32,
        limit: u32,
    ) -> u32
        requires objects { AreThere N.design copy.now.values }
        requires site { SiteIsThere N.design (site_of fault.site) }
        requires processes { AreProcesses N.design copy.now.updates }
        requires within { limit ≤ length (window_events N.design N.plan window.now.before window.now.through) }
        ensures low { result ≤ limit }
        ensures alone { LeftAlone N.design (site_of fault.site) copy.now (window_events N.design N.plan window.now.before window.now.through) first result }
    {
        copy_limit(setup, window, &mut self.table, copy, fault, first, limit)
    }
}
