// The wakes of slots of the good first run.

ghost use Rattle.std.specs.Prelude.{◌≡◌, ◌+◌, ◌^◌, ◌<◌, ◌≤◌, length, map, filter, OnOk, OnErr};
ghost use Rattle.v_design.specs.WellFormed.{KeepsRules};
ghost use Rattle.copy_laws.specs.Windows.{good_slots};
ghost use Rattle.window_blocks.specs.Kept.{IsLoggedAt};
ghost use Rattle.window_wakes.specs.Kept.{no_span};
ghost use Rattle.window_wakes.specs.Wakes.{wake_of, comes_within, AreWakesOf};

use crate::gathering::push_slot;
use crate::wake::Wake;
use causal_monitor::SlotLog;
use std::alloc::Global;
use std::marker::{Model, PhantomData};
use std::mem;
use v_design::World;
use vf_base::NoMemory;

/// The wakes of slots of the good first run of the world `N` in a row, as they are pushed, which contracts see as how many slots of the run stand before them and before
/// their end.
#[derive(Drop)]
pub struct WakeList<N: World> {
    alloc: Global,
    before: u64,
    through: u64,
    moment: u32,
    wakes: Vec<Wake>,
    world: PhantomData<N>,
}

/// The wakes of a window of the good first run of the world `N`, which contracts see as how many slots of the run stand before it and before its end, and as the wakes.
#[derive(Drop)]
pub struct WindowWakes<N: World> {
    before: u64,
    through: u64,
    wakes: Vec<Wake>,
    world: PhantomData<N>,
}

impl<N: World> Model for WakeList<N> {
    ghost use Rattle.window_wakes.specs.Kept.{WakesSpan, GathersWakes};

    ghost Value = { WakesSpan };

    ghost view = { λ l. record { before = l.before; through = l.through } };

    ghost invariant = { λ l. GathersWakes N.design N.plan l.before l.through l.moment l.wakes.items };
}

impl<N: World> Model for WindowWakes<N> {
    ghost use Rattle.std.specs.Prelude.{map};
    ghost use Rattle.window_wakes.specs.Kept.{KeepsWakes};
    ghost use Rattle.window_wakes.specs.Wakes.{WakesKept, wake_of};

    ghost Value = { WakesKept };

    ghost view = { λ w. record { before = w.before; through = w.through; wakes = map wake_of w.wakes.items } };

    ghost invariant = { λ w. KeepsWakes N.design N.plan w.before w.through w.wakes.items };
}

impl<N: World> WakeList<N> {
    /// The wakes of no slot. It takes no memory.
    pub fn new(alloc: Global) -> WakeList<N>
        requires rules { KeepsRules N.design }
        requires fits { length (good_slots N.design N.plan) < 2 ^ 63 }
        ensures { result ≡ no_span 0 }
    {
        WakeList {
            alloc,
            before: 0,
            through: 0,
            moment: 0,
            wakes: Vec::new(alloc),
            world: PhantomData,
        }
    }

    /// Puts the wakes of the next slot at the end, by the slot's log.
    ///
    /// # Errors
    ///
    /// Want of memory, or no further number of a moment. No slot is left then.
    pub fn push(&mut self, log: &SlotLog) -> Result<(), NoMemory>
        requires { IsLoggedAt N.design N.plan self.old.through log.now }
        ensures before { OnOk result (self.new.before ≡ self.old.before) }
        ensures through { OnOk result (self.new.through ≡ self.old.through + 1) }
        ensures err { OnErr result (self.new ≡ no_span self.old.through) }
    {
        order_laws::slots();
        order_laws::nets();
        order_laws::first_run_goes_on();
        machine_laws::slot_goes_on();
        machine_laws::stretches_go_on();
        phase_order::phases_follow();
        boundary_laws::causes_tell_wakes();
        match push_slot(log, self.moment, &mut self.wakes) {
            Ok(moment) => {
                self.moment = moment;
                self.through += 1;
                Ok(())
            }
            Err(error) => {
                self.wakes.clear();
                self.moment = 0;
                self.before = self.through;
                Err(error)
            }
        }
    }

    /// The wakes of the slots since the last close. None of them are left.
    pub fn close(&mut self) -> WindowWakes<N>
        ensures before { result.before ≡ self.old.before }
        ensures through { result.through ≡ self.old.through }
        ensures none { self.new ≡ no_span self.old.through }
    {
        let mut wakes = mem::replace(&mut self.wakes, Vec::new(self.alloc));
        wakes.sort_unstable_by_key(|wake| wake.moment);
        let before = self.before;
        let through = self.through;
        self.before = through;
        self.moment = 0;
        WindowWakes {
            before,
            through,
            wakes,
            world: PhantomData,
        }
    }
}

impl<N: World> WindowWakes<N> {
    /// Whose waits end, and by the events of which moments, in the order of these.
    pub fn wakes(&self) -> &[Wake]
        ensures { map wake_of result.now ≡ self.now.wakes }
    {
        &self.wakes
    }

    /// Whose waits the events of the moments from one on and before a limit end.
    pub fn within(&self, first: u32, limit: u32) -> &[Wake]
        requires { first ≤ limit }
        ensures { map wake_of result.now ≡ filter (comes_within first limit) self.now.wakes }
    {
        moment_slices::within(&self.wakes, first, limit)
    }

    /// These are just the wakes of the window's events.
    ///
    /// It does nothing when it runs.
    pub fn stands(&self)
        ensures { AreWakesOf N.design N.plan self.now }
    {
        // What is kept of the window says so.
        let _through = self.through;
    }
}
