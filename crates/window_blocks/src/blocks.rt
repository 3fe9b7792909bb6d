// The blocks of slots of the good first run.

ghost use Rattle.std.specs.Prelude.{◌≡◌, ◌+◌, ◌^◌, ◌<◌, ◌≤◌, ℕ, length, map, OnOk, OnErr};
ghost use Rattle.v_design.specs.WellFormed.{KeepsRules};
ghost use Rattle.copy_laws.specs.Windows.{good_slots};
ghost use Rattle.slot_record.specs.Records.{event_of};
ghost use Rattle.window_blocks.specs.Blocks.{IsBlockAt};
ghost use Rattle.window_blocks.specs.Kept.{no_blocks, IsLoggedAt, AreBlocksOf};

use crate::search::count_through;
use crate::table::BlockTable;
use causal_monitor::{Actor, SlotLog};
use std::alloc::Global;
use std::marker::{Model, PhantomData};
use std::mem;
use v_design::World;
use vf_base::NoMemory;

/// The blocks of slots of the good first run of the world `N` in a row, as they are pushed, which contracts see as how many slots of the run stand before them and
/// before their end, the moments with which the blocks begin, their first events, and the moments at which the phases end.
#[derive(Drop)]
pub struct BlockList<N: World> {
    alloc: Global,
    before: u64,
    through: u64,
    table: BlockTable,
    world: PhantomData<N>,
}

/// The blocks of a window of the good first run of the world `N`, which contracts see likewise.
#[derive(Drop)]
pub struct WindowBlocks<N: World> {
    before: u64,
    through: u64,
    table: BlockTable,
    world: PhantomData<N>,
}

impl<N: World> Model for BlockList<N> {
    ghost use Rattle.std.specs.Prelude.{map};
    ghost use Rattle.slot_record.specs.Records.{event_of};
    ghost use Rattle.window_blocks.specs.Kept.{BlocksKept, KeepsBlocks};

    ghost Value = { BlocksKept };

    ghost view = { λ l. record { before = l.before; through = l.through; moments = l.table.moments.items; firsts = map event_of l.table.actors.items; ends = l.table.ends.items } };

    ghost invariant = { λ l. KeepsBlocks N.design N.plan l.before l.through l.table };
}

impl<N: World> Model for WindowBlocks<N> {
    ghost use Rattle.std.specs.Prelude.{map};
    ghost use Rattle.slot_record.specs.Records.{event_of};
    ghost use Rattle.window_blocks.specs.Kept.{BlocksKept, KeepsBlocks};

    ghost Value = { BlocksKept };

    ghost view = { λ w. record { before = w.before; through = w.through; moments = w.table.moments.items; firsts = map event_of w.table.actors.items; ends = w.table.ends.items } };

    ghost invariant = { λ w. KeepsBlocks N.design N.plan w.before w.through w.table };
}

impl<N: World> BlockList<N> {
    /// The blocks of no slot. It takes no memory.
    pub fn new(alloc: Global) -> BlockList<N>
        requires rules { KeepsRules N.design }
        requires fits { length (good_slots N.design N.plan) < 2 ^ 63 }
        ensures { result ≡ no_blocks 0 }
    {
        BlockList {
            alloc,
            before: 0,
            through: 0,
            table: BlockTable::none(alloc),
            world: PhantomData,
        }
    }

    /// Puts the blocks of the next slot at the end, by the slot's log.
    ///
    /// # Errors
    ///
    /// Want of memory, or no further number of a moment. No slot is left then.
    pub fn push(&mut self, log: &SlotLog) -> Result<(), NoMemory>
        requires { IsLoggedAt N.design N.plan self.old.through log.now }
        ensures before { OnOk result (self.new.before ≡ self.old.before) }
        ensures through { OnOk result (self.new.through ≡ self.old.through + 1) }
        ensures err { OnErr result (self.new ≡ no_blocks self.old.through) }
    {
        order_laws::slots();
        order_laws::nets();
        order_laws::first_run_goes_on();
        machine_laws::slot_goes_on();
        machine_laws::stretches_go_on();
        phase_order::phases_follow();
        match self.table.push_slot(log) {
            Ok(()) => {
                self.through += 1;
                Ok(())
            }
            Err(error) => {
                self.table.clear();
                self.before = self.through;
                Err(error)
            }
        }
    }

    /// The blocks of the slots since the last close. None of them are left.
    pub fn close(&mut self) -> WindowBlocks<N>
        ensures window { result ≡ self.old }
        ensures none { self.new ≡ no_blocks self.old.through }
    {
        let table = mem::replace(&mut self.table, BlockTable::none(self.alloc));
        let before = self.before;
        let through = self.through;
        self.before = through;
        WindowBlocks {
            before,
            through,
            table,
            world: PhantomData,
        }
    }
}

impl<N: World> WindowBlocks<N> {
    /// The moments with which the blocks begin, in ascending order. A block ends where the next one begins, and the last one at the end of the last phase.
    pub fn moments(&self) -> &[u32]
        ensures { result.now ≡ self.now.moments }
    {
        &self.table.moments
    }

    /// Who acts in the first event of each block: a process or its lane. A block is over where that process stops.
    pub fn actors(&self) -> &[Actor]
        ensures { map event_of result.now ≡ self.now.firsts }
    {
        &self.table.actors
    }

    /// The block of the event of a moment; none where the window has no block that begins by then. It takes a binary search.
    pub fn block_at(&self, moment: u32) -> Option<usize>
        ensures { IsBlockAt self.now.moments moment result }
    {
        count_through(&self.table.moments, moment).checked_sub(1)
    }

    /// The moment at which each phase ends, and the next one begins.
    pub fn phase_ends(&self) -> &[u32]
        ensures { result.now ≡ self.now.ends }
    {
        &self.table.ends
    }

    /// These are just the moments with which blocks of the window's slots begin, and those at which its phases end.
    ///
    /// It does nothing when it runs.
    pub fn stands(&self)
        ensures { AreBlocksOf N.design N.plan self.now }
    {
        phase_blocks::blocks_are_told();
        // What the blocks keep says so.
        let _through = self.through;
    }
}
