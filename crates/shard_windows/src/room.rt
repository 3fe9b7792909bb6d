// The room in which the faults of shards are simulated.

ghost use Rattle.std.specs.Prelude.{◌≡◌, false};

use causal_monitor::SlotLog;
use good_trace::Setup;
use shard_slots::{SlotRoom, empty_log};
use std::alloc::Global;
use std::marker::Model;
use v_design::World;
use vf_base::NoMemory;

/// Room in which the faults of shards of the world `N` are simulated, shard after shard: room for the slots through which they go, and the log of a slot. Contracts see whether
/// the first is there.
///
/// It is made where it is needed and none is there. Room that ran out of memory doesn't come back.
pub struct ShardRoom<'d, N: World> {
    slots: Option<SlotRoom<'d, N>>,
    pub(crate) log: SlotLog,
}

// Written out, so that its parts are let go of here alone.
impl<'d, N: World> Drop for ShardRoom<'d, N> {
    fn drop(self) {
        let ShardRoom { slots: _, log: _ } = self;
    }
}

impl<'d, N: World> Model for ShardRoom<'d, N> {
    ghost use Rattle.std.specs.Prelude.{Bool, is_some};

    ghost Value = { Bool };

    ghost view = { λ room. is_some room.slots };
}

impl<'d, N: World> ShardRoom<'d, N> {
    /// Room without a machine, which takes no memory.
    pub fn new(alloc: Global) -> ShardRoom<'d, N>
        ensures { result ≡ false }
    {
        ShardRoom {
            slots: None,
            log: empty_log(alloc),
        }
    }

    /// Takes the room for slots out, or makes it.
    pub(crate) fn take_slots(
        &mut self,
        alloc: Global,
        setup: &Setup<'d, N>,
    ) -> Result<SlotRoom<'d, N>, NoMemory> {
        if let Some(slots) = self.slots.take() {
            return Ok(slots);
        }
        SlotRoom::new(alloc, setup)
    }

    /// Puts it back.
    pub(crate) fn put_slots(&mut self, slots: SlotRoom<'d, N>) {
        self.slots = Some(slots);
    }
}
