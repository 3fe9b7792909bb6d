// Where the faults of a shard go through slots.

use copy_lockstep::{LockstepRoom, Machine, NextTouches, new_room};
use good_trace::Setup;
use start_copy::StartRoom;
use std::alloc::Global;
use std::marker::Model;
use v_design::World;
use vf_base::NoMemory;

/// Room in which the faults of shards of the world `N` go through slots: a machine of the design for those that are run whole, what takes the others through in lockstep, what was found of
/// the moments up to which these may be passed, and what finds where they begin in lockstep.
#[derive(Drop)]
pub struct SlotRoom<'d, N: World> {
    pub(crate) machine: Machine<'d>,
    pub(crate) lockstep: LockstepRoom<'d, N>,
    pub(crate) touches: NextTouches<N>,
    pub(crate) start: StartRoom<'d>,
}

impl<'d, N: World> Model for SlotRoom<'d, N> {
    ghost use Rattle.copy_lockstep.specs.copy_room.Rooms.{IsRoom};
    ghost use Rattle.copy_lockstep.specs.lockstep_block.Rooms.{IsLockstepRoom};
    ghost use Rattle.start_copy.specs.Rooms.{IsRoomFor};

    ghost Value = { Unit {0} };

    ghost view = { λ _. tt };

    ghost invariant = { λ r. IsRoom N.design r.machine × IsLockstepRoom N.design r.lockstep.runner r.lockstep.before r.lockstep.behind r.lockstep.counts × IsRoomFor N.design r.start };
}

impl<'d, N: World> SlotRoom<'d, N> {
    /// Room for the design of a setup.
    ///
    /// # Errors
    ///
    /// Want of memory.
    pub fn new(alloc: Global, setup: &Setup<'d, N>) -> Result<SlotRoom<'d, N>, NoMemory> {
        let machine = new_room(alloc, setup)?;
        let lockstep = LockstepRoom::new(alloc, setup)?;
        let touches = NextTouches::new(alloc, setup)?;
        let design = setup.design();
        let start = StartRoom::new(alloc, setup.graph())?;
        Ok(SlotRoom {
            machine,
            lockstep,
            touches,
            start,
        })
    }
}
