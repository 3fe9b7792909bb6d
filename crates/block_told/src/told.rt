// What a block tells.

use causal_monitor::Noted;
use std::alloc::Global;
use vf_base::{ObjectId, ProcId};

/// What a block tells: the accesses of its events, in order, where the change of a net is a write by the step before it; the objects that it changed, each as often as it
/// did; the processes that took steps, once for each of their runs; the processes whose waits it ended; the process whose lane it took a step of, if it did; and how many
/// process and lane steps it took.
#[derive(Drop)]
pub struct BlockTold {
    pub accesses: Vec<Noted>,
    pub changed: Vec<ObjectId>,
    pub stepped: Vec<ProcId>,
    pub ended: Vec<ProcId>,
    pub lane: Option<ProcId>,
    pub steps: u64,
}

impl BlockTold {
    ghost use Rattle.block_told.specs.Tells.{IsUntold};

    /// Room in which nothing is told.
    pub fn new(alloc: Global) -> BlockTold
        ensures { IsUntold result }
    {
        BlockTold {
            accesses: Vec::new(alloc),
            changed: Vec::new(alloc),
            stepped: Vec::new(alloc),
            ended: Vec::new(alloc),
            lane: None,
            steps: 0,
        }
    }

    /// Nothing is told any more. The room stays.
    pub fn clear(&mut self)
        ensures { IsUntold self.new }
    {
        self.accesses.clear();
        self.changed.clear();
        self.stepped.clear();
        self.ended.clear();
        self.lane = None;
        self.steps = 0;
    }
}
