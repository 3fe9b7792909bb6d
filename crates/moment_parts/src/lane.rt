// The lane of a process.

ghost use Rattle.std.specs.Prelude.{◌≡◌, [], map};
ghost use Rattle.v_design.specs.Plain.{update_of};
ghost use Rattle.v_design.specs.States.{rest_of};
ghost use Rattle.moment_parts.specs.Lanes.{lane_left};

use std::alloc::Global;
use v_design::Update;
use vf_base::NoMemory;

/// The activated updates of a process, in order, of which so many are taken.
#[derive(Drop)]
pub struct Lane {
    pub updates: Vec<Update>,
    pub taken: usize,
}

impl Lane {
    /// The lane without an update. It takes no memory.
    pub fn new(alloc: Global) -> Lane
        ensures { lane_left result ≡ [] }
    {
        Lane {
            updates: Vec::new(alloc),
            taken: 0,
        }
    }

    /// The updates that are left.
    pub fn left(&self) -> &[Update]
        ensures { map update_of result.now ≡ lane_left self.now }
    {
        if self.taken >= self.updates.len() {
            return &[];
        }
        &self.updates[self.taken..]
    }

    /// Takes the first update, if there is one.
    pub fn take(&mut self)
        ensures { lane_left self.new ≡ rest_of (lane_left self.old) }
    {
        if self.taken < self.updates.len() {
            self.taken += 1;
        }
    }

    /// No update is left. The memory stays.
    pub fn clear(&mut self)
        ensures updates { self.new.updates.items ≡ [] }
        ensures taken { self.new.taken ≡ 0 }
    {
        self.updates.clear();
        self.taken = 0;
    }
}
