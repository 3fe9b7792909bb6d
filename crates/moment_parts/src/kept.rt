// What is kept of the processes, and of the block that was passed last.

ghost use Rattle.std.specs.Prelude.{◌≡◌, [], map, None};
ghost use Rattle.vf_base.specs.Base.{object_number, process_number};

use crate::lane::Lane;
use process_code::ProcState;
use std::alloc::Global;
use v_design::Due;
use vf_base::{ObjectId, ProcId};

/// Of each process, by number, where it stands, what it has pending, its lane, and how many of its runs have ended in the present phase.
#[derive(Drop)]
pub struct Standing {
    pub states: Vec<ProcState>,
    pub later: Vec<Vec<Due>>,
    pub lanes: Vec<Lane>,
    pub ran: Vec<u32>,
}

/// What a block did: the objects that it wrote, the processes that it stepped or whose waits it ended, and the process whose lane it stepped.
#[derive(Drop)]
pub struct Passed {
    pub changed: Vec<ObjectId>,
    pub acted: Vec<ProcId>,
    pub lane: Option<ProcId>,
}

impl Passed {
    /// Nothing is told.
    pub fn none(alloc: Global) -> Passed
        ensures changed { result.changed.items ≡ [] }
        ensures acted { result.acted.items ≡ [] }
        ensures lane { result.lane ≡ None }
    {
        Passed {
            changed: Vec::new(alloc),
            acted: Vec::new(alloc),
            lane: None,
        }
    }

    /// Nothing is told any more. The memory stays.
    pub fn clear(&mut self)
        ensures changed { self.new.changed.items ≡ [] }
        ensures acted { self.new.acted.items ≡ [] }
        ensures lane { self.new.lane ≡ None }
    {
        self.changed.clear();
        self.acted.clear();
        self.lane = None;
    }
}
