// What an event tells.

ghost use Rattle.std.specs.Prelude.{◌≡◌, []};

use causal_monitor::Noted;
use std::alloc::Global;
use value_change::Change;
use vf_base::{ObjectId, ProcId};

/// Room for what one event tells: its accesses in order, the objects that it changed, the processes whose waits it ended, and the changes of a node's nets.
#[derive(Drop)]
pub struct Told {
    pub(crate) accesses: Vec<Noted>,
    pub(crate) changed: Vec<ObjectId>,
    pub(crate) ended: Vec<ProcId>,
    pub(crate) net_changes: Vec<Change>,
}

impl Told {
    /// Room in which nothing is told.
    pub fn new(alloc: Global) -> Told {
        Told {
            accesses: Vec::new(alloc),
            changed: Vec::new(alloc),
            ended: Vec::new(alloc),
            net_changes: Vec::new(alloc),
        }
    }

    /// The accesses that are told, in order.
    pub fn accesses(&self) -> &[Noted]
        ensures { result.now ≡ self.now.accesses.items }
    {
        self.accesses.as_slice()
    }

    /// The objects of which a process or lane step is told that it changed them.
    pub fn changed(&self) -> &[ObjectId]
        ensures { result.now ≡ self.now.changed.items }
    {
        self.changed.as_slice()
    }

    /// The processes whose waits are told to have ended, ascending.
    pub fn ended(&self) -> &[ProcId]
        ensures { result.now ≡ self.now.ended.items }
    {
        self.ended.as_slice()
    }

    /// The changes of a node's nets that were told last, in the order of the objects.
    pub fn net_changes(&self) -> &[Change]
        ensures { result.now ≡ self.now.net_changes.items }
    {
        self.net_changes.as_slice()
    }

    /// No access, no changed object and no wait that ended is told any more.
    pub(crate) fn clear(&mut self)
        ensures accesses { self.new.accesses.items ≡ [] }
        ensures changed { self.new.changed.items ≡ [] }
        ensures ended { self.new.ended.items ≡ [] }
    {
        self.accesses.clear();
        self.changed.clear();
        self.ended.clear();
    }
}
