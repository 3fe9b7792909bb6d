// A flag for each object: whether some process may wait on it.

ghost use Rattle.std.specs.Prelude.{◌≡◌, ◌<◌, ℕ, List, Bool, false, length, get_or, vec_len, IfOk};
ghost use Rattle.vf_base.specs.Base.{object_number};
ghost use Rattle.v_design.specs.PlainDesigns.{design_of};
ghost use Rattle.lockstep_waits.specs.Awaited.{AreAwaitedFlags};

use std::alloc::Global;
use std::marker::Model;
use v_design::Design;
use vf_base::{NoMemory, ObjectId};
use wait_index::WaitIndex;

/// For each object of a design whether some process may wait on it, which contracts see as a list of flags by object.
#[derive(Drop)]
pub struct AwaitedObjects {
    flags: Vec<bool>,
}

impl Model for AwaitedObjects {
    ghost use Rattle.std.specs.Prelude.{List, Bool};

    ghost Value = { List Bool };

    ghost view = { λ a. a.flags.items };
}

impl AwaitedObjects {
    /// The flags of a design. It goes through the text of each process once.
    ///
    /// # Errors
    ///
    /// Want of memory.
    pub fn new(alloc: Global, design: &Design) -> Result<AwaitedObjects, NoMemory>
        ensures { IfOk result (λ flags. AreAwaitedFlags (design_of design.now) flags) }
    {
        let index = WaitIndex::new(alloc, design)?;
        let count = design.objects.as_slice().len();
        let mut flags = vec![in alloc; false; count]?;
        'objects: for object in 0..count {
            flags[object] = !index.of(ObjectId(object as u32)).is_empty();
        }
        Ok(AwaitedObjects { flags })
    }

    /// Whether some process may wait on an object: an event control of its text is on the object, or the condition of one of its waits names it.
    pub fn has(&self, object: ObjectId) -> bool
        requires { object_number object < length self.now }
        ensures { result ≡ get_or self.now (object_number object) false }
    {
        self.flags[object.0 as usize]
    }
}
