// Objects in the order of their first occurrences.

ghost use Rattle.std.specs.Prelude.{◌≡◌, [], IfOk, OnOk, map};
ghost use Rattle.vf_base.specs.Base.{object_number};
ghost use Rattle.vf_base.specs.Lists.{has, without_repeats};
ghost use Rattle.object_waits.specs.ObjectLists.{with_object};

use indexmap::IndexSet;
use std::alloc::Global;
use std::marker::Model;
use vf_base::{NoMemory, ObjectId};

/// Objects in the order in which they were put in, each once. Contracts see the list of their numbers; one is found by its hash.
#[derive(Drop)]
pub struct ObjectList {
    objects: IndexSet<u32>,
}

impl Model for ObjectList {
    ghost use Rattle.std.specs.Prelude.{List, ℕ};

    ghost Value = { List ℕ };

    ghost view = { λ list. list.objects.keys };
}

impl ObjectList {
    /// A list without objects, which takes no memory.
    pub fn new(alloc: Global) -> ObjectList
        ensures { result ≡ [] }
    {
        ObjectList {
            objects: IndexSet::new(alloc),
        }
    }

    /// Puts an object behind the others, unless it is there.
    pub fn put(&mut self, object: ObjectId) -> Result<(), NoMemory>
        ensures { OnOk result (self.new ≡ with_object self.old (object_number object)) }
    {
        match self.objects.insert(object.0) {
            Ok(_) => Ok(()),
            Err(_) => Err(NoMemory),
        }
    }

    /// Whether an object is in it.
    pub fn has(&self, object: ObjectId) -> bool
        ensures { result ≡ has self.now (object_number object) }
    {
        self.objects.contains(&object.0)
    }

    /// The objects, in order.
    fn objects(&self, alloc: Global) -> Result<Vec<ObjectId>, NoMemory>
        ensures { IfOk result (λ objects. map object_number objects.items ≡ self.now) }
    {
        let mut objects = Vec::new(alloc);
        'numbers: for number in self.objects.as_slice() {
            objects.push(ObjectId(*number))?;
        }
        Ok(objects)
    }
}

/// Each of some objects once, in the order of their first occurrences.
///
/// # Errors
///
/// Want of memory.
pub fn first_occurrences(alloc: Global, objects: &[ObjectId]) -> Result<Vec<ObjectId>, NoMemory>
    ensures { IfOk result (λ once. map object_number once.items ≡ without_repeats [] (map object_number objects.now)) }
{
    let mut list = ObjectList::new(alloc);
    'objects: for object in objects {
        list.put(*object)?;
    }
    let once = list.objects(alloc)?;
    Ok(once)
}
