// Sets of objects in the order in which they were put in.

ghost use Rattle.std.specs.Prelude.{◌≡◌, ◌<◌, [], length, map, slice_get, vec_len, IfOk, IfSome, IsSome};
ghost use Rattle.std.specs.List.{All};
ghost use Rattle.std.specs.Option.{option_map};
ghost use Rattle.vf_base.specs.Base.{object_number};
ghost use Rattle.vf_base.specs.Lists.{has};
ghost use Rattle.object_set.specs.Ordered.{with_object, with_objects};
ghost use Rattle.object_set.specs.Members.{TakesOut};

use std::alloc::Global;
use std::marker::Model;
use vf_base::{NoMemory, ObjectId};

/// A set of objects whose numbers are below a bound.
#[derive(Drop)]
pub struct ObjectSet {
    members: Vec<bool>,
    /// The members, in the first so many places.
    order: Vec<ObjectId>,
    count: usize,
}

impl Model for ObjectSet {
    ghost use Rattle.std.specs.Prelude.{length, map, take};
    ghost use Rattle.vf_base.specs.Base.{object_number};
    ghost use Rattle.object_set.specs.Ordered.{OrderedObjects};
    ghost use Rattle.object_set.specs.Members.{IsOrdered};

    ghost Value = { OrderedObjects };

    ghost view = { λ set. record { bound = length set.members.items; objects = map object_number (take set.count set.order.items) } };

    ghost invariant = { λ set. IsOrdered set.members.items set.order.items set.count };
}

/// Takes some objects out of the table of members.
fn take_out(objects: &[ObjectId], members: &mut Vec<bool>)
    requires { All (λ object. object_number object < vec_len members.old) objects.now }
    ensures { TakesOut (map object_number objects.now) members.old.items members.new.items }
{
    'objects: for object in objects {
        members[object.0 as usize] = false;
    }
}

impl ObjectSet {
    /// The empty set of objects whose numbers are below a bound.
    ///
    /// # Errors
    ///
    /// Want of memory.
    pub fn new(alloc: Global, bound: usize) -> Result<ObjectSet, NoMemory>
        ensures bound { IfOk result (λ set. set.bound ≡ bound) }
        ensures empty { IfOk result (λ set. set.objects ≡ []) }
    {
        let members = vec![in alloc; false; bound]?;
        let order = vec![in alloc; ObjectId(0); bound]?;
        Ok(ObjectSet {
            members,
            order,
            count: 0,
        })
    }

    /// How many objects are in the set.
    pub fn len(&self) -> usize
        ensures { result ≡ length self.now.objects }
    {
        self.as_slice().len()
    }

    /// The members, in the order in which they were put in.
    pub fn as_slice(&self) -> &[ObjectId]
        ensures members { map object_number result.now ≡ self.now.objects }
        ensures below { All (λ object. object_number object < self.now.bound) result.now }
    {
        &self.order[..self.count]
    }

    /// The member of a place; none from the number of members on.
    pub fn get(&self, place: usize) -> Option<ObjectId>
        ensures member { option_map object_number result ≡ slice_get self.now.objects place }
        ensures within { IsSome result → place < self.now.bound }
        ensures below { IfSome result (λ object. object_number object < self.now.bound) }
    {
        if place < self.count {
            Some(self.order[place])
        } else {
            None
        }
    }

    /// Whether an object is in the set.
    pub fn contains(&self, object: ObjectId) -> bool
        requires { object_number object < self.now.bound }
        ensures { result ≡ has self.now.objects (object_number object) }
    {
        self.members[object.0 as usize]
    }

    /// Puts an object behind the others, unless it is in the set.
    pub fn insert(&mut self, object: ObjectId)
        requires { object_number object < self.old.bound }
        ensures { self.new ≡ record self.old { objects = with_object self.old.objects (object_number object) } }
    {
        let place = object.0 as usize;
        if self.members[place] {
            return;
        }
        self.members[place] = true;
        self.order[self.count] = object;
        self.count += 1;
    }

    /// Puts objects in, one after another.
    pub fn insert_all(&mut self, objects: &[ObjectId])
        requires { All (λ object. object_number object < self.old.bound) objects.now }
        ensures { self.new ≡ record self.old { objects = with_objects self.old.objects (map object_number objects.now) } }
    {
        'objects: for object in objects {
            self.insert(*object);
        }
    }

    /// Takes all objects out of the set.
    pub fn clear(&mut self)
        ensures { self.new ≡ record self.old { objects = [] } }
    {
        take_out(&self.order[..self.count], &mut self.members);
        self.count = 0;
    }
}
