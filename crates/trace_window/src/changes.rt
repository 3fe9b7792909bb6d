// The changes of each object by their moments.

ghost use Rattle.std.specs.Prelude.{◌≡◌, ◌<◌, ◌^◌, [], length, map, IfOk, OnOk, OnErr};
ghost use Rattle.std.specs.List.Sorted.{IsNonDecreasingBy};
ghost use Rattle.vf_base.specs.Base.{object_number};
ghost use Rattle.window_index.specs.Moments.{moments_of, IsFirstAtOrAfter};
ghost use Rattle.trace_window.specs.Occurring.{below};
ghost use Rattle.trace_window.specs.Tables.{change_moment, at_moment, at_places, occurrence_of};
ghost use Rattle.trace_window.specs.Writes.{written_of, latest};

use crate::change::Change;
use crate::occurrences::push_below;
use four_value::Vec4;
use std::alloc::Global;
use std::marker::Model;
use std::mem;
use vf_base::{NoMemory, ObjectId};
use window_index::{Occurrence, WindowIndex};

/// The changes of a window in order, and for each object the moments of its changes and their places. Contracts see how many objects there are and what was written.
#[derive(Drop)]
pub struct Changes {
    objects: u32,
    changes: Vec<Change>,
    moments: WindowIndex,
    places: WindowIndex,
}

impl Model for Changes {
    ghost use Rattle.std.specs.Prelude.{map};
    ghost use Rattle.trace_window.specs.Writes.{written_of};
    ghost use Rattle.trace_window.specs.Tables.{ChangesKept, AreChanges};

    ghost Value = { ChangesKept };

    ghost view = { λ c. record { count = c.objects; writes = map written_of c.changes.items } };

    ghost invariant = { λ c. AreChanges c.objects c.changes.items c.moments c.places };
}

/// Lists each change of one of so many objects as an occurrence of its object, at its moment in one list and at its place in another, in place of what was listed.
fn list_changes(
    objects: u32,
    changes: &[Change],
    by_moment: &mut Vec<Occurrence>,
    by_place: &mut Vec<Occurrence>,
) -> Result<(), NoMemory>
    requires { length changes.now < 2 ^ 32 }
    ensures moments { OnOk result (by_moment.new.items ≡ below objects (map at_moment changes.now)) }
    ensures places { OnOk result (by_place.new.items ≡ below objects (at_places 0 changes.now)) }
{
    by_moment.clear();
    by_place.clear();
    'changes: for (place, change) in changes.iter().enumerate() {
        let number = change.object.0;
        let at_moment = Occurrence {
            number,
            moment: change.moment,
        };
        let at_place = Occurrence {
            number,
            moment: place as u32,
        };
        push_below(by_moment, objects, at_moment)?;
        push_below(by_place, objects, at_place)?;
    }
    Ok(())
}

impl Changes {
    /// No changes, of so many objects.
    ///
    /// # Errors
    ///
    /// Want of memory.
    pub fn new(alloc: Global, objects: u32) -> Result<Changes, NoMemory>
        ensures { IfOk result (λ made. made ≡ record { count = objects; writes = [] }) }
    {
        let moments = WindowIndex::new(alloc, objects)?;
        let places = WindowIndex::new(alloc, objects)?;
        Ok(Changes {
            objects,
            changes: Vec::new(alloc),
            moments,
            places,
        })
    }

    /// Takes other changes, in ascending order of their moments, in place of these; those of objects past the count are never asked for. The list that they come from is
    /// empty then and has the memory of the old ones; that of `by_moment` and `by_place` is used too, so that memory is taken only where there are more changes than ever.
    ///
    /// # Errors
    ///
    /// Want of memory, or more changes than numbers for them. The list is as before then.
    pub fn refill(
        self,
        changes: &mut Vec<Change>,
        by_moment: &mut Vec<Occurrence>,
        by_place: &mut Vec<Occurrence>,
    ) -> Result<Changes, NoMemory>
        requires { IsNonDecreasingBy change_moment changes.old.items }
        ensures changes { IfOk result (λ made. made ≡ record { count = self.count; writes = map written_of changes.old.items }) }
        ensures none { OnOk result (changes.new.items ≡ []) }
        ensures stays { OnErr result (changes.new.items ≡ changes.old.items) }
    {
        let Changes {
            objects,
            changes: mut own,
            mut moments,
            mut places,
        } = self;
        if changes.len() >= u32::MAX as usize {
            return Err(NoMemory);
        }
        list_changes(objects, changes, by_moment, by_place)?;
        moments.refill(by_moment)?;
        places.refill(by_place)?;
        own.clear();
        mem::swap(changes, &mut own);
        Ok(Changes {
            objects,
            changes: own,
            moments,
            places,
        })
    }

    /// All changes, in order.
    pub fn all(&self) -> &[Change]
        ensures { map written_of result.now ≡ self.now.writes }
    {
        &self.changes
    }

    /// What an object holds before the event of a moment, where it holds a value at the window's beginning.
    pub fn value_at(&self, first: Vec4, object: ObjectId, moment: u32) -> Vec4
        requires { object_number object < self.now.count }
        ensures { result ≡ latest first (object_number object) moment self.now.writes }
    {
        match self.moments.last_before(object.0, moment) {
            None => first,
            Some(own) => {
                let places = self.places.moments(object.0);
                self.changes[places[own] as usize].value
            }
        }
    }

    /// The least moment, not before another, at which an object is written; none where it is only written before.
    pub fn next(&self, object: ObjectId, moment: u32) -> Option<u32>
        requires { object_number object < self.now.count }
        ensures { IsFirstAtOrAfter (moments_of (map occurrence_of self.now.writes) (object_number object)) moment result }
    {
        self.moments.first_at_or_after(object.0, moment)
    }
}
