// Changes in the order of their objects.

ghost use Rattle.std.specs.Prelude.{◌≡◌, length, map, IfOk};
ghost use Rattle.vf_base.specs.Base.{object_number};
ghost use Rattle.value_change.specs.Changes.{change_seen};
ghost use Rattle.net_state.specs.InOrder.{AreInOrder, IsPlaceFor, with_change};

use value_change::Change;
use vf_base::{NoMemory, ObjectId};

/// The place of the change of an object among others: after it stand those of later objects alone.
fn place_for(changes: &[Change], object: ObjectId) -> usize
    ensures { IsPlaceFor (object_number object) result changes.now }
{
    let count = changes.len();
    'back: for back in 0..count {
        let before = count - 1 - back;
        if changes[before].object.0 <= object.0 {
            return before + 1;
        }
    }
    0
}

/// Puts what became of an object among the changes, in the order of their objects, where its value changed.
pub(crate) fn tell(change: Change, changes: &mut Vec<Change>) -> Result<(), NoMemory>
    requires width { length change.old ≡ length change.new }
    requires order { AreInOrder (map change_seen changes.old.items) }
    ensures { IfOk result (λ _. map change_seen changes.new.items ≡ with_change (change_seen change) (map change_seen changes.old.items)) }
{
    if !change.old.same(change.new) {
        let place = place_for(changes, change.object);
        changes.insert(place, change)?;
    }
    Ok(())
}
