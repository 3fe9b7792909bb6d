// Values compared, object by object.

ghost use Rattle.std.specs.Prelude.{◌≡◌, map, OnOk};
ghost use Rattle.std.specs.List.{All};
ghost use Rattle.vf_base.specs.Base.{object_number};
ghost use Rattle.v_design.specs.Assignments.{value_at};
ghost use Rattle.copy_between.specs.Differing.{IsDifference};
ghost use Rattle.lockstep_compare.specs.Among.{AreKeptAmong, AreComparable, KeepsValuesAlone};

use lockstep_copy::{LockstepCopy, keep_value};
use v_design::Values;
use vf_base::{NoMemory, ObjectId};

/// Of each of some objects the faulty machine's value is kept where it isn't the good one's.
///
/// # Errors
///
/// Want of memory. What is kept isn't to be used again then.
pub fn keep_values<G: Values, F: Values>(
    own: &mut LockstepCopy,
    good: &G,
    faulty: &F,
    objects: &[ObjectId],
) -> Result<(), NoMemory>
    requires { All (AreComparable (G.values good.now) (F.values faulty.now)) (map object_number objects.now) }
    ensures rest { OnOk result (KeepsValuesAlone own.old own.new) }
    ensures kept { OnOk result (AreKeptAmong (λ object. IsDifference (value_at (G.values good.now) object) (value_at (F.values faulty.now) object)) (map object_number objects.now)
        own.old.copy.values own.new.copy.values) }
{
    'objects: for place in 0..objects.len() {
        let object = objects[place];
        keep_value(own, object, good.value(object), faulty.value(object))?;
    }
    Ok(())
}
