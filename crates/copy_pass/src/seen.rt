// Whether strobes see what a copy keeps.

ghost use Rattle.std.specs.Prelude.{◌≡◌, None, true, false, map};
ghost use Rattle.vf_base.specs.Base.{WatchedBit, object_number, watched_bit};
ghost use Rattle.vf_base.specs.Lists.{AllHold};
ghost use Rattle.copy_laws.specs.Differences.{own_of};

use copy_state::FaultCopy;
use vf_base::{ObjectId, WatchBit};

/// Whether a copy keeps a value of an object.
pub fn keeps_value(copy: &FaultCopy, object: ObjectId) -> bool
    ensures { result ≡ false → own_of copy.now.values (object_number object) ≡ None }
{
    copy.ascending();
    match copy.next_value(object) {
        None => false,
        Some(next) => next.0 == object.0,
    }
}

/// Whether a copy keeps no value of a watched object, so that strobes see nothing of it.
pub fn is_unseen(watched: &[WatchBit], copy: &FaultCopy) -> bool
    ensures { result ≡ true → AllHold (λ (w : WatchedBit). own_of copy.now.values w.object ≡ None) (map watched_bit watched.now) }
{
    'watched: for place in watched {
        if keeps_value(copy, place.object) {
            return false;
        }
    }
    true
}
