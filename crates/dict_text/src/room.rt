// The room of a dictionary.

ghost use Rattle.std.specs.Prelude.{◌≡◌};
ghost use Rattle.v_design.specs.PlainDesigns.{plan_of};
ghost use Rattle.dict_text.specs.Dictionaries.{too_large};

use v_design::Plan;

/// The most room of a dictionary.
pub const MAX_ROOM: u64 = 268_435_456;

/// The room of a plan's dictionary where that is too much: strobes times watched bits and sixteen, times faults.
pub fn is_too_large(plan: &Plan) -> Option<u64>
    ensures { result ≡ too_large (plan_of plan.now) }
{
    let strobes = plan.strobes.as_slice().len() as u64;
    let bits = plan.watched.as_slice().len() as u64 + 16;
    let faults = plan.faults.as_slice().len() as u64;
    let room = strobes * bits * faults;
    if MAX_ROOM < room { Some(room) } else { None }
}
