// Whether a block begins with an event.

ghost use Rattle.std.specs.Prelude.{◌≡◌, option_map};
ghost use Rattle.vf_base.specs.Base.{process_number};
ghost use Rattle.slot_record.specs.Records.{event_of};
ghost use Rattle.window_blocks.specs.Gathered.{reaches, begins_by, greatest_by};

use causal_monitor::Actor;
use vf_base::ProcId;

/// Whether the greatest process so far, if there is one, is at least this one.
fn reaches(greatest: Option<ProcId>, process: ProcId) -> bool
    ensures { result ≡ reaches (option_map process_number greatest) (process_number process) }
{
    match greatest {
        None => false,
        Some(greatest) => process.0 <= greatest.0,
    }
}

/// Whether a block begins with an event, by the greatest process that took a step before it in its phase, if one did.
pub(crate) fn begins_block(greatest: Option<ProcId>, actor: Actor) -> bool
    ensures { result ≡ begins_by (option_map process_number greatest) (event_of actor) }
{
    match actor {
        Actor::Step(process) => !reaches(greatest, process),
        Actor::Lane(_) => true,
        Actor::Eval(_) => false,
        Actor::Move(_) => false,
    }
}

/// The greater of a process and the greatest one so far, if there is one.
fn greater(greatest: Option<ProcId>, process: ProcId) -> Option<ProcId>
    ensures { option_map process_number result ≡ greatest_by (option_map process_number greatest) (event_of (Actor.Step process)) }
{
    if reaches(greatest, process) {
        greatest
    } else {
        Some(process)
    }
}

/// The greatest process that took a step with an event, by the greatest one before it.
pub(crate) fn greatest_after(greatest: Option<ProcId>, actor: Actor) -> Option<ProcId>
    ensures { option_map process_number result ≡ greatest_by (option_map process_number greatest) (event_of actor) }
{
    match actor {
        Actor::Step(process) => greater(greatest, process),
        Actor::Lane(_) => greatest,
        Actor::Eval(_) => greatest,
        Actor::Move(_) => greatest,
    }
}
