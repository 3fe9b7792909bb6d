// Which node an event of a window evaluates, and which process takes a step by it.

ghost use Rattle.std.specs.Prelude.{◌≡◌, ◌++◌, OnOk};
ghost use Rattle.slot_record.specs.Records.{event_of};
ghost use Rattle.trace_window.specs.Acted.{node_evaluated, process_stepped, occurrence_at};
ghost use Rattle.trace_window.specs.Occurring.{below};

use crate::occurrences::push_below;
use causal_monitor::Actor;
use vf_base::NoMemory;
use window_index::Occurrence;

/// The number of the node that is evaluated where this one acts, if one is.
pub(crate) fn node_evaluated(actor: Actor) -> Option<u32>
    ensures { result ≡ node_evaluated (event_of actor) }
{
    match actor {
        Actor::Step(_) => None,
        Actor::Lane(_) => None,
        Actor::Eval(node) => Some(node.0),
        Actor::Move(_) => None,
    }
}

/// The number of the process that takes a step where this one acts, itself or its lane, if one does.
pub(crate) fn process_stepped(actor: Actor) -> Option<u32>
    ensures { result ≡ process_stepped (event_of actor) }
{
    match actor {
        Actor::Step(process) => Some(process.0),
        Actor::Lane(process) => Some(process.0),
        Actor::Eval(_) => None,
        Actor::Move(_) => None,
    }
}

/// Puts a number, if there is one and it is below a count, behind some occurrences, at a moment.
pub(crate) fn push_number(
    occurrences: &mut Vec<Occurrence>,
    count: u32,
    moment: u32,
    number: Option<u32>,
) -> Result<(), NoMemory>
    ensures { OnOk result (occurrences.new.items ≡ occurrences.old.items ++ below count (occurrence_at moment number)) }
{
    match number {
        None => Ok(()),
        Some(number) => {
            push_below(occurrences, count, Occurrence { number, moment })?;
            Ok(())
        }
    }
}
