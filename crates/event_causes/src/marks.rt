// Tables of numbers of events.

ghost use Rattle.std.specs.Prelude.{◌≡◌, ◌<◌, length, map, max};
ghost use Rattle.std.specs.List.{All};
ghost use Rattle.vf_base.specs.Base.{object_number, process_number};
ghost use Rattle.event_causes.specs.Causes.{Marks, place_within};

use vf_base::{ObjectId, ProcId};

/// The place within its phase of the event of a number; `None` where the number is that of no event of the phase.
pub(crate) fn place_of(base: u64, number: u64) -> Option<u64>
    ensures { result ≡ place_within base number }
{
    if number < base {
        None
    } else {
        Some(number - base)
    }
}

/// The later of two events, by their numbers.
pub(crate) fn later(one: u64, other: u64) -> u64
    ensures { result ≡ max one other }
{
    if one < other { other } else { one }
}

/// Some processes get a number.
pub(crate) fn mark_processes(table: &mut Vec<u64>, processes: &[ProcId], number: u64)
    requires { All (λ process. process_number process < length table.old.items) processes.now }
    ensures { Marks (map process_number processes.now) number table.old.items table.new.items }
{
    'processes: for process in processes {
        table[process.0 as usize] = number;
    }
}

/// Some objects get a number.
pub(crate) fn mark_objects(table: &mut Vec<u64>, objects: &[ObjectId], number: u64)
    requires { All (λ object. object_number object < length table.old.items) objects.now }
    ensures { Marks (map object_number objects.now) number table.old.items table.new.items }
{
    'objects: for object in objects {
        table[object.0 as usize] = number;
    }
}
