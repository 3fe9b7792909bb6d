// The memory of a window that is done with.

ghost use Rattle.std.specs.Prelude.{◌≡◌, length, IfOk};
ghost use Rattle.good_trace.specs.Closing.{FitsSpare};
ghost use Rattle.good_trace.specs.Events.{sizes_of};

use crate::between::BetweenSlots;
use crate::closing::Closed;
use crate::events::no_events;
use crate::pushed::{SlotTable, clear_table, empty_table};
use crate::window::TraceWindow;
use four_value::Vec4;
use process_code::RunEnd;
use std::alloc::Global;
use trace_window::Sizes;
use v_design::World;
use vf_base::NoMemory;
use window_runs::RunIndex;

/// The parts of a window, as memory for those of another one, and the table of no slots.
#[derive(Drop)]
pub struct Spare {
    pub closed: Closed,
    pub table: SlotTable,
}

/// Memory for a window of a design of these sizes, whose objects hold some values.
fn new_spare(alloc: Global, sizes: Sizes, values: &[Vec4]) -> Result<Spare, NoMemory>
    requires { length values.now ≡ sizes.objects }
    ensures { IfOk result (λ spare. FitsSpare sizes spare) }
{
    let events = no_events(alloc, sizes)?;
    let index = RunIndex::new(alloc, sizes.processes)?;
    let later = BetweenSlots {
        values: Vec::from_slice(alloc, values)?,
        states: Vec::new(alloc),
        updates: Vec::new(alloc),
    };
    let table = empty_table(alloc)?;
    Ok(Spare {
        closed: Closed {
            events,
            index,
            later,
        },
        table,
    })
}

/// The memory of a window, but for that of the ends of its runs, which are put in the place of those that are spent.
fn take_apart<N: World>(window: TraceWindow<N>, spent: &mut Vec<RunEnd>) -> Result<Spare, NoMemory>
    ensures { IfOk result (λ spare. FitsSpare (sizes_of N.design) spare) }
{
    let TraceWindow {
        before,
        events,
        slots,
        index,
        ..
    } = window;
    let table = clear_table(slots, spent)?;
    Ok(Spare {
        closed: Closed {
            events,
            index,
            later: before,
        },
        table,
    })
}

/// The memory of a window that is done with, if there is one; else memory of its own. A window's objects hold as many values as these. The ends of its runs are put in the
/// place of those that are spent.
///
/// # Errors
///
/// Want of memory.
pub(crate) fn spare_of<N: World>(
    alloc: Global,
    sizes: Sizes,
    values: &[Vec4],
    used: Option<TraceWindow<N>>,
    spent: &mut Vec<RunEnd>,
) -> Result<Spare, NoMemory>
    requires sizes { sizes ≡ sizes_of N.design }
    requires values { length values.now ≡ length N.design.objects }
    ensures { IfOk result (λ spare. FitsSpare (sizes_of N.design) spare) }
{
    match used {
        None => new_spare(alloc, sizes, values),
        Some(window) => take_apart(window, spent),
    }
}
