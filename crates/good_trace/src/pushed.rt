// The slots of the good first run as they are pushed.

ghost use Rattle.std.specs.Prelude.{◌≡◌, ◌<◌, ◌-◌, ◌∷◌, [], Some, length, slice_get, IfOk, OnOk, OnErr};
ghost use Rattle.trace_window.specs.Gathered.{BeginsAt};
ghost use Rattle.trace_window.specs.Listed.{IsActed};
ghost use Rattle.good_trace.specs.Beginnings.{first_beginning};
ghost use Rattle.good_trace.specs.Pushes.{HasNoSlot, PushesSlot, HasSameSlots};

use causal_monitor::SlotLog;
use process_code::RunEnd;
use std::alloc::Global;
use std::mem;
use trace_window::{EventList, Sizes};
use vf_base::NoMemory;

/// Where a slot of a window begins: the moment of its first event, and how many changes and phases come before it.
#[derive(Clone, Copy, Debug)]
pub struct SlotBeginning {
    pub moment: u32,
    pub changes: usize,
    pub phases: u32,
}

/// The slots of a window: their times, in steps; where each begins, and behind these where another one would; and the ends of their runs, whose phases are numbered
/// through.
#[derive(Drop)]
pub struct SlotTable {
    pub times: Vec<u64>,
    pub beginnings: Vec<SlotBeginning>,
    pub runs: Vec<RunEnd>,
}

/// The slots that were pushed since a window was closed, with what their events write and touch and who acts in them.
#[derive(Drop)]
pub struct PushedSlots {
    pub table: SlotTable,
    pub list: EventList,
    /// Memory for the events of the slot that is pushed, and for what is listed as a window is closed.
    pub own: EventList,
}

/// The table of no slots, in the memory of these lists.
fn start_table(
    mut times: Vec<u64>,
    mut beginnings: Vec<SlotBeginning>,
    mut runs: Vec<RunEnd>,
) -> Result<SlotTable, NoMemory>
    ensures { IfOk result (λ table. HasNoSlot table) }
{
    times.clear();
    beginnings.clear();
    runs.clear();
    beginnings.push(SlotBeginning {
        moment: 0,
        changes: 0,
        phases: 0,
    })?;
    Ok(SlotTable {
        times,
        beginnings,
        runs,
    })
}

/// The table of no slots.
pub(crate) fn empty_table(alloc: Global) -> Result<SlotTable, NoMemory>
    ensures { IfOk result (λ table. HasNoSlot table) }
{
    start_table(Vec::new(alloc), Vec::new(alloc), Vec::new(alloc))
}

/// The table of no slots, in the memory of another one, the ends of whose runs are put in the place of those that are spent.
pub(crate) fn clear_table(table: SlotTable, spent: &mut Vec<RunEnd>) -> Result<SlotTable, NoMemory>
    ensures { IfOk result (λ table. HasNoSlot table) }
{
    let SlotTable {
        times,
        beginnings,
        mut runs,
    } = table;
    mem::swap(&mut runs, spent);
    start_table(times, beginnings, runs)
}

impl PushedSlots {
    /// No slots.
    ///
    /// # Errors
    ///
    /// Want of memory.
    pub(crate) fn none(alloc: Global) -> Result<PushedSlots, NoMemory>
        ensures table { IfOk result (λ slots. HasNoSlot slots.table) }
        ensures list { IfOk result (λ slots. BeginsAt 0 slots.list) }
    {
        let table = empty_table(alloc)?;
        Ok(PushedSlots {
            table,
            list: EventList::new(alloc),
            own: EventList::new(alloc),
        })
    }

    /// Puts a slot of a design of these sizes at the end, by its log and the ends of its runs. There are so many phases with it.
    ///
    /// # Errors
    ///
    /// Want of memory, or no further number of a moment. The slots are as before then.
    pub(crate) fn push(
        &mut self,
        sizes: Sizes,
        log: &SlotLog,
        mut runs: Vec<RunEnd>,
        phases: u32,
    ) -> Result<(), NoMemory>
        requires { IsActed log.now }
        ensures pushes { OnOk result (PushesSlot sizes log.now runs.items phases self.old self.new) }
        ensures stays { OnErr result (HasSameSlots self.old self.new) }
    {
        self.table.times.reserve(1)?;
        self.table.beginnings.reserve(1)?;
        self.table.runs.reserve(runs.len())?;
        self.list.push_slot(sizes, log, &mut self.own)?;
        // There is room for all the rest now.
        self.table.times.push(log.time)?;
        self.table.runs.append(&mut runs)?;
        self.table.beginnings.push(SlotBeginning {
            moment: self.list.moment,
            changes: self.list.changes.len(),
            phases,
        })?;
        Ok(())
    }
}

/// Lets go so many ends of runs that are spent, or all, so that their memory is there for other ones.
pub(crate) fn let_go(spent: &mut Vec<RunEnd>, count: usize) {
    let left = spent.len().saturating_sub(count);
    spent.truncate(left);
}

/// The time of the last of some slots, in steps, by their times.
pub(crate) fn last_time(times: &[u64]) -> u64
    requires { 0 < length times.now }
    ensures { slice_get times.now (length times.now - 1) ≡ Some result }
{
    times[times.len() - 1]
}
