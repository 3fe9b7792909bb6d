// The parts of a table.

use crate::row::Row;
use crate::set::ProcessSet;
use event_queue::Queue;
use std::alloc::Global;
use v_design::Design;
use wait_index::WaitIndex;

/// The processes of a machine's state: the rows by process, who may wait on which object, the processes that are ready, those whose lane has an
/// update, and the queue of turns.
///
/// Contracts see a table as the design, the present time, and what each process does; its parts agree. After a call that ran out of memory a
/// table isn't to be used again.
#[derive(Drop)]
pub struct ProcessTable<'d> {
    pub(crate) alloc: Global,
    pub(crate) design: &'d Design,
    pub(crate) time: u64,
    pub(crate) rows: Vec<Row<'d>>,
    pub(crate) index: WaitIndex,
    pub(crate) ready: ProcessSet,
    pub(crate) lanes: ProcessSet,
    pub(crate) queue: Queue,
    pub(crate) candidates: Vec<u32>,
}
