// What stands for a replay.

ghost use Rattle.std.specs.Prelude.{◌≡◌};

use causal_monitor::SlotLog;
use four_value::Vec4;
use machine_events::Told;
use net_graph::Graph;
use net_state::NetState;
use process_table::ProcessTable;
use slot_record::SlotRecord;
use v_design::Values;
use vf_base::ObjectId;

/// Whose steps are taken: those of a process, or those of its lane.
#[derive(Clone, Copy, PartialEq, Eq, Debug)]
pub enum Stepper {
    Process,
    Lane,
}

/// A run that is replayed: the values and the nodes, the processes, the record and the log of the present slot, the steps of the slot so far, whether a race is
/// claimed of the run, so that phases with conflicts may end, and the time, in steps, to which the run goes.
///
/// After a call that answered `false` or ran out of memory a replay isn't to be used again.
#[derive(Drop)]
pub struct Replaying<'d> {
    pub(crate) graph: &'d Graph<'d>,
    pub(crate) nets: NetState<'d>,
    pub(crate) table: ProcessTable<'d>,
    pub(crate) record: SlotRecord,
    pub(crate) log: SlotLog,
    pub(crate) told: Told,
    pub(crate) steps: u32,
    pub(crate) race: bool,
    pub(crate) bound: u64,
}

impl<'d> Values for Replaying<'d> {
    ghost values = { λ replaying. replaying.nets.objects.values.items };

    fn value(&self, object: ObjectId) -> Vec4 {
        self.nets.value(object)
    }
}
