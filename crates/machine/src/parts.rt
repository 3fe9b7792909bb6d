// The parts of a machine.

ghost use Rattle.std.specs.Prelude.{◌≡◌};

use four_value::Vec4;
use machine_events::Told;
use net_graph::Graph;
use net_state::NetState;
use process_table::ProcessTable;
use run_record::RunRecord;
use slot_record::SlotRecord;
use v_design::Values;
use vf_base::ObjectId;

/// Where a machine stands in its run: at the start, after a slot, or where no slot is left to it, as after one that was hyperactive and while it is put into a state.
#[derive(Clone, Copy, PartialEq, Eq, Debug)]
pub enum Stage {
    Start,
    Between,
    Over,
}

/// A machine: the values and the nodes, the processes, the record of the present slot, that of its process runs where these are noted, and room for what one event
/// tells.
///
/// Contracts see a machine as a design with a fault, and a state of it. After a call that ran out of memory a machine isn't to be used again.
pub struct Machine<'d> {
    pub(crate) graph: &'d Graph<'d>,
    pub(crate) nets: NetState<'d>,
    pub(crate) table: ProcessTable<'d>,
    pub(crate) record: SlotRecord,
    pub(crate) runs: RunRecord,
    pub(crate) noting: bool,
    pub(crate) stage: Stage,
    pub(crate) told: Told,
}

// Written out, so that its parts are let go of here alone.
impl<'d> Drop for Machine<'d> {
    fn drop(self) {
        let Machine {
            graph: _,
            nets: _,
            table: _,
            record: _,
            runs: _,
            noting: _,
            stage: _,
            told: _,
        } = self;
    }
}

impl<'d> Values for Machine<'d> {
    ghost values = { λ machine. machine.nets.objects.values.items };

    fn value(&self, object: ObjectId) -> Vec4 {
        self.nets.value(object)
    }
}
