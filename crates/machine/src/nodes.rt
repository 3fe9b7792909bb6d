// The work on a node.

ghost use Rattle.std.specs.Prelude.{◌≡◌, Some, OnOk};
ghost use Rattle.vf_base.specs.Base.{node_number};
ghost use Rattle.v_design.specs.States.{Evaluation};
ghost use Rattle.v_design.specs.Runs.{work_of};
ghost use Rattle.machine_laws.specs.SlotLoop.{after_node};
ghost use Rattle.net_state.specs.States.{nodes_in};
ghost use Rattle.machine.specs.Moments.{IsMoving, GoesOn};

use crate::parts::Machine;
use machine_events::work_node;
use vf_base::{NoMemory, NodeId};

impl<'d> Machine<'d> {
    /// The least node with work is evaluated, and its nets get the values.
    ///
    /// # Errors
    ///
    /// Want of memory.
    pub(crate) fn node_work(&mut self, node: NodeId) -> Result<(), NoMemory>
        requires moving { IsMoving self.old }
        requires node { work_of 0 (nodes_in self.old.nets) ≡ Some (Evaluation (node_number node)) }
        ensures { OnOk result (GoesOn (λ machine at. after_node machine (node_number node) at) self.old self.new) }
    {
        machine_laws::slot_goes_on();
        run_record::runs_go_on();
        work_node(
            self.graph.design,
            &mut self.nets,
            &mut self.table,
            &mut self.record,
            &mut self.told,
            node,
        )?;
        Ok(())
    }
}
