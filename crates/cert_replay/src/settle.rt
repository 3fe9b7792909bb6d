// The node events that follow a step.

ghost use Rattle.std.specs.Prelude.{IfOk, OnOk};
ghost use Rattle.cert_replay.specs.Kept.{IsReplaying};
ghost use Rattle.cert_replay.specs.Deeds.{Settles, SettlesOne};

use crate::replaying::Replaying;
use machine_events::work_node;
use vf_base::NoMemory;

impl<'d> Replaying<'d> {
    /// The least node with work is evaluated, and its nets get the values. The answer is whether a node had work.
    ///
    /// # Errors
    ///
    /// Want of memory.
    fn settle_one(&mut self) -> Result<bool, NoMemory>
        requires { IsReplaying self.old }
        ensures { IfOk result (λ more. SettlesOne more self.old self.new) }
    {
        match self.nets.least_node() {
            None => Ok(false),
            Some(node) => {
                work_node(
                    self.graph.design,
                    &mut self.nets,
                    &mut self.table,
                    &mut self.record,
                    &mut self.told,
                    node,
                )?;
                Ok(true)
            }
        }
    }

    /// All node events are done, the least node first.
    ///
    /// # Errors
    ///
    /// Want of memory.
    pub(crate) fn settle(&mut self) -> Result<(), NoMemory>
        requires { IsReplaying self.old }
        ensures { OnOk result (Settles self.old self.new) }
    {
        let mut left = self.graph.design.nodes.as_slice().len();
        'nodes: while left > 0 {
            if !self.settle_one()? {
                return Ok(());
            }
            left -= 1;
        }
        Ok(())
    }
}
