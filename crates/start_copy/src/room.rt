// Room for the nodes that a fault reaches.

ghost use Rattle.std.specs.Prelude.{IfOk};
ghost use Rattle.v_design.specs.PlainDesigns.{design_of};
ghost use Rattle.start_copy.specs.Rooms.{IsRoomFor};

use net_graph::Graph;
use net_settle::{NodeWork, Settle};
use std::alloc::Global;
use vf_base::NoMemory;

/// The nodes that are still to be evaluated, and room to evaluate one; it serves one fault of a design after the other.
#[derive(Drop)]
pub struct StartRoom<'d> {
    pub(crate) settle: Settle<'d>,
    pub(crate) work: NodeWork,
}

impl<'d> StartRoom<'d> {
    /// Room for the design of a graph.
    ///
    /// # Errors
    ///
    /// Want of memory.
    pub fn new(alloc: Global, graph: &'d Graph<'d>) -> Result<StartRoom<'d>, NoMemory>
        ensures { IfOk result (λ room. IsRoomFor (design_of graph.now.design.now) room) }
    {
        let settle = Settle::settled(alloc, graph)?;
        let work = NodeWork::new(alloc, graph.design)?;
        Ok(StartRoom { settle, work })
    }
}
