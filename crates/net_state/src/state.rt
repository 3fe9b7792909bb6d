// The values and the nodes of a machine.

ghost use Rattle.v_design.specs.PlainDesigns.{design_of};
ghost use Rattle.net_settle.specs.Rooms.{IsMadeFor};

use crate::objects::Objects;
use four_value::Vec4;
use net_settle::NodeWork;
use v_design::{Fault, Values};
use vf_base::ObjectId;

/// The values of the objects of a design, and the nodes that are still to be evaluated, good or under a fault. No update of a net is ever left pending.
#[derive(Drop)]
pub struct NetState<'d> {
    pub(crate) fault: Option<Fault>,
    pub(crate) objects: Objects<'d>,
    pub(crate) room: NodeWork,
    pub ghost made: { IsMadeFor (design_of objects.settle.graph.now.design.now) room },
}

impl<'d> Values for NetState<'d> {
    ghost values = { λ nets. nets.objects.values.items };

    fn value(&self, object: ObjectId) -> Vec4 {
        self.objects.value(object)
    }
}
