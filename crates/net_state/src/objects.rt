// The values of the objects, with the nodes that are still to be evaluated.

ghost use Rattle.std.specs.Prelude.{◌≡◌, ◌<◌, length};
ghost use Rattle.v_design.specs.PlainDesigns.{design_of};
ghost use Rattle.node_eval.specs.ValuesOf.{AreValuesOf};

use four_value::Vec4;
use net_settle::Settle;
use v_design::Values;
use vf_base::ObjectId;

/// A value for each object, and the nodes that are still to be evaluated.
#[derive(Drop)]
pub struct Objects<'d> {
    pub(crate) values: Vec<Vec4>,
    pub(crate) settle: Settle<'d>,
    pub ghost are: { AreValuesOf (design_of settle.graph.now.design.now) values.items },
}

impl<'d> Values for Objects<'d> {
    ghost values = { λ objects. objects.values.items };

    fn value(&self, object: ObjectId) -> Vec4 {
        self.values[object.0 as usize]
    }
}
