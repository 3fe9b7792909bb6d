// Objects that come to hold values of a faulty machine.

ghost use Rattle.std.specs.Prelude.{◌≡◌, ℕ, ◌<◌, true, List, length, map, OnOk, slice_set};
ghost use Rattle.vf_base.specs.Base.{object_number};
ghost use Rattle.vf_base.specs.Lists.{has};
ghost use Rattle.v_design.specs.Assignments.{with_outputs};
ghost use Rattle.v_design.specs.Designs.{width_in};
ghost use Rattle.v_design.specs.PlainDesigns.{design_of};
ghost use Rattle.copy_overlay.specs.Faulty.{faulty_values};
ghost use Rattle.node_eval.specs.ValuesOf.{AreValuesOf};
ghost use Rattle.net_state.specs.Held.{AreNets, HaveWidths};
ghost use Rattle.start_copy.specs.Reached.{ComesToHold};

use copy_state::FaultCopy;
use four_value::Vec4;
use net_settle::Settle;
use v_design::Values;
use vf_base::{NoMemory, ObjectId};

/// The good machine's values, with a copy's own over them.
#[derive(Drop)]
pub(crate) struct OverGood<'v> {
    pub(crate) good: &'v [Vec4],
    pub(crate) copy: &'v FaultCopy,
}

impl<'v> Values for OverGood<'v> {
    ghost use Rattle.copy_overlay.specs.Faulty.{faulty_values};

    ghost values = { λ own. faulty_values own.good.now own.copy.now.values };

    fn value(&self, object: ObjectId) -> Vec4 {
        self.copy.value(object, self.good[object.0 as usize])
    }
}

/// An object comes to hold a value, and where that isn't what it held the nodes that read it are marked.
///
/// # Errors
///
/// Want of memory.
pub(crate) fn hold(
    good: &[Vec4],
    settle: &mut Settle,
    copy: &mut FaultCopy,
    object: ObjectId,
    own: Vec4,
) -> Result<(), NoMemory>
    requires there { object_number object < length good.now }
    requires are { AreValuesOf (design_of settle.old.graph.now.design.now) (faulty_values good.now copy.old.values) }
    requires good { AreValuesOf (design_of settle.old.graph.now.design.now) good.now }
    requires width { length own ≡ width_in (design_of settle.old.graph.now.design.now) (object_number object) }
    ensures belongs { settle.new.graph.now ≡ settle.old.graph.now }
    ensures holds { OnOk result ((objects : List ℕ) → has objects (object_number object) ≡ true →
        ComesToHold (design_of settle.old.graph.now.design.now) good.now objects (slice_set (faulty_values good.now copy.old.values) (object_number object) own)
        copy.old copy.new settle.old.marks.items settle.new.marks.items) }
{
    let shown = good[object.0 as usize];
    let old = copy.value(object, shown);
    if old.same(own) {
        return Ok(());
    }
    copy.set(object, shown, own)?;
    settle.change(object);
    Ok(())
}

/// The nets of a node come to hold values, one after the other.
///
/// # Errors
///
/// Want of memory.
pub(crate) fn hold_all(
    good: &[Vec4],
    settle: &mut Settle,
    copy: &mut FaultCopy,
    outputs: &[ObjectId],
    values: &[Vec4],
) -> Result<(), NoMemory>
    requires nets { AreNets (design_of settle.old.graph.now.design.now) (map object_number outputs.now) }
    requires widths { HaveWidths (design_of settle.old.graph.now.design.now) (map object_number outputs.now) values.now }
    requires are { AreValuesOf (design_of settle.old.graph.now.design.now) (faulty_values good.now copy.old.values) }
    requires good { AreValuesOf (design_of settle.old.graph.now.design.now) good.now }
    ensures belongs { settle.new.graph.now ≡ settle.old.graph.now }
    ensures holds { OnOk result (ComesToHold (design_of settle.old.graph.now.design.now) good.now (map object_number outputs.now)
        (with_outputs (map object_number outputs.now) values.now (faulty_values good.now copy.old.values))
        copy.old copy.new settle.old.marks.items settle.new.marks.items) }
{
    'outputs: for at in 0..outputs.len() {
        hold(good, settle, copy, outputs[at], values[at])?;
    }
    Ok(())
}
