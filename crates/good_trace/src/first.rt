// What the objects hold at the start.

ghost use Rattle.std.specs.Prelude.{◌≡◌, IfOk, length};
ghost use Rattle.v_design.specs.Assignments.{first_values};
ghost use Rattle.v_design.specs.Designs.{good_machine};
ghost use Rattle.v_design.specs.PlainDesigns.{design_of};

use four_value::Vec4;
use net_graph::Graph;
use net_state::NetState;
use std::alloc::Global;
use v_design::{Design, Values, View};
use vf_base::{NoMemory, ObjectId};

/// What the objects hold at the start of the good first run, by their numbers: variables their first contents, and the nets settled on them.
pub(crate) fn first_values<'d>(
    alloc: Global,
    design: &'d Design,
    graph: &'d Graph<'d>,
) -> Result<Vec<Vec4>, NoMemory>
    requires { graph.now.design.now ≡ design.now }
    ensures values { IfOk result (λ values. values.items ≡ first_values (good_machine (design_of design.now))) }
    ensures count { IfOk result (λ values. length values.items ≡ length (design_of design.now).objects) }
{
    let nets = NetState::new(
        alloc,
        View {
            design,
            fault: None,
        },
        graph,
    )?;
    let mut values = Vec::new(alloc);
    'objects: for number in 0..nets.object_count() {
        values.push(nets.value(ObjectId(number as u32)))?;
    }
    Ok(values)
}
