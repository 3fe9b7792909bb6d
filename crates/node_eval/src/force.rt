// The view's fault at the outputs of a node.

ghost use Rattle.std.specs.Prelude.{◌≡◌, ◌≤◌, map, length, take};
ghost use Rattle.vf_base.specs.Base.{object_number, node_number};
ghost use Rattle.vf_base.specs.Lists.{zip_with};
ghost use Rattle.v_design.specs.Designs.{forced_output};
ghost use Rattle.v_design.specs.Views.{machine_of};

use four_value::Vec4;
use v_design::View;
use vf_base::{NodeId, ObjectId};

/// Holds in place of each output's value what the node gives there under the view's fault.
pub fn force_outputs(view: &View, node: NodeId, outputs: &[ObjectId], held: &mut [Vec4])
    requires { length outputs.now ≤ length held.old }
    ensures { take (length outputs.now) held.new ≡ zip_with (forced_output (machine_of view.now).fault (node_number node)) (map object_number outputs.now) (take (length outputs.now) held.old) }
{
    'outputs: for (number, output) in outputs.iter().enumerate() {
        held[number] = view.forced_output(node, *output, held[number]);
    }
}
