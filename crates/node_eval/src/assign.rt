// What a continuous assignment gives its outputs.

ghost use Rattle.std.specs.Prelude.{◌≡◌, ℕ, ◌<◌, ◌≤◌, map, length, take, get_or, vec_len};
ghost use Rattle.std.specs.List.{All};
ghost use Rattle.vf_base.specs.Base.{object_number, node_number};
ghost use Rattle.four_value.specs.Values.{IsWidth, part_of};
ghost use Rattle.vf_base.specs.Lists.{zip_with};
ghost use Rattle.v_design.specs.Designs.{forced_output, width_in};
ghost use Rattle.v_design.specs.Assignments.{object_width};
ghost use Rattle.v_design.specs.PlainDesigns.{design_of};
ghost use Rattle.v_design.specs.Views.{machine_of};

use four_value::Vec4;
use v_design::{Design, View};
use vf_base::{NodeId, ObjectId};

/// The width of an object.
fn width_of(design: &Design, object: ObjectId) -> u8
    requires { object_number object < length (design_of design.now).objects }
    ensures { result ≡ width_in (design_of design.now) (object_number object) }
{
    design.objects.as_slice()[object.0 as usize].width
}

/// Gives each output its bits of the value, from its place on.
pub fn place_parts(
    view: &View,
    node: NodeId,
    outputs: &[ObjectId],
    places: &[u32],
    value: Vec4,
    results: &mut Vec<Vec4>,
)
    requires there { All (λ output. object_number output < length (design_of view.now.design.now).objects) outputs.now }
    requires widths { (object : ℕ) → object < length (design_of view.now.design.now).objects → IsWidth (width_in (design_of view.now.design.now) object) }
    requires alike { length places.now ≡ length outputs.now }
    requires room { length outputs.now ≤ vec_len results.old }
    ensures same { vec_len results.new ≡ vec_len results.old }
    ensures placed { take (length outputs.now) results.new.items
        ≡ zip_with (forced_output (machine_of view.now).fault (node_number node)) (map object_number outputs.now)
        (zip_with (λ object place. part_of value place (object_width (machine_of view.now) object)) (map object_number outputs.now) places.now) }
{
    'outputs: for (number, output) in outputs.iter().enumerate() {
        let part = value.part(places[number], width_of(view.design, *output));
        results[number] = view.forced_output(node, *output, part);
    }
}
