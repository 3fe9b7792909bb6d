// The values that a block sees: what it has assigned so far in front of the values of the design's objects.

ghost use Rattle.std.specs.Prelude.{◌≡◌, ℕ, ◌<◌, ◌≤◌, map, length, get_or, MatchOption};
ghost use Rattle.vf_base.specs.Base.{object_number};
ghost use Rattle.v_design.specs.Assignments.{value_at};
ghost use Rattle.node_eval.specs.Overlaid.{overlaid, IsNone};

use four_value::Vec4;
use v_design::Values;
use vf_base::ObjectId;

/// What a block runs over: the values of all objects before it, its outputs, and a table that has for each output its place among them.
#[derive(Drop)]
pub(crate) struct Frame<'v, V: Values> {
    pub values: &'v V,
    pub outputs: &'v [ObjectId],
    pub places: &'v [usize],
    pub ghost there: { (k : ℕ) → k < length outputs.now → get_or (map object_number outputs.now) k 0 < length (V.values values.now) },
    pub ghost within: { (k : ℕ) → k < length outputs.now → get_or (map object_number outputs.now) k 0 < length places.now },
    pub ghost tabled: { (k : ℕ) → k < length outputs.now → get_or places.now (get_or (map object_number outputs.now) k 0) 0 ≡ k },
}

impl<'v, V: Values> Frame<'v, V> {
    /// The place of an object among the outputs; none where it isn't one.
    pub fn place_of(&self, object: ObjectId) -> Option<usize>
        ensures { MatchOption result (IsNone (map object_number self.now.outputs.now) (object_number object)) (λ k. (k < length self.now.outputs.now) ×
            (get_or (map object_number self.now.outputs.now) k 0 ≡ object_number object)) }
    {
        let at = object.0 as usize;
        if at < self.places.len() {
            let place = self.places[at];
            if place < self.outputs.len() && self.outputs[place] == object {
                return Some(place);
            }
        }
        None
    }
}

/// The values of all objects, those that the outputs have so far in front.
#[derive(Drop)]
pub(crate) struct Overlay<'v, V: Values> {
    pub frame: &'v Frame<'v, V>,
    pub held: &'v [Vec4],
    pub ghost alike: { length frame.now.outputs.now ≤ length held.now },
}

impl<'v, V: Values> Values for Overlay<'v, V> {
    ghost use Rattle.node_eval.specs.Overlaid.{overlaid};

    ghost values = { λ overlay. overlaid overlay.frame.now.outputs.now overlay.held.now (V.values overlay.frame.now.values.now) };

    fn value(&self, object: ObjectId) -> Vec4 {
        match self.frame.place_of(object) {
            Some(place) => self.held[place],
            None => self.frame.values.value(object),
        }
    }
}
