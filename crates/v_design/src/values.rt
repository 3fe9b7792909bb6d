// The values of a design's objects.

use four_value::Vec4;
use vf_base::ObjectId;

/// Values of the objects of a design: a whole machine, or an overlay that keeps differences.
pub trait Values {
    ghost use Rattle.std.specs.Prelude.{◌≡◌, ◌<◌, List, length};
    ghost use Rattle.four_value.specs.Values.{LogicValue};
    ghost use Rattle.v_design.specs.Assignments.{value_at};
    ghost use Rattle.vf_base.specs.Base.{object_number};

    /// One value for each object, by the objects' numbers.
    ghost values: { Self → List LogicValue };

    /// The value of an object.
    fn value(&self, object: ObjectId) -> Vec4
        requires { object_number object < length (values self.now) }
        ensures { result ≡ value_at (values self.now) (object_number object) };
}
