// The change of an object.

use four_value::Vec4;
use vf_base::ObjectId;

/// The value of an object before and after an event.
#[derive(Clone, Copy, Debug)]
pub struct Change {
    pub object: ObjectId,
    pub old: Vec4,
    pub new: Vec4,
}
