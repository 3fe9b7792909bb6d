// A change of an object.

use four_value::Vec4;
use vf_base::ObjectId;

/// A value that an object got by the event of a moment.
#[derive(Clone, Copy, Debug)]
pub struct Change {
    pub moment: u32,
    pub object: ObjectId,
    pub value: Vec4,
}
