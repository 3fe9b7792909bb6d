// What a list of a copy has.

ghost use Rattle.std.specs.Prelude.{◌≡◌};

use four_value::{Bit, Vec4};
use vf_base::ObjectId;

/// What is kept under a number: that of an object or of a process.
#[derive(Clone, Copy, Debug, Drop)]
pub struct Entry<T> {
    pub number: u32,
    pub kept: T,
}

/// An object's own value that was found, and a hint where the next one stands.
#[derive(Clone, Copy, Debug)]
pub struct HeldValue {
    pub object: ObjectId,
    pub value: Vec4,
    pub hint: usize,
}

/// What stands in the places of a list that aren't used.
impl Default for Entry<Vec4> {
    fn default() -> Entry<Vec4> {
        Entry {
            number: 0,
            kept: Vec4::of_bit(Bit::X),
        }
    }
}
