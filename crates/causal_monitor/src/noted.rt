// An access as it is noted.

ghost use Rattle.std.specs.Prelude.{◌≡◌};

use four_value::{Edge, Vec4};
use vf_base::Access;

/// A run of an object's bits, from the least significant one on, and the edge with which a wait looks at it.
#[derive(Clone, Copy, PartialEq, Eq, Debug)]
pub struct WaitEdge {
    pub low: u32,
    pub width: u8,
    pub edge: Edge,
}

/// An access with what the monitor has to know of it: a write has the old and the new value of its object, an access of a wait its entry.
#[derive(Clone, Copy, Debug)]
pub struct Noted {
    pub access: Access,
    pub old: Option<Vec4>,
    pub new: Option<Vec4>,
    pub entry: Option<WaitEdge>,
}
