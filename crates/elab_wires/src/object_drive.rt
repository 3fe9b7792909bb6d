// A select that a node drives.

ghost use Rattle.std.specs.Prelude.{◌<◌, ◌^◌};

use elab_parts::DrivenBits;
use vf_base::Place;

/// A select that a node drives: the node's number in the walk, where the select's least bit stands in the node's value, its bits and its place.
///
/// Places in a value are counted in 128 bits, which no list of selects fills.
#[derive(Clone, Copy, Debug)]
pub struct ObjectDrive {
    pub node: usize,
    pub offset: u128,
    pub bits: DrivenBits,
    pub place: Place,
    pub ghost within: { offset < 2 ^ 99 },
}
