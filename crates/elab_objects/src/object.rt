// Objects with what they hold.

use v_design::Object;

/// The node that writes a piece of a net, by its number in the walk, and the place of the piece's least significant bit in the node's value.
#[derive(Clone, Copy, Debug, PartialEq, Eq)]
pub struct PieceDriver {
    pub node: usize,
    pub place: u128,
}

/// An object, with the node that writes it. It has the name of the net, the variable or the memory whose bits it holds.
#[derive(Drop)]
pub struct HeldObject {
    pub object: Object,
    pub driver: Option<PieceDriver>,
}
