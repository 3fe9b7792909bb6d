// Nets, variables and memories of instances.

ghost use Rattle.std.specs.Prelude.{◌≡◌};

use crate::range::DeclaredRange;
use four_value::Vec4;
use v_tree::Direction;
use vf_base::{Place, Text};

/// That a port is one object with the net or variable that it is connected to, and the place of the connection.
#[derive(Drop)]
pub struct Joining {
    pub into: Text,
    pub direction: Direction,
    pub place: Place,
}

/// A net or a variable by its hierarchical name. The top of the design has depth 0.
#[derive(Drop)]
pub struct Signal {
    pub name: Text,
    pub is_reg: bool,
    pub range: DeclaredRange,
    /// The first content of a variable, if it has one.
    pub first: Option<Vec4>,
    pub place: Place,
    pub depth: u8,
    pub joined: Option<Joining>,
}

/// A memory by its hierarchical name, with the range of a word and the addresses of the first and the last word.
#[derive(Drop)]
pub struct WalkedMemory {
    pub name: Text,
    pub range: DeclaredRange,
    pub first: u32,
    pub last: u32,
    pub place: Place,
}
