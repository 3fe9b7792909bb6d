// How much a design has.

/// How many objects, nodes and processes a design has.
#[derive(Clone, Copy, PartialEq, Eq, Debug)]
pub struct Sizes {
    pub objects: u32,
    pub nodes: u32,
    pub processes: u32,
}
