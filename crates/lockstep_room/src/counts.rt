// How many parts a design has.

/// How many objects and how many processes a design has.
#[derive(Clone, Copy, Debug)]
pub struct Counts {
    pub objects: u32,
    pub processes: u32,
}
