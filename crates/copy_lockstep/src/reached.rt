// How far a fault has come in a window.

/// Through how many slots of a window a fault has gone, and how many of the plan's strobes come up to the last one.
#[derive(Clone, Copy, Debug)]
pub struct Reached {
    pub slot: u32,
    pub passed: usize,
}
