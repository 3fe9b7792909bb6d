// What an index is made of.

/// A number at one of its moments. A moment is counted in events, from the beginning of a window.
#[derive(Clone, Copy, PartialEq, Eq, Debug)]
pub struct Occurrence {
    pub number: u32,
    pub moment: u32,
}
