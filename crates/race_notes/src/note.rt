// What is noted of an object, and where a block stands.

/// What is noted of an object that own blocks of a phase access.
#[derive(Clone, Copy, Debug)]
pub struct ObjectNote {
    /// Some access of it is none that the good machine's block beside has.
    pub suspect: bool,
    /// Some access of it is one that the good machine's block beside has.
    pub met: bool,
    /// It is read.
    pub read: bool,
    /// It is written.
    pub written: bool,
    /// It is read or written more than once.
    pub again: bool,
    /// The moment with which the good machine's block begins beside the first own block that accesses it.
    pub since: Option<u32>,
}

/// The moments of the good machine's block beside an own one: that of its first event, and the one behind its last.
#[derive(Clone, Copy, Debug)]
pub struct OwnSpan {
    pub begins: u32,
    pub ends: u32,
}
