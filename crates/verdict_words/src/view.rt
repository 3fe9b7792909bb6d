// What a seat of a board knows, as plain data of which no value is made at run time.

use std::collections::LinkedList;
use vf_base::FaultId;

/// A fault and the code in its word.
pub struct Mark {
    /// The fault.
    pub fault: FaultId,
    /// The code, which isn't 0.
    pub code: u64,
}

/// What a seat of a board knows. It exists in proofs alone.
pub struct View {
    /// The claims that the seat drew.
    pub claimed: LinkedList<u32>,
    /// The faults whose words it moved.
    pub moved: LinkedList<Mark>,
    /// The faults whose words it made or found other than 0.
    pub seen: LinkedList<Mark>,
    /// How many calls of `claim` it may make in all; 0 where the view is spent, and there alone.
    pub share: u64,
    /// How many calls of `claim` it has made.
    pub calls: u64,
    /// Whether `claim` has told it that no claim is left.
    pub dry: bool,
}
