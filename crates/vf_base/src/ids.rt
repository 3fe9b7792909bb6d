// Numbers of the parts of a design, places in its text, and watched bits.

ghost use Rattle.std.specs.Prelude.{◌≡◌};

/// The number of an object of a design.
#[derive(Clone, Copy, PartialEq, Eq, Debug)]
pub struct ObjectId(pub u32);

/// The number of a node of a design.
#[derive(Clone, Copy, PartialEq, Eq, Debug)]
pub struct NodeId(pub u32);

/// The number of a process of a design.
#[derive(Clone, Copy, PartialEq, Eq, Debug)]
pub struct ProcId(pub u32);

/// The place of a fault in the list of faults.
#[derive(Clone, Copy, PartialEq, Eq, Debug)]
pub struct FaultId(pub u32);

/// A place in the text, line and column from 1, the columns counted in bytes.
#[derive(Clone, Copy, PartialEq, Eq, Debug)]
pub struct Place {
    pub line: u32,
    pub column: u32,
}

/// A bit that the strobes look at.
#[derive(Clone, Copy, PartialEq, Eq, Debug)]
pub struct WatchBit {
    pub object: ObjectId,
    pub bit: u32,
}
