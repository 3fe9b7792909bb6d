// Accesses, races and the findings that a report prints.

ghost use Rattle.std.specs.Prelude.{◌≡◌};

use crate::ids::{FaultId, ObjectId, ProcId};

/// The kind of an access, as a report prints it.
#[derive(Clone, Copy, PartialEq, Eq, Debug)]
pub enum AccessKind {
    Read,
    Write,
    Await,
    Ended,
    Held,
    Settle,
}

/// An access as a report prints it: what is done to an object, by which process, in which line.
#[derive(Clone, Copy, PartialEq, Eq, Debug)]
pub struct Access {
    pub kind: AccessKind,
    pub object: ObjectId,
    pub process: ProcId,
    pub line: u32,
}

/// Two conflicting accesses of one phase, the earlier one first; phases are numbered from 1.
#[derive(Clone, Copy, PartialEq, Eq, Debug)]
pub struct Pair {
    pub time: u64,
    pub phase: u32,
    pub first: Access,
    pub second: Access,
}

/// The machine that a race is in.
#[derive(Clone, Copy, PartialEq, Eq, Debug)]
pub enum Side {
    Good,
    Faulty,
}

/// How the grading of a fault ends.
#[derive(Clone, Copy, PartialEq, Eq, Debug)]
pub enum End {
    Detected(u64),
    Possible(u64),
    Undetected,
    Race(Side, Pair),
    Hyper(u64),
}

/// How the grading of one fault ended.
#[derive(Clone, Copy, PartialEq, Eq, Debug)]
pub struct Finding {
    pub fault: FaultId,
    pub end: End,
}
