// Flat designs, stuck-at faults, plans, and the updates of a run.

ghost use Rattle.v_design.specs.WellFormed.{KeepsRules, IsPlan};
ghost use Rattle.v_design.specs.Plain.{flat_design, test_plan};

use crate::logic::ObjectKind;
use crate::tree::{FlatExpr, FlatStmt, PieceRef};
use four_value::{GateKind, Vec4};
use vf_base::{NodeId, ObjectId, Place, Seq, Text, WatchBit};

/// A variable, a word of a memory, or a net piece.
///
/// The name is the declared one with the instance names before it. `high` and `low` are the declared indexes of the first and the last bit;
/// `ranged` says that the name was declared with a range, and `address` is that of a word.
#[derive(Drop)]
pub struct Object {
    pub name: Text,
    pub kind: ObjectKind,
    pub width: u8,
    pub ranged: bool,
    pub high: u32,
    pub low: u32,
    pub address: u32,
    pub first: Vec4,
    pub place: Place,
}

/// What a node does. An assignment has for each output the place of its least significant bit in the value.
#[derive(Drop)]
pub enum NodeKind {
    Assign(FlatExpr, Seq<u32>),
    Gate(GateKind, Vec<FlatExpr>),
    Block(FlatStmt),
}

/// A continuous assignment, a gate, or a combinational block.
#[derive(Drop)]
pub struct Node {
    pub kind: NodeKind,
    pub inputs: Seq<ObjectId>,
    pub outputs: Seq<ObjectId>,
    pub name: Text,
}

/// An `initial` or an `always`.
#[derive(Drop)]
pub struct Process {
    pub always: bool,
    pub body: FlatStmt,
    pub place: Place,
}

/// A name that is joined into other objects: its declared bounds, and the pieces that hold its bits, from the least significant.
#[derive(Drop)]
pub struct JoinedName {
    pub name: Text,
    pub ranged: bool,
    pub high: u32,
    pub low: u32,
    pub pieces: Seq<PieceRef>,
}

/// A flat design: its objects, the names that are joined into them, its nodes and its processes, each by its number.
///
/// Who makes one proves that it keeps the rules of every flat design.
#[derive(Drop)]
pub struct Design {
    pub objects: Seq<Object>,
    pub joined: Seq<JoinedName>,
    pub nodes: Seq<Node>,
    pub processes: Seq<Process>,
    pub ghost rules: { ∥ KeepsRules (flat_design objects joined nodes processes) ∥₁ },
}

/// A bit of a variable, a bit of a node's output, or an input terminal of a gate, counted from 1.
#[derive(Clone, Copy, PartialEq, Eq, Debug)]
pub enum Site {
    Var(ObjectId, u32),
    Out(NodeId, ObjectId, u32),
    Terminal(NodeId, u32),
}

/// A stuck-at fault.
#[derive(Clone, Copy, PartialEq, Eq, Debug)]
pub struct Fault {
    pub site: Site,
    pub value: bool,
}

/// A plan: the time at which the test ends, the times of the strobes, the bits that they look at, and the faults that are listed.
///
/// Who makes one proves that the strobes ascend to the end at most, and that the lists are within their limits.
#[derive(Drop)]
pub struct Plan {
    pub end: u64,
    pub strobes: Seq<u64>,
    pub watched: Seq<WatchBit>,
    pub faults: Seq<Fault>,
    pub ghost rules: { ∥ IsPlan (test_plan end strobes watched faults) ∥₁ },
}

/// Bits that are written to an object from a place on, and the line of the statement that writes them.
#[derive(Clone, Copy, Debug)]
pub struct Update {
    pub object: ObjectId,
    pub low: u32,
    pub value: Vec4,
    pub line: u32,
}

/// An update with the time at which it is due.
#[derive(Clone, Copy, Debug)]
pub struct Due {
    pub time: u64,
    pub update: Update,
}
