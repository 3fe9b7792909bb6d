// Sized expressions and statements over the objects of a design.

ghost use Rattle.std.specs.Prelude.{◌≡◌};

use four_value::{BinaryOperator, CaseKind, Edge, UnaryOperator, Vec4};
use vf_base::{ObjectId, Place, Seq};

/// An object that holds some bits of a name, and how many.
#[derive(Clone, Copy, PartialEq, Eq, Debug)]
pub struct PieceRef {
    pub object: ObjectId,
    pub width: u8,
}

/// A name with its declared bounds.
#[derive(Drop)]
pub struct VectorRef {
    pub high: u32,
    pub low: u32,
    pub pieces: Seq<PieceRef>,
}

/// A memory with its declared bounds, the width of a word, and its words by address.
#[derive(Drop)]
pub struct MemoryRef {
    pub first: u32,
    pub last: u32,
    pub width: u8,
    pub words: Seq<ObjectId>,
}

/// A sized expression. Each part has a width, and whether it is signed.
#[derive(Drop)]
pub enum FlatExpr {
    Constant {
        width: u8,
        signed: bool,
        value: Vec4,
    },
    Name {
        width: u8,
        signed: bool,
        vector: VectorRef,
    },
    BitSelect {
        width: u8,
        signed: bool,
        vector: VectorRef,
        index: Box<FlatExpr>,
    },
    PartSelect {
        width: u8,
        signed: bool,
        vector: VectorRef,
        from: u32,
        to: u32,
    },
    WordSelect {
        width: u8,
        signed: bool,
        memory: MemoryRef,
        index: Box<FlatExpr>,
    },
    Unary {
        width: u8,
        signed: bool,
        operator: UnaryOperator,
        operand: Box<FlatExpr>,
    },
    Binary {
        width: u8,
        signed: bool,
        operator: BinaryOperator,
        left: Box<FlatExpr>,
        right: Box<FlatExpr>,
    },
    Conditional {
        width: u8,
        signed: bool,
        condition: Box<FlatExpr>,
        first: Box<FlatExpr>,
        second: Box<FlatExpr>,
    },
    Concatenation {
        width: u8,
        signed: bool,
        parts: Vec<FlatExpr>,
    },
    Replication {
        width: u8,
        signed: bool,
        count: u32,
        parts: Vec<FlatExpr>,
    },
}

/// A variable as a target, with its declared bounds.
#[derive(Clone, Copy, PartialEq, Eq, Debug)]
pub struct VariableRef {
    pub object: ObjectId,
    pub width: u8,
    pub high: u32,
    pub low: u32,
}

/// What an assignment writes.
#[derive(Drop)]
pub enum FlatTarget {
    Whole(VariableRef),
    Bit(VariableRef, FlatExpr),
    Part(VariableRef, u32, u32),
    Word(MemoryRef, FlatExpr),
}

/// An entry of a wait: a run of an object's bits and an edge.
#[derive(Clone, Copy, PartialEq, Eq, Debug)]
pub struct WaitEntry {
    pub object: ObjectId,
    pub low: u32,
    pub width: u8,
    pub edge: Edge,
}

/// A sized statement, with the place of its first token; a null statement takes no step and has no place.
#[cycle(statement)]
#[derive(Drop)]
pub enum FlatStmt {
    Null,
    Block {
        place: Place,
        statements: Vec<FlatStmt>,
    },
    If {
        place: Place,
        condition: FlatExpr,
        first: Box<FlatStmt>,
        second: Box<FlatStmt>,
    },
    Case {
        place: Place,
        kind: CaseKind,
        value: FlatExpr,
        items: Vec<CaseItem>,
        default: Box<FlatStmt>,
    },
    For {
        place: Place,
        first_targets: Vec<FlatTarget>,
        first: FlatExpr,
        condition: FlatExpr,
        next_targets: Vec<FlatTarget>,
        next: FlatExpr,
        body: Box<FlatStmt>,
    },
    While {
        place: Place,
        condition: FlatExpr,
        body: Box<FlatStmt>,
    },
    Repeat {
        place: Place,
        count: FlatExpr,
        body: Box<FlatStmt>,
    },
    Forever {
        place: Place,
        body: Box<FlatStmt>,
    },
    Delay {
        place: Place,
        delay: u32,
        body: Box<FlatStmt>,
    },
    EventControl {
        place: Place,
        entries: Seq<WaitEntry>,
        body: Box<FlatStmt>,
    },
    Wait {
        place: Place,
        condition: FlatExpr,
        body: Box<FlatStmt>,
    },
    Blocking {
        place: Place,
        targets: Vec<FlatTarget>,
        delay: Option<u32>,
        value: FlatExpr,
    },
    Nonblocking {
        place: Place,
        targets: Vec<FlatTarget>,
        delay: u32,
        value: FlatExpr,
    },
    Finish {
        place: Place,
    },
}

/// An item of a case: its labels and its statement.
#[cycle(statement)]
#[derive(Drop)]
pub struct CaseItem {
    pub labels: Vec<FlatExpr>,
    pub statement: FlatStmt,
}
