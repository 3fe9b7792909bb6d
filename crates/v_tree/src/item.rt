// Modules, their ports, declarations and items (IEEE 1364-2001, annexes A.1 to A.4).

ghost use Rattle.std.specs.Prelude.{◌≡◌};

use crate::expression::{Expr, Target};
use crate::statement::Stmt;
use four_value::GateKind;
use vf_base::{Place, Seq, Text};

/// Which way a port goes.
#[derive(Clone, Copy, PartialEq, Eq, Debug)]
pub enum Direction {
    Input,
    Output,
}

/// A name with its place.
#[derive(Drop)]
pub struct Name {
    pub name: Text,
    pub place: Place,
}

/// A range `[high:low]`, at its opening bracket. Either bound may be the greater one.
#[derive(Drop)]
pub struct Range {
    pub place: Place,
    pub high: Expr,
    pub low: Expr,
}

/// A parameter with its value, at its name.
#[derive(Drop)]
pub struct Param {
    pub name: Text,
    pub place: Place,
    pub value: Expr,
}

/// Parameters that are declared together, by `parameter` or by `localparam`, at that word.
#[derive(Drop)]
pub struct Params {
    pub place: Place,
    pub is_local: bool,
    pub signed: bool,
    pub range: Option<Range>,
    pub params: Seq<Param>,
}

/// Ports that are declared together, at the word of their direction.
#[derive(Drop)]
pub struct Ports {
    pub place: Place,
    pub direction: Direction,
    pub is_reg: bool,
    pub signed: bool,
    pub range: Option<Range>,
    pub names: Seq<Name>,
}

/// A net at its name, with the value that it is assigned where it is declared.
#[derive(Drop)]
pub struct Wire {
    pub name: Text,
    pub place: Place,
    pub value: Option<Expr>,
}

/// What stands behind the name of a variable.
#[derive(Drop)]
pub enum Content {
    Nothing,
    /// Its first content.
    First(Expr),
    /// The bounds of a memory.
    Memory(Range),
}

/// A variable at its name.
#[derive(Drop)]
pub struct Reg {
    pub name: Text,
    pub place: Place,
    pub content: Content,
}

/// An assignment of a net, `target = value`.
#[derive(Drop)]
pub struct Assignment {
    pub target: Target,
    pub value: Expr,
}

/// A gate, with its name if it has one.
#[derive(Drop)]
pub struct Gate {
    pub name: Option<Name>,
    pub output: Target,
    pub inputs: Seq<Expr>,
}

/// A connection by the name of a port or a parameter, at that name, or by its position, where its expression stands or would stand.
#[derive(Drop)]
pub struct Connection {
    pub name: Option<Text>,
    pub place: Place,
    pub actual: Option<Expr>,
}

/// An instance at its name.
#[derive(Drop)]
pub struct Instance {
    pub name: Text,
    pub place: Place,
    pub connections: Seq<Connection>,
}

/// An item of a module. Its place is that of its first token.
#[derive(Drop)]
pub enum Item {
    Params(Params),
    Ports(Ports),
    Wire {
        place: Place,
        signed: bool,
        range: Option<Range>,
        wires: Seq<Wire>,
    },
    Reg {
        place: Place,
        signed: bool,
        range: Option<Range>,
        regs: Seq<Reg>,
    },
    Integer {
        place: Place,
        regs: Seq<Reg>,
    },
    Assign {
        place: Place,
        assignments: Seq<Assignment>,
    },
    Gate {
        place: Place,
        kind: GateKind,
        gates: Seq<Gate>,
    },
    Instance {
        place: Place,
        module_name: Text,
        parameters: Seq<Connection>,
        instances: Seq<Instance>,
    },
    Initial {
        place: Place,
        body: Stmt,
    },
    Always {
        place: Place,
        body: Stmt,
    },
}

/// The list of ports of a module.
#[derive(Drop)]
pub enum Heads {
    /// Names alone, which items declare.
    Plain(Seq<Name>),
    /// Declarations.
    Declared(Seq<Ports>),
}

/// A module, at its name.
#[derive(Drop)]
pub struct Module {
    pub name: Text,
    pub place: Place,
    pub params: Seq<Params>,
    pub ports: Heads,
    pub items: Seq<Item>,
}

/// The modules of a text.
#[derive(Drop)]
pub struct Unit {
    pub modules: Seq<Module>,
}
