// Statements (IEEE 1364-2001, annex A.6).

ghost use Rattle.std.specs.Prelude.{◌≡◌};

use crate::expression::{Expr, Select, Target};
use four_value::{CaseKind, Edge};
use vf_base::{Place, Seq};

/// An entry of an event control.
#[derive(Drop)]
pub struct Entry {
    pub edge: Edge,
    pub select: Select,
}

/// What an event control waits for.
#[derive(Drop)]
pub enum Waits {
    /// Any change of what its statement reads: `@*` or `@(*)`.
    AnyRead,
    Entries(Seq<Entry>),
}

/// A statement. Its place is that of its first token.
#[cycle(statement)]
#[derive(Drop)]
pub enum Stmt {
    Null {
        place: Place,
    },
    Block {
        place: Place,
        statements: Vec<Stmt>,
    },
    If {
        place: Place,
        condition: Expr,
        first: Box<Stmt>,
        second: Option<Box<Stmt>>,
    },
    Case {
        place: Place,
        kind: CaseKind,
        value: Expr,
        items: Vec<CaseItem>,
    },
    For {
        place: Place,
        first_target: Target,
        first: Expr,
        condition: Expr,
        next_target: Target,
        next: Expr,
        body: Box<Stmt>,
    },
    While {
        place: Place,
        condition: Expr,
        body: Box<Stmt>,
    },
    Repeat {
        place: Place,
        count: Expr,
        body: Box<Stmt>,
    },
    Forever {
        place: Place,
        body: Box<Stmt>,
    },
    Wait {
        place: Place,
        condition: Expr,
        body: Box<Stmt>,
    },
    Event {
        place: Place,
        waits: Waits,
        body: Box<Stmt>,
    },
    Delay {
        place: Place,
        delay: Expr,
        body: Box<Stmt>,
    },
    /// `target = value;`, with a delay `target = #delay value;`
    Blocking {
        place: Place,
        target: Target,
        delay: Option<Expr>,
        value: Expr,
    },
    /// `target <= value;`, with a delay `target <= #delay value;`
    Nonblocking {
        place: Place,
        target: Target,
        delay: Option<Expr>,
        value: Expr,
    },
    /// A system task that is read and does nothing.
    IgnoredTask {
        place: Place,
    },
    /// `$finish` or `$stop`.
    Finish {
        place: Place,
    },
}

/// An item of a case.
#[cycle(statement)]
#[derive(Drop)]
pub enum CaseItem {
    Labelled { labels: Seq<Expr>, statement: Stmt },
    Default { statement: Stmt },
}
