// Expressions and what is assigned (IEEE 1364-2001, annex A.8).

ghost use Rattle.std.specs.Prelude.{◌≡◌};

use crate::token::NumberForm;
use four_value::{BinaryOperator, UnaryOperator, Vec4};
use vf_base::{Place, Seq, Text};

/// An expression. Its place is that of its first token.
#[derive(Drop)]
pub enum Expr {
    Number {
        place: Place,
        form: NumberForm,
        value: Vec4,
    },
    /// A name alone.
    Name {
        place: Place,
        name: Text,
    },
    /// `name[index]`
    BitSelect {
        place: Place,
        name: Text,
        index: Box<Expr>,
    },
    /// `name[from:to]`
    PartSelect {
        place: Place,
        name: Text,
        from: Box<Expr>,
        to: Box<Expr>,
    },
    /// `(inner)`
    Paren {
        place: Place,
        inner: Box<Expr>,
    },
    Unary {
        place: Place,
        operator: UnaryOperator,
        operand: Box<Expr>,
    },
    Binary {
        place: Place,
        operator: BinaryOperator,
        left: Box<Expr>,
        right: Box<Expr>,
    },
    /// `condition ? first : second`
    Conditional {
        place: Place,
        condition: Box<Expr>,
        first: Box<Expr>,
        second: Box<Expr>,
    },
    /// `{part, part}`
    Concat {
        place: Place,
        parts: Vec<Expr>,
    },
    /// `{count{part, part}}`
    Repeat {
        place: Place,
        count: Box<Expr>,
        parts: Vec<Expr>,
    },
}

/// What stands in brackets behind a name.
#[derive(Drop)]
pub enum Index {
    Whole,
    Bit(Expr),
    Part(Expr, Expr),
}

/// A name with what stands in brackets behind it.
#[derive(Drop)]
pub struct Select {
    pub place: Place,
    pub name: Text,
    pub index: Index,
}

/// What is assigned: one select, or several in braces.
#[derive(Drop)]
pub enum Target {
    One(Select),
    Joined(Place, Seq<Select>),
}
