//! The tokens of a source text, and the syntax tree that they spell (IEEE 1364-2001, clause 2 and annex A).
//!
//! The tree keeps what stands in the text: each item, statement and expression has its place, and parentheses are parts of their own.
//! Contracts speak of it as the plain tree of `specs/Trees`, by the views of `specs/Views`.
#![tactic(auto)]

mod expression;
mod item;
mod statement;
mod token;

pub use expression::{Expr, Index, Select, Target};
pub use item::{
    Assignment, Connection, Content, Direction, Gate, Heads, Instance, Item, Module, Name, Param,
    Params, Ports, Range, Reg, Unit, Wire,
};
pub use statement::{CaseItem, Entry, Stmt, Waits};
pub use token::{Mark, NumberForm, Token, TokenKind};
