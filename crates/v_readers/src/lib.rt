//! Reading from left to right: the parts that every reader of the tokens of a source text is built of (IEEE 1364-2001, annex A).
//!
//! A reader takes the tokens that are left and a number of levels, and gives a value with the tokens after it, or stops at a token: for no
//! text goes on so (wrong), or only texts of more levels (deep). `specs/Reading` has readers as plain functions, with the words that they are
//! written in; `specs/Exact` says when a reader is exact for a language of spelled values: what it gives is spelled, and where it stops, what
//! stands before begins a spelling and what stands through that token begins none, or none of so few levels. The rules of `specs/Exact`,
//! `specs/Branches`, `specs/Repeat` and `specs/SeparatedLaws` make exact readers of exact readers, and those of `specs/Reads` show that each
//! spelled value is read. The calls here read one token each, and their contracts say that they do what the reader of that name does.
//!
//! The tokens come as lexemes: a token with its class, which says what it is without what it carries (`specs/Classes`).
#![tactic(auto)]

mod class;
mod leaves;
mod lexeme;
mod stop;

pub use class::{Class, class_of};
pub use leaves::{down, expect, is_next, name, next_class, number, pass, ready, step};
pub use lexeme::{Lexeme, lexemes};
pub use stop::Stop;
