//! The tokens of a source text, with their places (IEEE 1364-2001, clause 2).
//!
//! A text is blanks, comments, tokens and one leading directive, one behind the other, each token the longest word that stands in its place
//! (`specs/Texts`, `specs/Words`). `scan` answers the one list of tokens that a text has, exactly where it has one; else the one fault: the first
//! place at which nothing begins, at which a number is refused, or at which the end of a comment or a string is missing. A text of more than
//! 1,048,576 bytes is refused before anything else.
#![tactic(auto)]

mod bytes;
mod fault;
mod marks;
mod number;
mod pieces;
mod tokens;
mod value;
mod words;

pub use fault::ScanFault;
pub use tokens::scan;
