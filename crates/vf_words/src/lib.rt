//! The words of the command line: what the program is asked for.
//!
//! `specs/Words` says which words are of a form, `specs/Number` what a number on the command line is (both are this program's own). `read_words` answers the
//! form exactly where the words are of one; its numbers are within their limits.
#![tactic(auto)]

mod number;
mod words;

pub use words::{Form, Source, read_words};
