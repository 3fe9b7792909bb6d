//! Settles the verdict words of faults that were graded.
//!
//! `settle_findings` moves the word of each fault of some findings to the code of its grade, where no other call moved it before, and gives the seat back. Its main
//! contract: the word of each of these faults was seen, what the seat had seen before it still knows, no other word was moved, and its claims are as they were
//! (grades over first runs by IEEE 1364-2001, clause 5). `specs/Harvests` says what findings are beside what a seat knows, and how both grow together.
#![tactic(auto)]

mod settle;

pub use settle::settle_findings;
