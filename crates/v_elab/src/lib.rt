//! The flat design of a source text, or the first reason why it has none.
//!
//! `specs/Flat` says what it is: the objects, nodes and processes of the hierarchy from its top, in the order of a walk (IEEE 1364-2001,
//! clause 12 for the hierarchy, clauses 6, 7 and 9 for what the items do). `specs/Walk` has the walk, `specs/Drivers` and `specs/Objects` what
//! is one object and who drives it, `specs/Statements` the statements over objects, `specs/Ranks` the order of the nodes.
#![tactic(auto)]

/// Whether a block of combinational form is a node, or every block a process.
#[derive(Clone, Copy, PartialEq, Eq, Debug)]
pub enum Mode {
    Usual,
    Strict,
}

/// What there can be too many of.
#[derive(Clone, Copy, PartialEq, Eq, Debug)]
pub enum What {
    Objects,
    Nodes,
    Processes,
    Instances,
    Inputs,
}
