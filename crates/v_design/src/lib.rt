//! The flat design, the plan, and the definitions of what their runs, races and grades are: the meaning of the whole program.
//!
//! A flat design has objects (the pieces of nets, variables, words of memories), nodes (continuous assignments, gates, combinational blocks) and processes
//! (IEEE 1364-2001, clauses 6, 7 and 9). `specs/Designs` has its plain form, which all contracts speak of, and `specs/WellFormed` the rules that each one keeps.
//! `specs/States`, `specs/Processes` and `specs/Runs` say which events are possible in a state and what each does, so which runs are legal (clause 5) and which one is
//! the first order; `specs/Accesses`, `specs/Logs` and `specs/PhaseLogs` which accesses of a phase are ordered by cause and which conflict; `specs/Grades` what a
//! strobe shows, when a fault is detected, and the grade of a fault. The code here is the types alone, with `inject`, which makes of a design the view of a machine
//! with a stuck-at fault.
#![tactic(auto)]

mod logic;
mod plan;
mod tree;
mod values;
mod view;
mod world;

pub use logic::ObjectKind;
pub use plan::{
    Design, Due, Fault, JoinedName, Node, NodeKind, Object, Plan, Process, Site, Update,
};
pub use tree::{
    CaseItem, FlatExpr, FlatStmt, FlatTarget, MemoryRef, PieceRef, VariableRef, VectorRef,
    WaitEntry,
};
pub use values::Values;
pub use view::{View, inject};
pub use world::World;
