//! The process runs of a slot of a faulty machine beside those of the good machine (slots and phases by IEEE 1364-2001, clause 5; steps by clause 9).
//!
//! A slot is run whole, from its beginning. A run that begins as the good machine's run of the same phase, process and number, and reads what that one reads, has that one's steps: so these are
//! brought from it and not taken, and no counter ticks for them. Steps that the machine took in an earlier try of the same slot come again, and are brought from there. `RunsBeside::step`
//! makes a process's next step in one of these ways, or takes it. Its main contract: it does what the step of the definition does, and what ticked together with what was tried before counts
//! as own (`GoesBeside` in specs/Beside). `runs_go_beside` is the law: how a slot goes on with other events and turns, and the bound at its end.
#![tactic(auto)]

mod beside;
mod choice;
mod laws;
mod run;
mod stepping;

pub use beside::RunsBeside;
pub use laws::runs_go_beside;
pub use run::RunSoFar;
