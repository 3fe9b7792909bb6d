//! The outputs on a design and a plan beside the report: the text of their fault dictionary, the diagnosis of a tester's response, and the strobes that
//! are enough.
//!
//! A design and a plan mean one text of each kind, or one reason why there is none: a loop of the good machine (`specs/Outputs`). `dict_output`,
//! `diagnose_output` and `pick_output` answer exactly this, or want memory; and what each line says holds of every legal order of events
//! (IEEE 1364-2001, clause 5; `specs/Orders`).
#![tactic(auto)]

mod fault;
mod law;
mod made;
mod output;

pub use fault::OutputFault;
pub use output::{diagnose_output, dict_output, pick_output};
