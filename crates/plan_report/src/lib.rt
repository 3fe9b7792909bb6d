//! The report on a design and a plan's text: the plan that the text spells, the grade of each listed fault, and their lines.
//!
//! A plan's text means one report over a design, or one reason why there is none: the plan's first line at fault, or a loop of the good machine
//! (`specs/Reports`). `plan_report` answers exactly this for each number of workers, or wants memory; and what each line of the report says holds of every
//! pair of legal orders of events (IEEE 1364-2001, clause 5). Asked for the totals alone, it counts the same lines.
#![tactic(auto)]

mod extent;
mod fault;
mod report;

pub use extent::Extent;
pub use fault::ReportFault;
pub use report::plan_report;
