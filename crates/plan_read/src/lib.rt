//! Reads a plan over a design: to which time the test runs, at which strobes it looks at which bits, and which stuck-at faults are listed.
//!
//! A plan is lines of words. `specs/Forms` says what a line's words mean, `specs/Spelled` which plan a text spells and which line is the first at fault. `read_plan`
//! answers the plan that the text spells, or that line with its reason. Names of sites and of watched bits are found through a map: a word can spell a bit only by a
//! name with its stem, the bytes before the first `[`, and a terminal only by the gate named before its last point; `SiteNames::site_of` answers just what
//! `fault_list::site_of` answers. The formats are this program's own.
#![tactic(auto)]

mod draft;
mod drivers;
mod fault;
mod form;
mod keys;
mod line;
mod names;
mod read;
mod row;
mod sorted;
mod stem;
mod watch;

pub use fault::PlanFault;
pub use names::SiteNames;
pub use read::read_plan;
