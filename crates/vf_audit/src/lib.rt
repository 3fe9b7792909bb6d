//! The check of a certificate: the lines that show a report's line of one fault are followed one by one, and `audit` answers whether they show it (runs, slots
//! and phases by IEEE 1364-2001, clause 5; the format is this program's own).
//!
//! Its main contract: `audit` answers Yes exactly where no line of the certificate fails, with the fault and the end that its second line prints, and then that
//! line holds of every legal order of events: a verdict in each pair of legal orders of the good and the faulty machine, a race as a conflict in one. Else it
//! answers No with the number of the first line that fails. It follows the runs by single events (`cert_runs`): nothing of what grades a fault stands below it.
#![tactic(auto)]

mod access;
mod answers;
mod case;
mod ends;
mod following;
mod laws;
mod sides;
mod stages;
mod strobes;

pub use answers::Audited;
pub use following::audit;
pub use laws::any_order;
