//! Sets of numbers below a bound, kept as a bit for each.
//!
//! `NumberSet` answers the least member that isn't below a number, so its members are gone through in ascending order while others come in. A search
//! looks only at the words of 64 bits between the least and the greatest member, and taking all members away writes no others. Nothing here knows of Verilog.
#![tactic(auto)]

mod set;
mod word;

pub use set::NumberSet;
