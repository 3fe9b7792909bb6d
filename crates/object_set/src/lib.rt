//! Sets of objects below a bound, each member once, in the order in which they were put in.
//!
//! A set takes its memory once, by its bound: putting an object in, asking for one and taking all out take none, and taking all out costs as much as is in. Its members
//! can be gone through by place while others come in behind them, as a search does. Contracts see the bound and the list of the members' numbers. Nothing here knows of
//! Verilog.
#![tactic(auto)]

mod set;

pub use set::ObjectSet;
