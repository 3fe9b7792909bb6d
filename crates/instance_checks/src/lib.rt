//! The first thing that is wrong with the instances of an item, and with a module's list of ports.
//!
//! An instance may set the parameters of its module that aren't local, and connects its ports, by name or by position (IEEE 1364-2001,
//! clauses 12.2.2 and 12.3). `Formals` keeps what a module offers for that, found by hash; `given_parameters` gives the parameters that are
//! set, each evaluated alone where the instance stands; `instance_fault` answers the fault that stands first in the text, of two at one
//! place the one whose reason comes first; `not_port_fault` the first name in a plain list of ports that is declared as something else.
#![tactic(auto, using(name_checks::specs::Noted::noted_append))]

mod actuals;
mod connections;
mod given;
mod heads;
mod instances;
mod name_lists;
mod offers;

pub use actuals::Child;
pub use given::given_parameters;
pub use heads::not_port_fault;
pub use instances::instance_fault;
pub use name_lists::Names;
pub use offers::Formals;
