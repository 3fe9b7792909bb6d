//! The scope of a module, or the first thing that is wrong with its names.
//!
//! A name must be declared, and once only, except a port that is declared once more as a net or a variable of the same range
//! (IEEE 1364-2001, clause 12.3.3); where a constant must stand, each name must be a parameter's, and the value must be one of its place
//! (clauses 3.3, 3.10, 4.2 and 9.7). Of several faults the first one in the text is answered, of two at one place the one whose kind comes
//! first.
//!
//! A range is evaluated once for all names that are declared with it.
#![tactic(auto, using(name_checks::specs::Noted::noted_append))]

mod by_name;
mod declaration;
mod given;
mod meaning;
mod module_scope;
mod name_map;
mod once;
mod order;
mod ranges;
mod settle;
mod settled_ranges;
mod twice;

pub use by_name::{declarations_by_name, declared_names, scope_of_module};
pub use declaration::{Declaration, Declared};
pub use given::Given;
pub use module_scope::{NameFault, names};
pub use name_map::NameMap;
