//! The objects of a flat design, in the order of the walk (IEEE 1364-2001, clause 3.2 for nets and variables, clause 3.10 for memories, clause 6.1 for the
//! drivers by which a net is cut).
//!
//! `objects_of_parts` answers the objects of all parts, from the drives and the driving variables under the names of objects: with those of the walk (`elab_wires`)
//! they are the definition's (`specs/Driven`, `objects-by`), and where no object has two drivers each part has one driver for each bit, as it asks
//! (`parts-driven`). `push_net` cuts a net into its pieces, `variable_object` makes the object of a variable and `push_words` the words of a memory, as the definitions of
//! `v_elab` (`specs/Objects`) have them. Contracts see an object by `held_of` of `specs/ObjectViews`.
#![tactic(auto)]

mod object;
mod parts;
mod pieces;
mod words;

pub use object::{HeldObject, PieceDriver};
pub use parts::{earlier, objects_of_parts};
pub use pieces::push_net;
pub use words::{push_words, variable_object};
