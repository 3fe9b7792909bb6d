//! What names mean in the objects of a flat design, and which objects each node writes (IEEE 1364-2001, clause 12.4 for names, clause 6.1 for drivers).
//!
//! `ObjectNames` has the nets and variables of a walk, its memories, and the pieces that hold their bits, each found by its name's hash. `InstanceNames` gives the
//! vector or the memory that a name of one instance is, exactly as the definition has it (`v_elab`'s `specs/Objects`; `HoldNames` of `specs/Instances` is what a
//! caller knows of them); `names_joined` lists the names that are joined into others, each with its own bounds over the pieces of the outer name. `node_outputs`
//! lists the objects that each node writes by one pass over all objects.
#![tactic(auto)]

mod instance;
mod joined;
mod names;
mod outputs;
mod tables;

pub use instance::InstanceNames;
pub use joined::names_joined;
pub use names::ObjectNames;
pub use outputs::{NodeOutput, node_outputs};
