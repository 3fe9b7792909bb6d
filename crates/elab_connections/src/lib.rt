//! What the connections of an instance become.
//!
//! A port of an instance is one object with what it is connected to, where that is a whole net or variable of the port's width; else an input is
//! assigned its actual, sized for the port, and an output's actual is assigned the port (IEEE 1364-2001, clause 12.3.9 for ports as assignments;
//! that names which are joined are one object is this program's own choice). `connection_joins` answers the ports that are joined, and
//! `push_connection_parts` puts the assignments behind the other parts of the walk, in the order of the connections (`connections_joins` and
//! `connections_parts` of v_elab's `specs/Connections`). A port that is wider than a vector may be has no assignment that can be held:
//! `connects_wide_port` tells whether there is one, and `connection_nodes` how many assignments there are all the same.
#![tactic(auto)]

mod assigned;
mod counted;
mod joined;
mod part;
mod paths;
mod wide;

pub use assigned::push_connection_parts;
pub use counted::connection_nodes;
pub use joined::connection_joins;
pub use paths::Paths;
pub use wide::connects_wide_port;
