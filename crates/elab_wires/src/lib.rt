//! Which names of a walk are one object, who drives each and who writes it (IEEE 1364-2001, clause 6.1 for drivers, clause 12.4 for names; that names which are
//! joined are one object is this program's own choice).
//!
//! `Signals` has the nets and variables of a walk by their hierarchical names and answers the name that one is at last joined into, `Writers` whether another part
//! or a port writes an object, and `list_drives` puts the selects that nodes drive under the outermost names of their signals, in the order of the walk. Names are
//! found by their hash, so no call goes through all parts for a name. `specs/Drives`, `specs/Writers`, `specs/Depths` and `specs/Held` have the laws of one pass
//! with maps: what stands under a name among all.
#![tactic(auto)]

mod blocks;
mod drives;
mod object_drive;
mod signals;
mod wiring;
mod writers;
mod written;

pub use blocks::is_block_node;
pub use drives::list_drives;
pub use object_drive::ObjectDrive;
pub use signals::Signals;
pub use wiring::Wiring;
pub use writers::{PortWriters, Writers};
pub use written::{Written, hierarchical, list_written};
