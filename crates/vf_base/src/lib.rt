//! The base of the fault simulator: numbers, places, texts, lists, findings, limits, and the outside with its counts.
//!
//! The outside is a shelf of files, a sink of bytes, a gate that workers pass, and counters of steps. A shelf and a sink may tell what they
//! hold; contracts then speak of it. Each counts how often it was asked and how often it failed.
#![tactic(auto)]

mod finding;
mod gate;
mod ids;
mod limits;
mod list;
mod shelf;
mod sink;
mod steps;
mod text;

pub use finding::{Access, AccessKind, End, Finding, Pair, Side};
pub use gate::{Gate, HeldGate, OpenGate};
pub use ids::{FaultId, NodeId, ObjectId, Place, ProcId, WatchBit};
pub use limits::{
    MAX_ADDRESS, MAX_BITS, MAX_BOUND, MAX_DELAY, MAX_DEPTH, MAX_DESIGN_BYTES, MAX_END, MAX_FAULTS,
    MAX_INPUTS, MAX_KEPT_BOUND, MAX_LEVELS, MAX_LEVELS_BELOW, MAX_NESTED_MODULES, MAX_OBJECTS,
    MAX_PLAN_BYTES, MAX_SLOT_STEPS, MAX_SOAK_SIZE, MAX_STROBES, MAX_WATCHED, MAX_WORKERS,
    SHARD_FAULTS, WINDOW_SLOTS, WINDOW_STEPS,
};
pub use list::Seq;
pub use shelf::{FolderShelf, MemShelf, Shelf, ShelfFault};
pub use sink::{MemSink, OutSink, Sink, SinkFault};
pub use steps::Steps;
pub use text::{NoMemory, Text};
