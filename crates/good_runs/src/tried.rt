// A step that a machine took itself.

use process_code::{ProcState, StepAct};
use vf_base::ProcId;

/// A step that a faulty machine took itself in a slot: in which phase of the slot, counted from 0, of which process and of which of its runs there, counted from 0, and how many steps of that run came before it; its line,
/// what it did, and where the process stood behind it.
#[derive(Drop)]
pub struct TriedStep {
    pub phase: u32,
    pub process: ProcId,
    pub number: u64,
    pub taken: u64,
    pub line: u32,
    pub act: StepAct,
    pub state: ProcState,
}
