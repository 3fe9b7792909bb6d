// A row of a table: the code of a process, where the process stands in it, and its lane.

use process_code::{Code, ProcState};
use v_design::Update;
use vf_base::Seq;

/// The code of a process, where the process stands in it, and its lane, of which some updates are taken.
#[derive(Drop)]
pub struct Row<'d> {
    pub code: Code<'d>,
    pub state: ProcState,
    pub lane: Seq<Update>,
    pub taken: usize,
}
