// What a turn activates.

use v_design::Update;
use vf_base::{ProcId, Seq};

/// The processes and the updates that a turn activates.
///
/// `time` is the present time after the turn, in steps. The processes become ready; they ascend. Each lane has the updates of one process in
/// the order of their appends; the lanes ascend by process.
#[derive(Drop)]
pub struct Region {
    pub time: u64,
    pub processes: Seq<ProcId>,
    pub lanes: Seq<(ProcId, Seq<Update>)>,
}
