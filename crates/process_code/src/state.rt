// Where a process stands in its code.

use four_value::Vec4;
use v_design::{Due, Update};
use vf_base::{ObjectId, Place, ProcId, Seq};

/// Whether a process is ready, and until when or for what it isn't.
#[derive(Clone, Copy, PartialEq, Eq, Debug)]
pub enum Stage {
    Ready,
    /// It waits for the entries of the statement at a position.
    Waiting(usize),
    /// It sleeps until a time.
    Asleep(u64),
    Postponed,
    Done,
}

/// Where a process stands: its position, the operands that it has read for the step there, the turns that are left of each `repeat`, and the
/// updates that are left of an assignment, with the assignment's place and its delay where it is nonblocking.
#[derive(Drop)]
pub struct ProcState {
    pub stage: Stage,
    pub position: usize,
    pub operands: Vec<Vec4>,
    pub counts: Vec<u128>,
    pub place: Place,
    pub delay: Option<u32>,
    pub updates: Vec<Option<Update>>,
}

/// What a step did.
#[derive(Clone, Copy, Debug)]
pub enum Did {
    /// It read an object.
    Read(ObjectId),
    /// It wrote some bits of an object.
    Write(Update),
    /// It appended an update that is due at a time.
    Later(Update, u64),
    /// It began a wait.
    Await,
    /// It sleeps until a time.
    Sleep(u64),
    /// It is postponed.
    Zero,
    /// It is done.
    Finished,
    /// It touched no object and goes on.
    Inner,
}

/// What a step of a process run did.
#[derive(Clone, Copy, Debug)]
pub enum StepAct {
    /// It read an object.
    Read(ObjectId),
    /// It wrote some bits of an object.
    Write(Update),
    /// It appended an update that is due at a time.
    Append(Due),
    /// It touched no object.
    Inner,
}

/// A step of a process run: the line of its statement, what it did, the value that it read, if it read one, and where the process stood before it.
#[derive(Drop)]
pub struct StepTaken {
    pub line: u32,
    pub act: StepAct,
    pub read: Option<Vec4>,
    pub state: ProcState,
}

/// A process run at its end: its phase, its process, where the process stands then, the updates that the run appended, those that it wrote, and its steps, in order.
#[derive(Drop)]
pub struct RunEnd {
    pub phase: u32,
    pub process: ProcId,
    pub state: ProcState,
    pub later: Seq<Due>,
    pub writes: Seq<Update>,
    pub steps: Seq<StepTaken>,
}
