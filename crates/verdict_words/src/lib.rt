//! The words in which workers write the verdicts of faults, and the slots in which they leave jobs for one another.
//!
//! A `Board` has one word for each fault. It is 0 until it is moved, once, to the code of the fault's grade: the kind of the grade, from 1 to 6,
//! and eight times its time. Beside the words a board has a counter from which workers draw claims. Each thread steps with a `Seat` of its own, a
//! token of no bytes that tells in proofs which claims it drew, which words it moved and which codes it has seen. In every schedule each
//! word is moved by at most one call of one seat, each claim is handed out once, and all who ask for one fault agree. Where all seats were
//! joined into one, `close` gives the words out, with what that seat knows of them.
//!
//! `Jobs` are slots with a value each, of which at most one seat holds each at a time.
//!
//! No call here waits or takes a lock: each is one atomic step or two, and every ordering is sequentially consistent. Nothing here is of the
//! language that is simulated: IEEE 1364-2001 comes in by the grades of `v_design` alone.
#![tactic(auto)]

mod board;
mod code;
mod jobs;
mod rule;
mod view;

pub use board::{Board, Closed, Seat, Settled};
pub use code::verdict_code;
pub use jobs::{JobSeat, Jobs, SlotCalls, SlotValue, Taken};
pub use rule::{BoardRule, Sizes};
pub use view::{Mark, View};
