//! One machine run block by block (IEEE 1364-2001, clause 5).
//!
//! `run_block` runs the next block of a `Runner`, from a moment between runs to the next, and tells it. Main contract: the events are those of the definition's block, in
//! the first order, the runner comes to be in the state behind them, and they are told as the laws on two machines beside one another ask of a block. A process whose run goes as the
//! good machine's of its number in the phase is brought on as that was; each other step is taken itself, ticks and is listed, and all steps of its run count as own.
#![tactic(auto)]

mod beside;
mod blocks;
mod goods;
mod next;
mod rows;

pub use beside::Beside;
pub use blocks::{BlockEnd, run_block};
pub use goods::GoodPhase;
