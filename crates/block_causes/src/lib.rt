//! Causes within the blocks of a phase: from a moment at which no node has work on, each node event has its cause behind that moment, and so has each step of a process that is woken there
//! (causes by IEEE 1364-2001, clause 5).
//!
//! So a phase that is cut at such moments is one of stretches and blocks as `block_filter` asks. `causes` does nothing when it runs; its contract is the law.
#![tactic(auto)]

ghost use Rattle.block_causes.specs.Caused.{StretchesAreCaused, BlocksAreCaused};

/// Each node event of a stretch that begins where no node has work has its cause in the stretch; and each event of a block does, but the first, where processes run on or are woken there.
pub fn causes()
    ensures stretches { StretchesAreCaused }
    ensures blocks { BlocksAreCaused }
{}
