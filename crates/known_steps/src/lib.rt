//! A process's next step, as the good machine's run tells it (processes by IEEE 1364-2001, clause 9).
//!
//! As long as a run of a faulty machine has begun as a run of the good machine and read what that one read, it takes that one's steps. So its next step is known before it is taken:
//! `known_step` gives its line, what it does and where the process stands behind it, or tells that the runs part, since the good machine's has no further step or reads another value
//! there. `known_steps_go_on` is the law: a known step is the one that the definition gives, and a run that parts counts as own with all its steps, however it goes on.
#![tactic(auto)]

mod known;
mod laws;
mod values;

pub use known::{KnownStep, known_step, step_at};
pub use laws::known_steps_go_on;
