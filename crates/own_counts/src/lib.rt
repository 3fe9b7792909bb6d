//! Own steps, counted as a phase goes on (steps by IEEE 1364-2001, clause 9; phases by clause 5).
//!
//! A counter that ticks for a step of a faulty machine only where the step's run is own (`v_design.specs.OwnSteps`) stays below the own steps of all runs. `specs/Counts` says what is
//! known of such a counter within a phase: a run that is followed ticked nothing, and one that ticked counts as own however it goes on. `own_steps_count` is the law: what each event makes
//! of this, that a run which is followed no longer may tick all its steps at once, and that behind a phase the counter is below its own steps; such bounds join, phase by phase, slot by
//! slot, and from one stretch of slots to the next (`own_steps_join`). `specs/Slots` has the same for a slot so far, at a moment of it: wherever the first order is there, the counter is at
//! most the own steps of the whole slot (`own_steps_of_slots`). A run is beside the good machine's of its number, and `run_numbers_go_on` tells these numbers from the good machine's.
#![tactic(auto)]

mod laws;

pub use laws::{own_steps_count, own_steps_join, own_steps_of_slots, run_numbers_go_on};
