//! Grades a plan by so many workers, beside one run of the good machine: each claims shards of 32 faults until none is left, and takes those that it claimed from
//! window to window of that run.
//!
//! `grade_all` does it over a board of `verdict_words` with a word for each listed fault and a claim for each shard of the faults that stand for their classes; the
//! rounds in which the workers go are those of `shard_rounds`. Each worker steps on the board with a seat of its own; the findings come back where the threads are
//! joined, and are put in list order at the end. Its main contract: whatever the number of workers and their schedule, the findings are the grades of all listed
//! faults in list order (first runs and races by IEEE 1364-2001, clause 5), or exactly the good machine's loop; and the closed board shows that each shard was claimed
//! once and that the words of just those faults that stand for their classes were moved, each to the code of its grade.
//!
//! Where all faults are graded, all counters together rise by no more than the process steps of the good first run and twice the own steps of each fault that stands for
//! its class: the steps of those of its runs that the good machine doesn't take as well. Twice, since a worker that is through with its own shards may run copies of others.
//!
//! `grade_plan` picks the design and the plan of which the board speaks, and adds what each finding says of every pair of legal event orders.
#![tactic(auto)]

mod grade;
mod order;
mod plan;

pub use grade::{Graded, Work, grade_all};
pub use plan::{PlanGrades, grade_plan};
