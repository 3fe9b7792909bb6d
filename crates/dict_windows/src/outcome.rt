// What the windows come to.

use kept_samples::{Kept, Sample};

/// What the strobes see of the good machine, before its race if it has one up to the plan's end, and what is kept of each fault that stands for its class, in list order.
#[derive(Drop)]
pub struct Gathered {
    pub good: Vec<Sample>,
    pub raced: bool,
    pub faults: Vec<Kept>,
}

/// What all windows of the good first run give, or the time, in steps, at which the good machine is hyperactive before a race of its own.
#[derive(Drop)]
pub enum Outcome {
    Made(Gathered),
    GoodLoop(u64),
}
