// What the rounds come to.

use shard_crew::Gathered;
use v_design::World;

/// What the rounds come to: what all workers have together, or the time, in steps, at which the good machine's first run is hyperactive before a race of its own.
#[derive(Drop)]
pub enum Outcome<N: World> {
    Graded(Gathered<N>),
    GoodLoop(u64),
}
