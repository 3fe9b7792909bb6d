// A slot of the good first run, by its log.

ghost use Rattle.std.specs.Prelude.{◌≡◌, ◌+◌, ◌^◌, ◌<◌, ◌≤◌, cond, count_by, length};
ghost use Rattle.good_trace.specs.Counted.{is_step, steps_logged};

use causal_monitor::{Actor, SlotLog};

/// How many steps of a process or of its lane an event is: one or none.
fn steps_of(actor: Actor) -> u32
    ensures { result ≡ cond (is_step actor) 1 0 }
{
    match actor {
        Actor::Step(_) => 1,
        Actor::Lane(_) => 1,
        Actor::Eval(_) => 0,
        Actor::Move(_) => 0,
    }
}

/// How many process and lane steps some events have.
fn count_in(actors: &[Actor]) -> u32
    requires { count_by is_step actors.now ≤ 100000 }
    ensures { result ≡ count_by is_step actors.now }
{
    let mut steps = 0;
    'actors: for actor in actors {
        steps += steps_of(*actor);
    }
    steps
}

/// How many process and lane steps a slot has, by its log.
pub(crate) fn count_steps(log: &SlotLog) -> u32
    requires { steps_logged log.now ≤ 100000 }
    ensures { result ≡ steps_logged log.now }
{
    let mut steps = 0;
    let phases = log.actors.as_slice();
    'phases: for actors in phases {
        steps += count_in(actors.as_slice());
    }
    steps
}

/// How many phases there are with those of a slot, by its log.
pub(crate) fn phases_after(before: u32, log: &SlotLog) -> u32
    requires { before + length log.now.phases < 2 ^ 32 }
    ensures count { result ≡ before + length log.now.phases }
    ensures fits { result < 2 ^ 32 }
{
    before + log.phases.as_slice().len() as u32
}
