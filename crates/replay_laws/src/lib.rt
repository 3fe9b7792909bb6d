//! What holds of each replay of a run (runs by IEEE 1364-2001, clause 5): how late its times can be, and what its phases show of a race that is claimed of
//! it. Each function here does nothing when it runs; its contract is the law.
//!
//! `times_grow`: delays are less than 2^32 steps, so after n turns no time of the state, nor one at which a process wakes or an update is due, is over
//! (n + 1) * 2^32. A race is claimed as the time and the number of a phase and two texts. `races_are_looked_for`: what is found in that phase when a replay
//! ends it is what its run shows, and where no such phase ends the run shows nothing. `claims_are_shown`: the pair that is found so names two conflicting
//! accesses of a legal order.
#![tactic(auto)]

ghost use Rattle.replay_laws.specs.Claimed.{ClaimsAreShown};
ghost use Rattle.replay_laws.specs.Looked.{RacesAreLookedFor};
ghost use Rattle.replay_laws.specs.Times.{TimesGrow};

/// The time of a state, and each time at which a process wakes or an update is due, grows by less than 2^32 steps, the largest delay, a turn; and a turn to a
/// time leads to a later one.
pub fn times_grow()
    ensures { TimesGrow }
{}

/// A run shows a claimed race just where there is the pair that is looked for, and where the run is legal that pair is printed as claimed and names two
/// conflicting accesses.
pub fn claims_are_shown()
    ensures { ClaimsAreShown }
{}

/// What is found in the phase of a claimed race's time and number, when a replay ends that phase, is what its run shows, whatever follows; where the
/// replay never ends such a phase, its run shows nothing.
pub fn races_are_looked_for()
    ensures { RacesAreLookedFor }
{}
