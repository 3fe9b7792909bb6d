//! What the blocks of a phase tell of its race, where the good machine's has none (conflicts by IEEE 1364-2001, clause 5).
//!
//! A phase of a faulty machine in lockstep is one of stretches that do as the good machine's, and of blocks of its own. What no access of the good machine does in the
//! stretches, and none of the faulty machine in its own blocks, no access of the phase does: `pairs_tell`. So a net piece that no change reaches isn't wild there, and is
//! like a variable: `nets_are_told`. A window tells which events touch an object and which write it; one that touches it and doesn't write it reads it: `reads_are_told`.
//! Each function here does nothing when it runs; its contract is the law.
#![tactic(auto)]

ghost use Rattle.lockstep_race.specs.Alike.{PairsTell, AlikeGoesOn};
ghost use Rattle.lockstep_race.specs.Nets.{UnreachedNetsAreNotWild, VariablesAreNotWild};
ghost use Rattle.lockstep_race.specs.Reads.{TouchesTellReads};

/// What no access of the pairs of blocks does, none of the faulty machine's phase does; and the stretches do alike, one by one.
pub fn pairs_tell()
    ensures pairs { PairsTell }
    ensures more { AlikeGoesOn }
{
    free_objects::accesses();
}

/// A net piece that no change of a phase reaches isn't wild there; nor is a variable or a memory word.
pub fn nets_are_told()
    ensures nets { UnreachedNetsAreNotWild }
    ensures variables { VariablesAreNotWild }
{}

/// An event that touches an object and doesn't write it reads it.
pub fn reads_are_told()
    ensures { TouchesTellReads }
{}
