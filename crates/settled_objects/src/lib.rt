//! Objects that nothing changes any more from a moment of a phase on (conflicts by IEEE 1364-2001, clause 5).
//!
//! In a phase of a faulty machine in lockstep, blocks of its own may read an object just as the good machine's blocks beside them do. Such reads conflict with no later access where, from the first of
//! these blocks on, nothing writes the object and no change reaches it, and no earlier block of the machine's own reaches it: the object then holds one value from there on. So a clock's net behind a
//! port is free in the phase of the clock's edge, though the phase changes it: `settled_are_free`. The function does nothing when it runs; its contract is the law.
#![tactic(auto)]

ghost use Rattle.settled_objects.specs.Settled.{SettledObjectsAreFree};

/// What is left of a met object that is settled from the first own block on that accesses it doesn't conflict.
pub fn settled_are_free()
    ensures { SettledObjectsAreFree }
{}
