//! Moments of a window before which no event touches a copy (slots and events by IEEE 1364-2001, clause 5).
//!
//! Within a slot a faulty machine in lockstep takes the good machine's events as long as these touch nothing in which it differs (`lockstep_index`). `specs/Blocks` says when the
//! events from one moment to before another leave a copy of values and updates alone. There is no code here: `next_touches` finds such moments.
#![tactic(auto)]
