//! The laws of grading by first runs that are run slot by slot (slots by IEEE 1364-2001, clause 5).
//!
//! `specs/Ahead` says what is known of a machine's first run once its slots up to a time were run: its first stop and what a strobe sees are left to the slots
//! that are ahead. `specs/Decisions` says what decides a grade, and `specs/Grading` joins both over the strobes of a plan: a hard strobe before both
//! machines' stops, a stop of the faulty machine, a stop of the good one, or at the end the verdict. All of it is about the definitions alone: there is no code.
#![tactic(auto)]
