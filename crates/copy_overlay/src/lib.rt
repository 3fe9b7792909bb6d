//! What stands of a faulty machine beside the good machine's run (events and their values by IEEE 1364-2001, clause 5).
//!
//! `specs/Faulty` gives the values of the faulty machine: the good one's with its own over them, and `specs/FaultyLaws` says that they are the faulty state's.
//! `specs/Statuses` says how a run of the faulty machine goes beside the good machine's run of its number: it follows that one step by step, or all its steps
//! count as own; `specs/StatusLaws` how it goes on. There is no code here.
#![tactic(auto)]
