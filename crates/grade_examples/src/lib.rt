//! Worked examples of full grades, dictionaries, certificates and kept strobes, by computation: the definitions, evaluated.
//!
//! Each file of `specs/` has a small design with what the definitions of `cert_laws`, `pick_laws` and `dict_laws` give of it: a certificate, and which line of a spoiled one fails first; samples
//! and how a response fits them; strobes that are kept (orders of events by IEEE 1364-2001, clause 5). `examples` is the law that they do.
#![tactic(auto)]

ghost use Rattle.grade_examples.specs.Examples.{WorkedGrades};

/// The definitions, evaluated on each worked design, give what stands in its file. The function does nothing when it runs; its contract is the law.
#[tactic(auto, using(crate::specs::Examples::worked_grades))]
pub fn examples()
    ensures { WorkedGrades }
{}
