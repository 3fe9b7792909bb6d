// What the names and the classes are for.

ghost use Rattle.v_design.specs.Laws.{ClassesAgree};
ghost use Rattle.fault_list.specs.FullGrades.{FullGradesAgree};
ghost use Rattle.fault_list.specs.RoundTrip.{NamesAreRead};

/// Two faults of one class have one grade: a gate's terminal that is held at a value which holds the output leads to the same events as
/// the output that is held.
#[tactic(auto, using(crate::proofs::OneClass::classes_agree))]
pub fn one_class()
    ensures { ClassesAgree }
{}

/// Two faults of one class have one full grade.
#[tactic(auto, using(crate::proofs::OneClass::full_grades_agree))]
pub fn one_full_class()
    ensures { FullGradesAgree }
{}

/// A name that is written is read as its site: of each site of a design the spelling that `write_site` adds is the word for which `site_of`
/// answers that site.
#[tactic(auto, using(crate::proofs::NamesRead::names_are_read))]
pub fn names_read()
    ensures { NamesAreRead }
{}
