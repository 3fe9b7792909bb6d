//! Where grades exist: each stuck-at fault of a plan has a grade unless the good machine's first run is hyperactive before a race of its own (slots by IEEE
//! 1364-2001, clause 5).
//!
//! The definition of a grade leaves room for none. `grades` says exactly where there is none: where such a loop of the good machine comes, and neither a stop of
//! the faulty machine nor a hard strobe comes before it. So a plan whose good machine never loops so has the grades of all its listed faults. `full_grades` says
//! the same of full grades, which no hard strobe ends. Each function here does nothing when it runs; its contract is the law.
#![tactic(auto)]

ghost use Rattle.grades_exist.specs.Existing.{GradesExist, GradesMissing, GradeListsExist, FullGradesExist, FullGradesMissing, FullGradeListsExist};

/// Where the good machine never loops before a race of its own, each stuck-at fault has a grade, and so has the list of a plan's faults. A fault has none
/// exactly where the good machine loops so, and neither a stop of the faulty machine nor a hard strobe comes before that loop.
pub fn grades()
    ensures each { GradesExist }
    ensures missing { GradesMissing }
    ensures lists { GradeListsExist }
{}

/// Where the good machine never loops before a race of its own, each stuck-at fault has a full grade, and so has the list of a plan's faults. A fault has none
/// exactly where the good machine loops so, and no stop of the faulty machine comes before that loop.
pub fn full_grades()
    ensures each { FullGradesExist }
    ensures missing { FullGradesMissing }
    ensures lists { FullGradeListsExist }
{}
