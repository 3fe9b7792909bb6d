// The code of a grade, which a fault's word holds.

ghost use Rattle.std.specs.Prelude.{◌≡◌, ◌<◌, ◌^◌};
ghost use Rattle.verdict_words.specs.Codes.{code_of_grade, time_of_grade, grade_of_end};

use vf_base::{End, Side};

/// The code of the grade with which a grading ended: `kind + 8 * time`, the kind 1 for detected, 2 possible, 3 undetected (its time is 0),
/// 4 a race of the good machine, 5 a race of the faulty machine, 6 a loop; the time in steps of simulation time.
///
/// The code fits 64 bits exactly where the time is below 2^61.
pub fn verdict_code(end: End) -> u64
    requires { time_of_grade (grade_of_end end) < 2 ^ 61 }
    ensures { result ≡ code_of_grade (grade_of_end end) }
{
    match end {
        End::Detected(time) => 1 + 8 * time,
        End::Possible(time) => 2 + 8 * time,
        End::Undetected => 3,
        End::Race(Side::Good, pair) => 4 + 8 * pair.time,
        End::Race(Side::Faulty, pair) => 5 + 8 * pair.time,
        End::Hyper(time) => 6 + 8 * time,
    }
}
