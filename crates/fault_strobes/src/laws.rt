// The laws of both gradings.

ghost use Rattle.fault_strobes.specs.Reached.{FullGradesReach};
ghost use Rattle.fault_strobes.specs.Strobes.{StrobedFaultsGoOn, StrobedGradingsEnd, StrobedGradingsGoOn};

/// The grading of a fault from strobe to strobe beside the good machine: how it goes on, and that it hasn't ended as long as it does.
pub fn strobed_gradings_go_on()
    ensures { StrobedGradingsGoOn }
{
    beside_laws::gradings_go_on();
}

/// Where the grading of a fault ends, and with which grade and which samples: at a hard detection, if it is judged, at a stop of the faulty machine, at one of the good
/// machine, or at the plan's end.
pub fn strobed_gradings_end()
    ensures { StrobedGradingsEnd }
{
    beside_laws::gradings_end();
    dict_laws::full_grades_are();
}

/// A fault of a shard from window to window, by the strobes that may end its grading.
pub fn strobed_faults_go_on()
    ensures { StrobedFaultsGoOn }
{
    beside_laws::faults_go_on();
    beside_laws::gradings_go_on();
}

/// The full grade of a fault as far as it goes up to a time: without an end as long as neither machine stops, and whole where the faulty one stopped by then and at the
/// plan's end.
pub fn full_grades_reach()
    ensures { FullGradesReach }
{
    order_laws::first_run_goes_on();
}
