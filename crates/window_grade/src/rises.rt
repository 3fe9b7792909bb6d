// Counters of own steps.

ghost use Rattle.window_grade.specs.Rises.{OwnStepsRise};

/// From one time of a faulty machine's first run to another a counter rises by at most the own steps there, slot by slot and stretch by stretch.
///
/// It does nothing when it runs.
pub fn own_steps_rise()
    ensures { OwnStepsRise }
{
    own_counts::own_steps_join();
    graded_steps::slots_lie_between();
}
