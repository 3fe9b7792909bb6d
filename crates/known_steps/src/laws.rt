// What follows of a step that is known.

ghost use Rattle.known_steps.specs.Beside.{KnownStepsGoOn};

/// A step that is known is the one that the definition gives, and the run goes on as the good machine's; where they part, all steps of the run count as own.
///
/// It does nothing when it runs.
pub fn known_steps_go_on()
    ensures { KnownStepsGoOn }
{
    copy_laws::own_runs();
}
