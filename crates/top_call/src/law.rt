// That an answer exists.

ghost use Rattle.top_call.specs.Inputs.{AnswersExist};

/// No form that has what it needs is without an output.
pub(crate) fn answers_exist()
    ensures { AnswersExist }
{
    outputs_exist::outputs();
    soak_meanings::texts_accepted();
}
