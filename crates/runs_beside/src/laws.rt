// What holds of a slot beside the good machine's.

ghost use Rattle.runs_beside.specs.Beside.{RunsGoBeside};

/// How a slot goes on beside the good machine's, and that what ticked together with what was tried before is at most the own steps of the whole slot.
///
/// It does nothing when it runs.
pub fn runs_go_beside()
    ensures { RunsGoBeside }
{
    copy_laws::own_runs();
    own_slots::second_runs();
}
