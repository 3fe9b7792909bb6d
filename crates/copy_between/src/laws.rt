// What a copy tells of the faulty machine's state.

ghost use Rattle.copy_between.specs.Beside.{DifferencesStand};
ghost use Rattle.copy_between.specs.OneState.{DifferencesTellAll, DifferencesTellOneState};

/// A copy that keeps, of each object and each process, just what isn't the same in a faulty machine's state and in the good one's stands for that state beside the good
/// one, keeps nothing that is equal, and has states of its processes' codes.
///
/// It does nothing when it runs.
pub fn differences_stand()
    ensures { DifferencesStand }
{}

/// A copy tells the faulty machine's state between slots exactly: two states for which it stands beside one good state have the same values, their processes do the
/// same and have the same updates pending, and with the same time and the good machine's lanes they are one state.
///
/// It does nothing when it runs.
pub fn one_state()
    ensures all { DifferencesTellAll }
    ensures one { DifferencesTellOneState }
{}
