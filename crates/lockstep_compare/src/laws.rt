// What a comparison tells of a slot in lockstep.

ghost use Rattle.lockstep_compare.specs.Compared.{ComparisonsTell};

/// What is kept by comparing what two blocks changed is what both machines differ in behind them.
///
/// It does nothing when it runs.
pub fn comparisons_tell()
    ensures { ComparisonsTell }
{}
