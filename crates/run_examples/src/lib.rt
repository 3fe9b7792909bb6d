//! Worked designs, on which the definitions of v_design are evaluated: small designs with their plans and the grades of their faults
//! (specs/Examples and the file of each example), operators and small runs of every statement, and other legal orders than the first.
#![tactic(auto)]

ghost use Rattle.run_examples.specs.Examples.{WorkedExamples, WorkedRuns};
ghost use Rattle.run_examples.specs.Replays.{OtherOrders};

/// The definitions of grades, evaluated on each worked example, give the grades that stand there.
#[tactic(auto, using(crate::specs::Examples::worked_examples))]
pub fn examples()
    ensures { WorkedExamples }
{}

/// Operators on small values, small runs of every statement, and what a faulty machine does that the good one doesn't: the definitions, evaluated, give what stands there.
#[tactic(auto, using(crate::specs::Examples::worked_runs))]
pub fn runs()
    ensures { WorkedRuns }
{}

/// Other legal orders than the first: they come to the first order's end, or to another one where a glitch is seen or not.
#[tactic(auto, using(crate::specs::Replays::other_orders))]
pub fn other_orders()
    ensures { OtherOrders }
{}
