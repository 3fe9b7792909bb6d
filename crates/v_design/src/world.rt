// The design and the plan that a run grades, as names for contracts.

use std::marker::Brand;

/// A naming trait: it names the design and the plan that all values over it speak of. No value of it exists at run time.
pub trait World: Send + Sync {
    ghost use Rattle.v_design.specs.Designs.{FlatDesign, TestPlan};

    /// The design.
    ghost design: { FlatDesign };

    /// The plan.
    ghost plan: { TestPlan };
}

impl World for Brand {
    ghost use Rattle.v_design.specs.Designs.{empty_design, empty_plan};

    ghost design = { empty_design };

    ghost plan = { empty_plan };
}
