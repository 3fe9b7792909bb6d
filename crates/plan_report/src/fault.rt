// Why there is no report.

ghost use Rattle.std.specs.Prelude.{◌≡◌};
ghost use Rattle.plan_report.specs.Reports as reports;

use plan_read::PlanFault;
use thiserror::Error;

/// Why there is no report on a plan's text.
#[derive(Clone, Copy, Debug, PartialEq, Eq, Error)]
pub enum ReportFault {
    /// The text spells no plan over the design; never for want of memory.
    #[error("the text spells no plan")]
    Plan(PlanFault),
    /// The good machine is hyperactive at this time, in steps, before a race of its own.
    #[error("the good machine loops at time {0}")]
    GoodLoop(u64),
    #[error("out of memory")]
    NoMemory,
}

/// The fault of a text that spells no plan.
pub(crate) fn plan_fault(fault: PlanFault) -> ReportFault
    ensures { result ≡ reports.plan_fault fault }
{
    match fault {
        PlanFault::NoMemory => ReportFault::NoMemory,
        told => ReportFault::Plan(told),
    }
}
