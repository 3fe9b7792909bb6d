// What a plan is read for.

ghost use Rattle.std.specs.Prelude.{◌≡◌};
ghost use Rattle.v_design.specs.PlainDesigns.{plan_of};
ghost use Rattle.top_call.specs.Answers.{excess};

use dict_text::is_too_large;
use v_design::Plan;

/// What a plan is read for.
#[derive(Clone, Copy)]
pub(crate) enum Purpose {
    /// A dictionary, which can be too large.
    Dictionary,
    /// A certificate, or the audit of one.
    Certificate,
}

/// The room of a plan's dictionary where that is too much, if the plan is read for one.
pub(crate) fn excess(plan: &Plan, purpose: Purpose) -> Option<u64>
    ensures { result ≡ excess purpose (plan_of plan.now) }
{
    match purpose {
        Purpose::Dictionary => is_too_large(plan),
        Purpose::Certificate => None,
    }
}
