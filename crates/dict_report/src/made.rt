// The dictionary on which the outputs stand.

ghost use Rattle.std.specs.Prelude.{◌≡◌, ◌⊎◌, MatchResult};
ghost use Rattle.v_design.specs.PlainDesigns.{design_of, plan_of};
ghost use Rattle.v_design.specs.WellFormed.{IsPlanOf};
ghost use Rattle.dict_text.specs.Dictionaries.{IsDictionary};
ghost use Rattle.dict_report.specs.declared.fault.OutputFault.TheVariants as faults;
ghost use Rattle.dict_report.specs.Outputs.{NeverLoops, IsFaultOf};

use crate::fault::OutputFault;
use dict_text::{Dict, Dictionary};
use std::alloc::Global;
use std::sync::ledger::Ledger;
use v_design::{Design, Plan};
use vf_base::Steps;
use vf_dict::make_dictionary;

/// The dictionary of a design and a plan.
pub(crate) fn made_dictionary<L: Ledger>(
    alloc: Global,
    design: &Design,
    plan: &Plan,
    steps: &mut Steps<L>,
) -> Result<Dictionary, OutputFault>
    requires { IsPlanOf (design_of design.now) (plan_of plan.now) }
    ensures { MatchResult result (λ dictionary. IsDictionary (design_of design.now) (plan_of plan.now) dictionary × NeverLoops (design_of design.now) (plan_of plan.now))
        (λ fault. (fault ≡ faults.NoMemory) ⊎ IsFaultOf (design_of design.now) (plan_of plan.now) fault) }
{
    match make_dictionary(alloc, design, plan, steps) {
        Ok(Dict::Made(dictionary)) => Ok(dictionary),
        Ok(Dict::GoodLoop(time)) => Err(OutputFault::GoodLoop(time)),
        Err(_) => Err(OutputFault::NoMemory),
    }
}
