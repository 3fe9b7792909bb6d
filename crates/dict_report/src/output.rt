// The three outputs.

ghost use Rattle.std.specs.Prelude.{◌≡◌, ◌⊎◌, Ok, Err, IfOk, MatchResult};
ghost use Rattle.v_design.specs.PlainDesigns.{design_of, plan_of};
ghost use Rattle.v_design.specs.WellFormed.{IsPlanOf};
ghost use Rattle.kept_samples.specs.Kept.{samples_kept};
ghost use Rattle.dict_laws.specs.Responses.{IsResponse};
ghost use Rattle.dict_text.specs.Dictionaries.{IsDictionary};
ghost use Rattle.pick_laws.specs.Hard.{hard_lists};
ghost use Rattle.vf_pick.specs.Texts.{pick_text};
ghost use Rattle.dict_report.specs.declared.fault.OutputFault.TheVariants as faults;
ghost use Rattle.dict_report.specs.Outputs.{DictText, Diagnosis, PickText, IsTheMeaning};
ghost use Rattle.dict_report.specs.Orders.{HoldsInEveryOrder};

use crate::fault::OutputFault;
use crate::law::outputs_hold;
use crate::made::made_dictionary;
use dict_text::{Dictionary, diagnose, write_dict};
use kept_samples::Sample;
use std::alloc::Global;
use std::sync::ledger::Ledger;
use v_design::{Design, Plan};
use vf_base::{NoMemory, Steps};
use vf_dict::hard_strobes;
use vf_pick::{pick, write_pick};

/// The text of the dictionary of a design and a plan: what the strobes see of the good machine, and of each listed fault the samples that differ, or the
/// race or the loop that ends its grading.
///
/// # Errors
///
/// A loop of the good machine; want of memory at any point.
pub fn dict_output<L: Ledger>(
    alloc: Global,
    design: &Design,
    plan: &Plan,
    steps: &mut Steps<L>,
) -> Result<Vec<u8>, OutputFault>
    requires { IsPlanOf (design_of design.now) (plan_of plan.now) }
    // Exactly what the design and the plan mean.
    ensures told { MatchResult result (λ text. IsTheMeaning DictText (design_of design.now) (plan_of plan.now) (Ok text.items))
        (λ fault. (fault ≡ faults.NoMemory) ⊎ IsTheMeaning DictText (design_of design.now) (plan_of plan.now) (Err fault)) }
    // What each line says holds in every order.
    ensures every_order { IfOk result (λ text. HoldsInEveryOrder DictText (design_of design.now) (plan_of plan.now) text.items) }
{
    outputs_hold();
    let dictionary = made_dictionary(alloc, design, plan, steps)?;
    match write_dict(alloc, design, plan, &dictionary) {
        Ok(text) => Ok(text),
        Err(_) => Err(OutputFault::NoMemory),
    }
}

/// The diagnosis of a response, one sample for each strobe: how the good machine and each listed fault fit what was observed.
///
/// # Errors
///
/// A loop of the good machine; want of memory at any point.
pub fn diagnose_output<L: Ledger>(
    alloc: Global,
    design: &Design,
    plan: &Plan,
    observed: &[Sample],
    steps: &mut Steps<L>,
) -> Result<Vec<u8>, OutputFault>
    requires plan { IsPlanOf (design_of design.now) (plan_of plan.now) }
    requires observed { IsResponse (plan_of plan.now) (samples_kept observed.now) }
    // Exactly what the design, the plan and the response mean.
    ensures told { MatchResult result (λ text. IsTheMeaning (Diagnosis (samples_kept observed.now)) (design_of design.now) (plan_of plan.now) (Ok text.items))
        (λ fault. (fault ≡ faults.NoMemory) ⊎ IsTheMeaning (Diagnosis (samples_kept observed.now)) (design_of design.now) (plan_of plan.now) (Err fault)) }
    // What each line says holds in every order.
    ensures every_order { IfOk result (λ text. HoldsInEveryOrder (Diagnosis (samples_kept observed.now)) (design_of design.now) (plan_of plan.now) text.items) }
{
    outputs_hold();
    let dictionary = made_dictionary(alloc, design, plan, steps)?;
    match diagnose(alloc, design, plan, &dictionary, observed) {
        Ok(text) => Ok(text),
        Err(_) => Err(OutputFault::NoMemory),
    }
}

/// The text of the strobes that are picked by the hard strobes of a dictionary's faults.
fn picked_text(
    alloc: Global,
    design: &Design,
    plan: &Plan,
    dictionary: &Dictionary,
) -> Result<Vec<u8>, NoMemory>
    requires { IsDictionary (design_of design.now) (plan_of plan.now) dictionary.now }
    ensures { IfOk result (λ text. text.items ≡ pick_text (design_of design.now) (plan_of plan.now).faults (plan_of plan.now).strobes (hard_lists (design_of design.now) (plan_of plan.now))) }
{
    let hard = hard_strobes(alloc, plan, dictionary)?;
    let picked = pick(alloc, plan.strobes.as_slice(), hard.as_slice())?;
    write_pick(alloc, design, plan, hard.as_slice(), picked.as_slice())
}

/// The text of the strobes of a plan that are enough: each kept strobe with a fault that needs it, and the totals.
///
/// # Errors
///
/// A loop of the good machine; want of memory at any point.
pub fn pick_output<L: Ledger>(
    alloc: Global,
    design: &Design,
    plan: &Plan,
    steps: &mut Steps<L>,
) -> Result<Vec<u8>, OutputFault>
    requires { IsPlanOf (design_of design.now) (plan_of plan.now) }
    // Exactly what the design and the plan mean.
    ensures told { MatchResult result (λ text. IsTheMeaning PickText (design_of design.now) (plan_of plan.now) (Ok text.items))
        (λ fault. (fault ≡ faults.NoMemory) ⊎ IsTheMeaning PickText (design_of design.now) (plan_of plan.now) (Err fault)) }
    // The kept strobes detect in every order what all do, and none of them can go.
    ensures every_order { IfOk result (λ text. HoldsInEveryOrder PickText (design_of design.now) (plan_of plan.now) text.items) }
{
    outputs_hold();
    let dictionary = made_dictionary(alloc, design, plan, steps)?;
    match picked_text(alloc, design, plan, &dictionary) {
        Ok(text) => Ok(text),
        Err(_) => Err(OutputFault::NoMemory),
    }
}
