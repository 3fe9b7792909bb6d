// The making of a dictionary.

ghost use Rattle.std.specs.Prelude.{◌≡◌, IfOk};
ghost use Rattle.v_design.specs.PlainDesigns.{design_of, plan_of};
ghost use Rattle.v_design.specs.WellFormed.{IsPlanOf};
ghost use Rattle.dict_text.specs.Dictionaries.{IsDict};
ghost use Rattle.vf_dict.specs.Loops.{NoLoop};
ghost use Rattle.vf_dict.specs.Ticks.{DictTicks};

use crate::faults::keep_all;
use dict_text::{Dict, Dictionary};
use dict_windows::{Gathered, Outcome, keep_faults};
use fault_shards::cut_faults;
use good_trace::Setup;
use net_graph::Graph;
use std::alloc::Global;
use std::marker::Brand;
use std::sync::ledger::Ledger;
use v_design::{Design, Plan, World};
use vf_base::{NoMemory, Seq, Steps};

/// The dictionary of a setup's design and plan.
fn dictionary_in<N: World, L: Ledger>(
    alloc: Global,
    setup: &Setup<'_, N>,
    steps: &mut Steps<L>,
) -> Result<Dict, NoMemory>
    ensures dict { IfOk result (IsDict N.design N.plan) }
    ensures no_loop { IfOk result (NoLoop N.design N.plan) }
    ensures ticks { IfOk result (DictTicks N.design N.plan steps.old steps.new) }
{
    let design = setup.design();
    let plan = setup.plan();
    let shards = cut_faults(alloc, design, plan.faults.as_slice())?;
    match keep_faults(alloc, setup, &shards, steps)? {
        Outcome::GoodLoop(time) => Ok(Dict::GoodLoop(time)),
        Outcome::Made(gathered) => {
            let Gathered {
                good,
                raced,
                faults,
            } = gathered;
            let listed = keep_all(alloc, setup, &shards, faults)?;
            Ok(Dict::Made(Dictionary {
                good: Seq::from_vec(good),
                raced,
                faults: Seq::from_vec(listed),
            }))
        }
    }
}

/// The dictionary of a world's design and plan.
fn dictionary_of<N: World, L: Ledger>(
    alloc: Global,
    design: &Design,
    plan: &Plan,
    steps: &mut Steps<L>,
) -> Result<Dict, NoMemory>
    requires world { (N.design ≡ design_of design.now) × (N.plan ≡ plan_of plan.now) }
    requires plan { IsPlanOf (design_of design.now) (plan_of plan.now) }
    ensures dict { IfOk result (IsDict N.design N.plan) }
    ensures no_loop { IfOk result (NoLoop N.design N.plan) }
    ensures ticks { IfOk result (DictTicks N.design N.plan steps.old steps.new) }
{
    let graph = Graph::new(alloc, design)?;
    let setup = Setup::<N>::new(alloc, design, &graph, plan)?;
    let made = dictionary_in(alloc, &setup, steps)?;
    Ok(made)
}

/// The dictionary of a design and a plan: what is kept of each listed fault's full grade; or the time, in steps, at which the good machine is hyperactive
/// before a race of its own. `steps` ticks once for each process step of the good machine, and at most once for each own step of a
/// faulty one.
///
/// # Errors
///
/// Want of memory.
pub fn make_dictionary<L: Ledger>(
    alloc: Global,
    design: &Design,
    plan: &Plan,
    steps: &mut Steps<L>,
) -> Result<Dict, NoMemory>
    requires { IsPlanOf (design_of design.now) (plan_of plan.now) }
    ensures dict { IfOk result (IsDict (design_of design.now) (plan_of plan.now)) }
    // There is a dictionary only where the good machine doesn't loop.
    ensures no_loop { IfOk result (NoLoop (design_of design.now) (plan_of plan.now)) }
    // Where one is made, the process steps are those of the good machine and at most the own steps of the faults that stand for their classes.
    ensures ticks { IfOk result (DictTicks (design_of design.now) (plan_of plan.now) steps.old steps.new) }
{
    let made = dictionary_of::<Brand, L>(alloc, design, plan, steps)?;
    Ok(made)
}
