// What all windows of a run stand on.

ghost use Rattle.std.specs.Prelude.{◌≡◌, IfOk};
ghost use Rattle.vf_base.specs.Lists.{AllHold};
ghost use Rattle.v_design.specs.Plain.{statement_of};
ghost use Rattle.v_design.specs.PlainDesigns.{design_of, plan_of};
ghost use Rattle.v_design.specs.Sized.{IsSizedStatement};
ghost use Rattle.v_design.specs.WellFormed.{IsPlanOf};
ghost use Rattle.v_design.specs.declared.plan.Process.{Process};
ghost use Rattle.run_ends.specs.RunEnds.{AreCodesOf};
ghost use Rattle.good_trace.specs.Events.{sizes_of};
ghost use Rattle.good_trace.specs.Setups.{AreCompiled};

use net_graph::Graph;
use process_code::{Code, compile};
use std::alloc::Global;
use std::marker::{Model, PhantomData};
use trace_window::Sizes;
use v_design::{Design, Plan, Process, World};
use vf_base::NoMemory;

/// What all windows and shards of a run stand on: the design, its graph, the plan, and the compiled code of each process. They are those of the world `N`.
#[derive(Drop)]
pub struct Setup<'d, N: World> {
    pub(crate) design: &'d Design,
    pub(crate) graph: &'d Graph<'d>,
    pub(crate) plan: &'d Plan,
    pub(crate) codes: Vec<Code<'d>>,
    world: PhantomData<N>,
}

impl<'d, N: World> Model for Setup<'d, N> {
    ghost use Rattle.good_trace.specs.Setups.{SetupKept, IsSetup};

    ghost Value = { SetupKept };

    ghost use Rattle.std.specs.Coded.{codes as known};
    ghost use Rattle.v_design.specs.contracts.tree.FlatExpr as expressions;
    ghost use Rattle.v_design.specs.contracts.tree.FlatStmt as statements;

    ghost coded = { Prim.hlevel (known, expressions.the_row.coded, statements.the_row.coded) };

    ghost view = { λ s. record { design = s.design.now; graph = s.graph.now; plan = s.plan.now; codes = s.codes.items } };

    ghost invariant = { λ s. IsSetup N.design N.plan (record { design = s.design.now; graph = s.graph.now; plan = s.plan.now; codes = s.codes.items }) };
}

/// The code of each of some processes.
fn compile_all<'d>(alloc: Global, processes: &'d [Process]) -> Result<Vec<Code<'d>>, NoMemory>
    requires { AllHold (λ (process : Process). IsSizedStatement (statement_of process.body)) processes.now }
    ensures { IfOk result (λ codes. AreCompiled processes.now codes.items) }
{
    let mut codes = Vec::new(alloc);
    'processes: for process in processes {
        let code = compile(alloc, process)?;
        codes.push(code)?;
    }
    Ok(codes)
}

impl<'d, N: World> Setup<'d, N> {
    /// The setup of a world, which names the design and the plan.
    ///
    /// # Errors
    ///
    /// Want of memory.
    pub fn new(
        alloc: Global,
        design: &'d Design,
        graph: &'d Graph<'d>,
        plan: &'d Plan,
    ) -> Result<Setup<'d, N>, NoMemory>
        requires world { (N.design ≡ design_of design.now) × (N.plan ≡ plan_of plan.now) }
        requires graph { graph.now.design.now ≡ design.now }
        requires plan { IsPlanOf (design_of design.now) (plan_of plan.now) }
        ensures design { IfOk result (λ setup. setup.design ≡ design.now) }
        ensures graph { IfOk result (λ setup. setup.graph ≡ graph.now) }
        ensures plan { IfOk result (λ setup. setup.plan ≡ plan.now) }
        ensures codes { IfOk result (λ setup. AreCompiled design.now.processes setup.codes) }
    {
        let codes = compile_all(alloc, design.processes.as_slice())?;
        Ok(Setup {
            design,
            graph,
            plan,
            codes,
            world: PhantomData,
        })
    }

    /// The design.
    pub fn design(&self) -> &'d Design
        ensures design { result.now ≡ self.now.design }
        ensures world { N.design ≡ design_of result.now }
    {
        self.design
    }

    /// The graph of the design.
    pub fn graph(&self) -> &'d Graph<'d>
        ensures graph { result.now ≡ self.now.graph }
        ensures design { result.now.design.now ≡ self.now.design }
    {
        self.graph
    }

    /// The plan, which is one over the design.
    pub fn plan(&self) -> &'d Plan
        ensures plan { result.now ≡ self.now.plan }
        ensures world { N.plan ≡ plan_of result.now }
        ensures fits { IsPlanOf N.design N.plan }
    {
        self.plan
    }

    /// How many objects, nodes and processes the design has.
    pub(crate) fn sizes(&self) -> Sizes
        ensures { result ≡ sizes_of N.design }
    {
        let design = self.design;
        Sizes {
            objects: design.objects.as_slice().len() as u32,
            nodes: design.nodes.as_slice().len() as u32,
            processes: design.processes.as_slice().len() as u32,
        }
    }

    /// The code of each process, by the processes' numbers.
    pub fn codes(&self) -> &[Code<'d>]
        ensures codes { result.now ≡ self.now.codes }
        ensures each { AreCompiled self.now.design.processes result.now }
        ensures world { AreCodesOf N.design result.now }
    {
        &self.codes
    }
}
