// What changes of some objects reach.

ghost use Rattle.std.specs.Prelude.{◌≡◌, ◌<◌, [], length, map, IfOk};
ghost use Rattle.std.specs.List.{All};
ghost use Rattle.vf_base.specs.Base.{object_number};
ghost use Rattle.v_design.specs.PlainDesigns.{design_of};
ghost use Rattle.reach_search.specs.Reach.{is_reached, ReachesToo, ReachesAllToo};

use crate::search::search;
use net_graph::Graph;
use object_set::ObjectSet;
use std::alloc::Global;
use std::marker::Model;
use vf_base::{NoMemory, ObjectId};

/// The objects that changes of some objects reach through the nodes of a design, those themselves among them.
#[derive(Drop)]
pub struct Reached<'d> {
    graph: &'d Graph<'d>,
    found: ObjectSet,
}

impl<'d> Model for Reached<'d> {
    ghost use Rattle.reach_search.specs.Reach.{ReachKept, IsReach};

    ghost Value = { ReachKept };

    ghost use Rattle.std.specs.Coded.{codes as known};
    ghost use Rattle.v_design.specs.contracts.tree.FlatExpr as expressions;
    ghost use Rattle.v_design.specs.contracts.tree.FlatStmt as statements;

    ghost coded = { Prim.hlevel (known, expressions.the_row.coded, statements.the_row.coded) };

    ghost view = { λ reached. record { design = reached.graph.now.design.now; objects = reached.found.objects } };

    ghost invariant = { λ reached. IsReach reached.graph.now.design.now reached.found };
}

impl<'d> Reached<'d> {
    /// What no change reaches, in the design of a graph: nothing.
    ///
    /// # Errors
    ///
    /// Want of memory.
    pub fn new(alloc: Global, graph: &'d Graph<'d>) -> Result<Reached<'d>, NoMemory>
        ensures design { IfOk result (λ reached. reached.design ≡ graph.now.design.now) }
        ensures nothing { IfOk result (λ reached. reached.objects ≡ []) }
    {
        let found = ObjectSet::new(alloc, graph.design.objects.as_slice().len())?;
        Ok(Reached { graph, found })
    }

    /// Nothing is reached from now on.
    pub fn clear(&mut self)
        ensures { self.new ≡ record self.old { objects = [] } }
    {
        self.found.clear();
    }

    /// What a change of an object reaches is reached besides.
    pub fn add(&mut self, object: ObjectId)
        requires { object_number object < length (design_of self.old.design).objects }
        ensures { ReachesToo (object_number object) self.old self.new }
    {
        search(self.graph, object, &mut self.found);
    }

    /// What changes of some objects reach is reached besides.
    pub fn add_all(&mut self, objects: &[ObjectId])
        requires { All (λ object. object_number object < length (design_of self.old.design).objects) objects.now }
        ensures { ReachesAllToo (map object_number objects.now) self.old self.new }
    {
        'objects: for object in objects {
            self.add(*object);
        }
    }

    /// Whether an object is reached.
    pub fn contains(&self, object: ObjectId) -> bool
        requires { object_number object < length (design_of self.now.design).objects }
        ensures { result ≡ is_reached self.now (object_number object) }
    {
        self.found.contains(object)
    }

    /// The objects that are reached, each once.
    pub fn as_slice(&self) -> &[ObjectId]
        ensures reached { map object_number result.now ≡ self.now.objects }
        ensures are_objects { All (λ object. object_number object < length (design_of self.now.design).objects) result.now }
    {
        self.found.as_slice()
    }
}
