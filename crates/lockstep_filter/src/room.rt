// What a filter works with.

use good_trace::Setup;
use lockstep_waits::AwaitedObjects;
use reach_search::Reached;
use std::alloc::Global;
use std::marker::{Model, PhantomData};
use v_design::World;
use vf_base::NoMemory;

/// On which objects of the design of `N` processes may wait, and room for what writes of a phase reach: those of own blocks, those of the good machine, and its later ones.
#[derive(Drop)]
pub struct FilterRoom<'d, N: World> {
    pub(crate) awaited: AwaitedObjects,
    pub(crate) own: Reached<'d>,
    pub(crate) phase: Reached<'d>,
    pub(crate) late: Reached<'d>,
    world: PhantomData<N>,
}

impl<'d, N: World> Model for FilterRoom<'d, N> {
    ghost use Rattle.std.specs.Prelude.{◌≡◌};
    ghost use Rattle.v_design.specs.PlainDesigns.{design_of};
    ghost use Rattle.lockstep_waits.specs.Awaited.{AreAwaitedFlags};

    ghost Value = { Unit {0} };

    ghost view = { λ _. tt };

    ghost invariant = { λ r. AreAwaitedFlags N.design r.awaited × (design_of r.own.design ≡ N.design) × (design_of r.phase.design ≡ N.design) × (design_of r.late.design ≡ N.design) };
}

impl<'d, N: World> FilterRoom<'d, N> {
    /// Room for the design of a setup.
    ///
    /// # Errors
    ///
    /// Want of memory.
    pub fn new(alloc: Global, setup: &Setup<'d, N>) -> Result<FilterRoom<'d, N>, NoMemory> {
        let design = setup.design();
        let graph = setup.graph();
        let awaited = AwaitedObjects::new(alloc, design)?;
        let own = Reached::new(alloc, graph)?;
        let phase = Reached::new(alloc, graph)?;
        let late = Reached::new(alloc, graph)?;
        Ok(FilterRoom {
            awaited,
            own,
            phase,
            late,
            world: PhantomData,
        })
    }
}
