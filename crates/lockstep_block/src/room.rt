// Room for faults in lockstep, and what goes on of one of them.

ghost use Rattle.std.specs.Prelude.{◌≡◌, IfOk};
ghost use Rattle.v_design.specs.Designs.{good_machine};
ghost use Rattle.faulty_block.specs.block_events.Runners.{IsWhole, machine_of};
ghost use Rattle.faulty_block.specs.lockstep_room.Rooms.{AreCounts};
ghost use Rattle.lockstep_block.specs.Rooms.{IsLockstepRoom};

use block_told::BlockTold;
use faulty_block::{Beside, Counts, LockstepCopy, Runner};
use good_moment::GoodMoment;
use good_runs::TriedStep;
use good_trace::Setup;
use lockstep_filter::FilterRoom;
use net_state::NetState;
use process_table::ProcessTable;
use race_notes::RaceNotes;
use run_numbers::RunApart;
use std::alloc::Global;
use v_design::{View, World};
use vf_base::NoMemory;

/// Room for the faults of a shard in lockstep: one runner, the good machine's state before a block and behind it, what a block tells, the runs of a block beside the good machine's, and room for the
/// filter of a phase.
pub struct LockstepRoom<'d, N: World> {
    pub runner: Runner<'d>,
    pub before: GoodMoment<N>,
    pub behind: GoodMoment<N>,
    pub told: BlockTold,
    pub beside: Beside,
    pub filter: FilterRoom<'d, N>,
    pub counts: Counts,
}

// Written out, so that its parts are let go of here alone.
impl<'d, N: World> Drop for LockstepRoom<'d, N> {
    fn drop(self) {
        let LockstepRoom {
            runner: _,
            before: _,
            behind: _,
            told: _,
            beside: _,
            filter: _,
            counts: _,
        } = self;
    }
}

/// What goes on of one fault within a slot: what is kept of it, the notes of the phase's own blocks, how many process and lane steps own blocks may yet take, the steps that the fault took
/// itself so far, each of which was ticked, and the runs of the present phase that ended in its own blocks alone, or in the good machine's beside them.
#[derive(Drop)]
pub struct FaultInSlot {
    pub own: LockstepCopy,
    pub notes: RaceNotes,
    pub spare: u32,
    pub tried: Vec<TriedStep>,
    pub apart: Vec<RunApart>,
}

/// A runner that is the good machine of a setup's design.
fn good_runner<'d, N: World>(alloc: Global, setup: &Setup<'d, N>) -> Result<Runner<'d>, NoMemory>
    ensures machine { IfOk result (λ runner. machine_of runner ≡ good_machine N.design) }
    ensures whole { IfOk result (λ runner. IsWhole runner) }
{
    let design = setup.design();
    let nets = NetState::new(
        alloc,
        View {
            design,
            fault: None,
        },
        setup.graph(),
    )?;
    let table = ProcessTable::new(alloc, design)?;
    let runner = Runner::new(alloc, nets, table);
    Ok(runner)
}

/// How many objects and processes a setup's design has.
fn counts_of<N: World>(setup: &Setup<'_, N>) -> Counts
    ensures { AreCounts N.design result }
{
    let design = setup.design();
    Counts {
        objects: design.objects.as_slice().len() as u32,
        processes: design.processes.as_slice().len() as u32,
    }
}

impl<'d, N: World> LockstepRoom<'d, N> {
    /// Room for the design of a setup.
    ///
    /// # Errors
    ///
    /// Want of memory.
    pub fn new(alloc: Global, setup: &Setup<'d, N>) -> Result<LockstepRoom<'d, N>, NoMemory>
        ensures { IfOk result (λ room. IsLockstepRoom N.design room.runner room.before room.behind room.counts) }
    {
        let runner = good_runner(alloc, setup)?;
        let before = GoodMoment::new(alloc, setup)?;
        let behind = GoodMoment::new(alloc, setup)?;
        let filter = FilterRoom::new(alloc, setup)?;
        let counts = counts_of(setup);
        Ok(LockstepRoom {
            runner,
            before,
            behind,
            told: BlockTold::new(alloc),
            beside: Beside::new(alloc),
            filter,
            counts,
        })
    }
}
