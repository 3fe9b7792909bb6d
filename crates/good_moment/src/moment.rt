// The good machine's state at a moment of a window.

ghost use Rattle.std.specs.Prelude.{◌≡◌, ◌<◌, ℕ, [], Some, get_or, length, map, slice_get, IfOk};
ghost use Rattle.std.specs.Option.{option_map};
ghost use Rattle.vf_base.specs.Base.{object_number, process_number};
ghost use Rattle.v_design.specs.Plain.{due_of, update_of};
ghost use Rattle.process_code.specs.Codes.{IsCodeOf};
ghost use Rattle.process_code.specs.declared.code.Code.{Code as CodeKept};
ghost use Rattle.moment_parts.specs.Lanes.{lanes_left, later_lists};
ghost use Rattle.passed_blocks.specs.moment_laws.Shown.{IsWhole};
ghost use Rattle.good_moment.specs.Kept.{AreBegun};

use crate::place::MomentPlace;
use four_value::{Bit, Vec4};
use good_trace::Setup;
use moment_parts::{Lane, Passed, Standing};
use process_code::{Code, ProcState, codes_are_one};
use std::alloc::Global;
use std::marker::{Model, PhantomData};
use v_design::{Due, Update, Values, World};
use vf_base::{NoMemory, ObjectId, ProcId};

/// The good machine's state in the world `N` at a moment between two blocks of a window, which contracts see as where in the window that is, and what is shown of the state.
#[derive(Drop)]
pub struct GoodMoment<N: World> {
    pub(crate) alloc: Global,
    pub(crate) place: MomentPlace,
    pub(crate) time: u64,
    pub(crate) values: Vec<Vec4>,
    pub(crate) standing: Standing,
    pub(crate) passed: Passed,
    world: PhantomData<N>,
}

impl<N: World> Model for GoodMoment<N> {
    ghost use Rattle.passed_blocks.specs.moment_laws.Shown.{MomentKept};
    ghost use Rattle.good_moment.specs.Kept.{kept_of};

    ghost Value = { MomentKept };

    ghost view = { λ m. kept_of m.place m.time m.values.items m.standing m.passed };
}

/// The state in which each of some processes begins, with no update.
fn first_standing(alloc: Global, codes: &[Code<'_>]) -> Result<Standing, NoMemory>
    requires { (process : ℕ) (code : CodeKept) → slice_get codes.now process ≡ Some code → IsCodeOf code.process.now code }
    ensures { IfOk result (λ standing. AreBegun codes.now (length codes.now) standing.states.items standing.later.items standing.lanes.items standing.ran.items) }
{
    let mut states = Vec::new(alloc);
    let mut later = Vec::new(alloc);
    let mut lanes = Vec::new(alloc);
    let mut ran = Vec::new(alloc);
    'codes: for code in codes {
        let state = ProcState::new(alloc, code)?;
        states.push(state)?;
        later.push(Vec::new(alloc))?;
        lanes.push(Lane::new(alloc))?;
        ran.push(0)?;
    }
    Ok(Standing {
        states,
        later,
        lanes,
        ran,
    })
}

/// An x for each of so many objects.
fn no_values(alloc: Global, objects: usize) -> Result<Vec<Vec4>, NoMemory>
    ensures { IfOk result (λ values. length values.items ≡ objects) }
{
    let values = vec![in alloc; Vec4::of_bit(Bit::X); objects]?;
    Ok(values)
}

impl<N: World> GoodMoment<N> {
    /// A moment of no window, which may be brought to a slot of any.
    ///
    /// # Errors
    ///
    /// Want of memory.
    pub fn new(alloc: Global, setup: &Setup<'_, N>) -> Result<GoodMoment<N>, NoMemory>
        ensures { IfOk result (IsWhole N.design) }
    {
        codes_are_one();
        let values = no_values(alloc, setup.design().objects.as_slice().len())?;
        let standing = first_standing(alloc, setup.codes())?;
        Ok(GoodMoment {
            alloc,
            place: MomentPlace {
                before: 0,
                through: 0,
                slot: 0,
                phase: 0,
                moment: 0,
                runs: 0,
            },
            time: 0,
            values,
            standing,
            passed: Passed::none(alloc),
            world: PhantomData,
        })
    }

    /// The number of the slot in the window, from 0.
    pub fn slot(&self) -> u32
        ensures { result ≡ self.now.slot }
    {
        self.place.slot
    }

    /// The number of the phase in the window, from 0.
    pub fn phase(&self) -> u32
        ensures { result ≡ self.now.phase }
    {
        self.place.phase
    }

    /// The moment of the next event.
    pub fn moment(&self) -> u32
        ensures { result ≡ self.now.moment }
    {
        self.place.moment
    }

    /// How many runs of processes have ended in the slot.
    pub fn runs(&self) -> usize
        ensures { result ≡ self.now.runs }
    {
        self.place.runs
    }

    /// The objects that the block passed last wrote; one may be named twice.
    pub fn changed(&self) -> &[ObjectId]
        ensures { map object_number result.now ≡ self.now.changed }
    {
        &self.passed.changed
    }

    /// The processes that took a step in the block passed last, or whose waits it ended; one may be named twice.
    pub fn acted(&self) -> &[ProcId]
        ensures { map process_number result.now ≡ self.now.acted }
    {
        &self.passed.acted
    }

    /// The process with a step of whose lane the block passed last began, if it did.
    pub fn lane_stepped(&self) -> Option<ProcId>
        ensures { option_map process_number result ≡ self.now.lane }
    {
        self.passed.lane
    }

    /// What each object holds, by its number.
    pub fn values(&self) -> &[Vec4]
        ensures { result.now ≡ self.now.values }
    {
        &self.values
    }

    /// Where each process stands, by its number, with what it has yet to write.
    pub fn standing(&self) -> &Standing
        ensures states { result.now.states.items ≡ self.now.states }
        ensures later { later_lists result.now.later.items ≡ self.now.later }
        ensures lanes { lanes_left result.now.lanes.items ≡ self.now.lanes }
        ensures ran { result.now.ran.items ≡ self.now.ran }
    {
        &self.standing
    }

    /// Where a process stands.
    pub fn state_of(&self, process: ProcId) -> &ProcState
        requires { process_number process < length self.now.states }
        ensures { slice_get self.now.states (process_number process) ≡ Some result.now }
    {
        &self.standing.states[process.0 as usize]
    }

    /// The nonblocking updates that a process has pending, in the order of its statements.
    pub fn later(&self, process: ProcId) -> &[Due]
        requires { process_number process < length self.now.later }
        ensures { map due_of result.now ≡ get_or self.now.later (process_number process) [] }
    {
        &self.standing.later[process.0 as usize]
    }

    /// The updates in the lane of a process.
    pub fn lane(&self, process: ProcId) -> &[Update]
        requires { process_number process < length self.now.lanes }
        ensures { map update_of result.now ≡ get_or self.now.lanes (process_number process) [] }
    {
        self.standing.lanes[process.0 as usize].left()
    }
}

impl<N: World> Values for GoodMoment<N> {
    ghost values = { λ m. m.values };

    fn value(&self, object: ObjectId) -> Vec4 {
        self.values[object.0 as usize]
    }
}
