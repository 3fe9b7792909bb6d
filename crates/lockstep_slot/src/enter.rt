// A fault enters a slot.

ghost use Rattle.std.specs.Prelude.{◌≡◌, ◌+◌, ◌<◌, [], Some, false, IfOk};
ghost use Rattle.v_design.specs.Plain.{fault_of};
ghost use Rattle.lockstep_phase.specs.lockstep_block.declared.room.FaultInSlot.{FaultInSlot as InSlot};
ghost use Rattle.lockstep_phase.specs.slot_laws.Copies.{MayBeginSlot};
ghost use Rattle.lockstep_slot.specs.Beside.{BeginsSlot};

use copy_state::FaultCopy;
use lockstep_phase::{FaultBeside, FaultInSlot, LockstepWindow, begin_slot};
use race_notes::RaceNotes;
use std::alloc::Global;
use v_design::{Fault, World};
use vf_base::{FaultId, MAX_SLOT_STEPS, NoMemory};

/// For how many steps that a fault takes itself in a slot there is room at first.
const FIRST_TRIED: usize = 16;

/// What goes on of a fault in a slot of a window, from a copy of it that may begin the slot. The steps of the slot bound those of own blocks: `None` where the slot has more
/// events.
///
/// # Errors
///
/// Want of memory.
pub fn enter_slot<N: World>(
    alloc: Global,
    view: &LockstepWindow<'_, N>,
    fault: Fault,
    copy: &FaultCopy,
    slot: u32,
) -> Result<Option<FaultInSlot>, NoMemory>
    requires slot { view.now.window.now.before + slot < view.now.window.now.through }
    requires copy { MayBeginSlot N.design N.plan (fault_of fault) (view.now.window.now.before + slot) copy.now }
    ensures begins { IfOk result (λ found. (one : InSlot) → found ≡ Some one →
        BeginsSlot N.design N.plan (fault_of fault) view.now.window.now.before view.now.window.now.through slot one) }
    ensures rest { IfOk result (λ found. (one : InSlot) → found ≡ Some one → (one.own.copy.fault ≡ copy.now.fault) × (one.own.copy.states ≡ [])) }
{
    lockstep_phase::slots_are_counted();
    // A window has few slots, so that the number of the next one fits.
    let _through = view.window.ends();
    let next = slot + 1;
    let first = view.window.first_moment(slot);
    let behind = view.window.first_moment(next);
    let events = behind - first;
    let Some(spare) = MAX_SLOT_STEPS.checked_sub(events) else {
        return Ok(None);
    };
    let mut notes = RaceNotes::new(alloc);
    notes.clear(first);
    let kept = copy.copied(alloc)?;
    let own = begin_slot(alloc, kept);
    // A fault that enters a slot nearly always takes some steps itself.
    let tried = Vec::with_capacity(alloc, FIRST_TRIED)?;
    let apart = Vec::new(alloc);
    let one = FaultInSlot {
        own,
        notes,
        spare,
        tried,
        apart,
    };
    Ok(Some(one))
}

/// A fault that doesn't enter the slot, by its place in the plan. It takes no memory.
pub fn rests(alloc: Global, fault: Fault, number: FaultId) -> FaultBeside
    ensures fault { result.fault ≡ fault }
    ensures rests { result.goes ≡ false }
    ensures none { result.one.tried.items ≡ [] }
{
    FaultBeside {
        fault,
        one: FaultInSlot {
            own: begin_slot(alloc, FaultCopy::new(alloc, number)),
            notes: RaceNotes::new(alloc),
            spare: 0,
            tried: Vec::new(alloc),
            apart: Vec::new(alloc),
        },
        until: 0,
        goes: false,
    }
}
