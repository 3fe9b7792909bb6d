// What stands between two slots.

ghost use Rattle.std.specs.Prelude.{◌≡◌, ℕ, [], Some, get_or, length, slice_get, IfOk};
ghost use Rattle.process_code.specs.Codes.{IsCodeOf};
ghost use Rattle.process_code.specs.declared.code.Code.{Code};
ghost use Rattle.good_trace.specs.Starting.{AreFirstStates};

use four_value::Vec4;
use process_code::{Code, ProcState};
use std::alloc::Global;
use v_design::Due;
use vf_base::{NoMemory, Seq};

/// What the objects hold between two slots, where the processes stand, and what nonblocking updates they have pending, each by number.
#[derive(Drop)]
pub struct BetweenSlots {
    pub values: Vec<Vec4>,
    pub states: Vec<ProcState>,
    pub updates: Vec<Seq<Due>>,
}

/// Where the process of each of some codes stands at the start, by their numbers.
pub(crate) fn first_states(alloc: Global, codes: &[Code]) -> Result<Vec<ProcState>, NoMemory>
    requires { (number : ℕ) (code : Code) → slice_get codes.now number ≡ Some code → IsCodeOf code.process.now code }
    ensures { IfOk result (λ states. AreFirstStates codes.now states.items) }
{
    let mut states = Vec::new(alloc);
    'codes: for code in codes {
        let state = ProcState::new(alloc, code)?;
        states.push(state)?;
    }
    Ok(states)
}

/// No update of each of so many processes.
pub(crate) fn no_updates(alloc: Global, count: usize) -> Result<Vec<Seq<Due>>, NoMemory>
    ensures count { IfOk result (λ updates. length updates.items ≡ count) }
    ensures each { IfOk result (λ updates. (process : ℕ) → get_or updates.items process [] ≡ []) }
{
    let mut updates = Vec::new(alloc);
    'processes: for _ in 0..count {
        updates.push(Seq::from_vec(Vec::new(alloc)))?;
    }
    Ok(updates)
}

/// The same updates.
pub(crate) fn copy_updates(alloc: Global, updates: &[Due]) -> Result<Vec<Due>, NoMemory>
    ensures { IfOk result (λ copy. copy.items ≡ updates.now) }
{
    let mut copy = Vec::with_capacity(alloc, updates.len())?;
    copy.extend_from_slice(updates)?;
    Ok(copy)
}
