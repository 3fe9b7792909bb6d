// Times in ascending order.

ghost use Rattle.std.specs.Prelude.{◌≡◌, ◌≤◌, ◌<◌, ℕ, length, All, IfOk, IsTrue, ◌↔◌, slice_index, Contains};
ghost use Rattle.plan_read.specs.Steps.{IsPast};

use std::alloc::Global;
use vf_base::{NoMemory, Seq};

/// Whether a time is past the last one.
fn is_past(last: Option<u64>, time: u64) -> bool
    ensures { IsTrue result ↔ IsPast last time }
{
    match last {
        Some(last) => last < time,
        None => true,
    }
}

/// The times in ascending order without repeats.
pub fn ascending(alloc: Global, times: Vec<u64>) -> Result<Seq<u64>, NoMemory>
    ensures ordered { IfOk result (λ kept. (i j : ℕ) → i < j → j < length kept → slice_index kept i < slice_index kept j) }
    ensures same { IfOk result (λ kept. (time : ℕ) → Contains kept time ↔ Contains times.items time) }
    ensures within { (end : ℕ) → All (λ time. time ≤ end) times.items → IfOk result (λ kept. All (λ time. time ≤ end) kept) }
    ensures few { IfOk result (λ kept. length kept ≤ length times.items) }
{
    let mut sorted = times;
    let Ok(()) = sorted.sort() else {
        return Err(NoMemory);
    };
    let mut kept = Vec::new(alloc);
    let mut last: Option<u64> = None;
    for time in &sorted {
        if is_past(last, *time) {
            kept.push(*time)?;
            last = Some(*time);
        }
    }
    Ok(Seq::from_vec(kept))
}
