// Numbers in ascending order.

ghost use Rattle.std.specs.Prelude.{◌≡◌, ◌<◌, ℕ, length, IfOk, IsTrue, ◌↔◌, slice_index, Contains};
ghost use Rattle.fault_list.specs.Listed.{IsPast};

use std::alloc::Global;
use vf_base::NoMemory;

/// Whether a number is past the last one.
fn is_past(last: Option<u32>, number: u32) -> bool
    ensures { IsTrue result ↔ IsPast last number }
{
    match last {
        Some(last) => last < number,
        None => true,
    }
}

/// The numbers in ascending order without repeats.
pub fn ascending(alloc: Global, numbers: Vec<u32>) -> Result<Vec<u32>, NoMemory>
    ensures ordered { IfOk result (λ kept. (i j : ℕ) → i < j → j < length kept.items → slice_index kept.items i < slice_index kept.items j) }
    ensures same { IfOk result (λ kept. (number : ℕ) → Contains kept.items number ↔ Contains numbers.items number) }
{
    let mut sorted = numbers;
    let Ok(()) = sorted.sort() else {
        return Err(NoMemory);
    };
    let mut kept = Vec::new(alloc);
    let mut last: Option<u32> = None;
    for number in &sorted {
        if is_past(last, *number) {
            kept.push(*number)?;
            last = Some(*number);
        }
    }
    Ok(kept)
}
