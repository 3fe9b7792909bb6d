// Objects in ascending order, each once.

ghost use Rattle.std.specs.Prelude.{◌≡◌, ℕ, IfOk, map, filter};
ghost use Rattle.std.specs.List.Sorted.{IsNonDecreasing};
ghost use Rattle.vf_base.specs.Base.{object_number};
ghost use Rattle.vf_base.specs.Lists.{has};
ghost use Rattle.v_design.specs.Expressions.{up_from};

use std::alloc::Global;
use vf_base::{NoMemory, ObjectId};

/// The numbers of some objects in ascending order.
fn sorted_numbers(alloc: Global, objects: &[ObjectId]) -> Result<Vec<u32>, NoMemory>
    ensures same { IfOk result (λ sorted. (n : ℕ) → has sorted.items n ≡ has (map object_number objects.now) n) }
    ensures climbs { IfOk result (λ sorted. IsNonDecreasing sorted.items) }
{
    let mut numbers = list_numbers(alloc, objects)?;
    numbers.sort_unstable();
    Ok(numbers)
}

/// The numbers of some objects.
fn list_numbers(alloc: Global, objects: &[ObjectId]) -> Result<Vec<u32>, NoMemory>
    ensures { IfOk result (λ numbers. numbers.items ≡ map object_number objects.now) }
{
    let mut numbers = Vec::new(alloc);
    'objects: for object in objects {
        numbers.push(object.0)?;
    }
    Ok(numbers)
}

/// Those of the first so many objects of a design that are among some objects, in ascending order, each once.
///
/// # Errors
///
/// Want of memory.
pub fn objects_among(
    alloc: Global,
    objects: &[ObjectId],
    count: u32,
) -> Result<Vec<ObjectId>, NoMemory>
    ensures { IfOk result (λ among. map object_number among.items ≡ filter (has (map object_number objects.now)) (up_from 0 count)) }
{
    let numbers = sorted_numbers(alloc, objects)?;
    let mut among = Vec::new(alloc);
    let mut next: u32 = 0;
    'numbers: for number in &numbers {
        if next <= *number && *number < count {
            among.push(ObjectId(*number))?;
            next = *number + 1;
        }
    }
    Ok(among)
}
