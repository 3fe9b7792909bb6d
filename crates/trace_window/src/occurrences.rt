// Occurrences of numbers below a count.

ghost use Rattle.std.specs.Prelude.{◌≡◌, [], ◌∷◌, ◌++◌, OnOk};
ghost use Rattle.trace_window.specs.Occurring.{below};

use vf_base::NoMemory;
use window_index::Occurrence;

/// Puts an occurrence behind others, if its number is below a count.
pub(crate) fn push_below(
    occurrences: &mut Vec<Occurrence>,
    count: u32,
    occurrence: Occurrence,
) -> Result<(), NoMemory>
    ensures { OnOk result (occurrences.new.items ≡ occurrences.old.items ++ below count (occurrence ∷ [])) }
{
    if occurrence.number >= count {
        return Ok(());
    }
    occurrences.push(occurrence)?;
    Ok(())
}
