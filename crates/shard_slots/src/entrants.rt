// Faults that entered a slot.

ghost use Rattle.std.specs.Prelude.{◌≡◌, ◌<◌, ◌++◌, [], ◌∷◌, None, true, false, is_some, length, option_to_list, replicate, IfOk, IsSome, OnOk};

use copy_lockstep::FaultBeside;
use std::alloc::Global;
use vf_base::NoMemory;

/// Of each fault whether it entered a slot, and what goes on of those that did, in their order.
#[derive(Drop)]
pub(crate) struct Entrants {
    pub(crate) entered: Vec<bool>,
    pub(crate) besides: Vec<FaultBeside>,
}

/// One fault more, which entered the slot or didn't.
pub(crate) fn push_found(
    entered: &mut Vec<bool>,
    besides: &mut Vec<FaultBeside>,
    found: Option<FaultBeside>,
) -> Result<(), NoMemory>
    ensures entered { OnOk result (entered.new.items ≡ entered.old.items ++ is_some found ∷ []) }
    ensures besides { OnOk result (besides.new.items ≡ besides.old.items ++ option_to_list found) }
{
    let Some(beside) = found else {
        entered.push(false)?;
        return Ok(());
    };
    entered.push(true)?;
    besides.push(beside)?;
    Ok(())
}

/// What goes on of the last fault, which entered the slot or didn't.
pub(crate) fn last_if(besides: &mut Vec<FaultBeside>, entered: bool) -> Option<FaultBeside>
    ensures items { besides.old.items ≡ besides.new.items ++ option_to_list result }
    ensures none { entered ≡ false → result ≡ None }
    ensures some { entered ≡ true → 0 < length besides.old.items → IsSome result }
{
    if entered {
        return besides.pop();
    }
    None
}

/// So many faults that all entered a slot.
pub(crate) fn all_entered(alloc: Global, count: usize) -> Result<Vec<bool>, NoMemory>
    ensures { IfOk result (λ all. all.items ≡ replicate count true) }
{
    let all = vec![in alloc; true; count]?;
    Ok(all)
}
