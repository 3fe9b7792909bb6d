// Faults of expressions that are sized together.

ghost use Rattle.std.specs.Prelude.{◌≡◌, List};
ghost use Rattle.vf_base.specs.Base.{source_place};
ghost use Rattle.v_names.specs.Faults.{Fault, fault_if};
ghost use Rattle.v_names.specs.FaultViews.{wrong_of};
ghost use Rattle.v_names.specs.Readings.{group_faults};
ghost use Rattle.v_width.specs.Summaries.{AreFaults};
ghost use Rattle.name_checks.specs.Noted.{noted};

use name_checks::FirstFault;
use v_names::{Found, Reason};
use v_width::{Faults, apart};
use vf_base::Place;

/// Notes what is wrong with a group of expressions.
pub fn note_group(faults: Faults, first: &mut FirstFault)
    ensures { (here inside : List Fault) → AreFaults here inside faults → first.new ≡ noted first.old (group_faults here inside) }
{
    let group = apart(faults);
    first.note_if_some(group.inside);
}

/// Notes a fault, where a test holds.
pub fn note_where(test: bool, place: Place, reason: Reason, first: &mut FirstFault)
    ensures { first.new ≡ noted first.old (fault_if test (source_place place) (wrong_of reason)) }
{
    if test {
        first.note(Found { place, reason });
    }
}
