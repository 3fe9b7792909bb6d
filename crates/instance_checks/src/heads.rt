// Names in a plain list of ports that are declared as something else.

ghost use Rattle.std.specs.Prelude.{◌≡◌, map, flat_map, option_map};
ghost use Rattle.v_tree.specs.Trees.{SourceModule, NamedPlace};
ghost use Rattle.v_tree.specs.Views.{heads_of, name_of};
ghost use Rattle.v_names.specs.Faults.{WrongKind, first_fault, fault_if};
ghost use Rattle.v_names.specs.FaultViews.{fault_of};
ghost use Rattle.v_elab.specs.Walk.{not_port_faults};
ghost use Rattle.name_checks.specs.Noted.{noted};
ghost use Rattle.instance_checks.specs.Offered.{AreFormals};
ghost use Rattle.instance_checks.specs.Ports.{is_no_port};

use crate::offers::Formals;
use item_checks::note_where;
use name_checks::FirstFault;
use v_names::{Found, Reason};
use v_tree::{Heads, Name};

/// Notes the names that are those of no port.
fn note_names(formals: &Formals<'_>, names: &[Name], first: &mut FirstFault)
    ensures { (m : SourceModule) → AreFormals m formals.now → first.new ≡ noted first.old (flat_map (λ (n : NamedPlace). fault_if (is_no_port m n.name) n.place WrongKind) (map name_of names.now)) }
{
    'names: for name in names {
        note_where(
            formals.is_no_port(&name.name),
            name.place,
            Reason::WrongKind,
            first,
        );
    }
}

/// The first name in a plain list of ports that is declared as something else than a port, if there is one.
pub fn not_port_fault(formals: &Formals<'_>, heads: &Heads) -> Option<Found>
    ensures { (m : SourceModule) → AreFormals m formals.now → option_map fault_of result ≡ first_fault (not_port_faults m (heads_of heads.now)) }
{
    match heads {
        Heads::Declared(_) => None,
        Heads::Plain(names) => {
            let mut first = FirstFault::new();
            note_names(formals, names.as_slice(), &mut first);
            first.found()
        }
    }
}
