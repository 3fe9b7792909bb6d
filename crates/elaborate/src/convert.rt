// The faults of the steps as faults of the design.

ghost use Rattle.std.specs.Prelude.{◌≡◌, List, Option, Some, Result};
ghost use Rattle.v_elab.specs.Parts.{Part};
ghost use Rattle.v_elab.specs.Refusals.{Refusal, Faulty};
ghost use Rattle.v_names.specs.FaultViews.{fault_of};
ghost use Rattle.elab_walk.specs.WalkFaults.{IsWalkFault};
ghost use Rattle.elaborate.specs.ElabFaults.{refusal_of, IsFaultOf, IsTold};
ghost use Rattle.driver_checks.specs.TwoDrivers.{FaultGives};

use crate::fault::ElabFault;
use driver_checks::DriverFault;
use elab_walk::WalkFault;
use v_elab::What;
use v_names::{Found, Reason};

/// The number just above the most nodes, processes, instances and objects.
pub const PARTS_OVER: u64 = 65_537;

/// The number just above the most inputs of a node.
pub const INPUTS_OVER: u64 = 4097;

/// What is wrong at a place.
pub fn found_fault(found: Found) -> ElabFault
    ensures { refusal_of result ≡ Some (Faulty (fault_of found)) }
{
    match found.reason {
        Reason::UnknownName => ElabFault::Unknown(found.place),
        Reason::DeclaredTwice => ElabFault::Twice(found.place),
        Reason::NoConstant => ElabFault::NotConstant(found.place),
        Reason::BadWidth => ElabFault::TooWide(found.place),
        Reason::BadConnection => ElabFault::PortMismatch(found.place),
        Reason::WrongKind => ElabFault::WrongKind(found.place),
        Reason::TooDeep => ElabFault::TooDeep(found.place),
    }
}

/// Why the walk has no parts.
pub fn walk_fault(fault: WalkFault) -> ElabFault
    ensures { (wanted : Result (List Part) Refusal) → IsWalkFault wanted fault → IsFaultOf wanted result }
{
    match fault {
        WalkFault::Found(found) => found_fault(found),
        WalkFault::TooMany(what) => ElabFault::TooMany(what, PARTS_OVER),
        WalkFault::TooManyInputs => ElabFault::TooMany(What::Inputs, INPUTS_OVER),
        WalkFault::NoMemory => ElabFault::NoMemory,
    }
}

/// Why a bit hasn't one driver at most.
pub fn driver_fault(fault: DriverFault) -> ElabFault
    ensures { (refusal : Option Refusal) → FaultGives refusal fault → IsTold refusal (refusal_of result) }
{
    match fault {
        DriverFault::TwoDrivers { place, bit } => ElabFault::TwoDrivers(place, bit),
        DriverFault::NoMemory => ElabFault::NoMemory,
    }
}
