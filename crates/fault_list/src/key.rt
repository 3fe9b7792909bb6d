// A fault as a key of a map.

ghost use Rattle.std.specs.Prelude.{◌≡◌};
ghost use Rattle.v_design.specs.Plain.{fault_of};
ghost use Rattle.fault_list.specs.Keys.{key_fault};

use v_design::{Fault, Site};

/// A fault by its numbers.
#[derive(Clone, Copy, PartialEq, Eq, Hash, Debug)]
pub enum FaultKey {
    Var(u32, u32, bool),
    Out(u32, u32, u32, bool),
    Terminal(u32, u32, bool),
}

/// The key of a fault.
pub fn key_of(fault: Fault) -> FaultKey
    ensures { key_fault result ≡ fault_of fault }
{
    let value = fault.value;
    match fault.site {
        Site::Var(object, bit) => FaultKey::Var(object.0, bit, value),
        Site::Out(node, object, bit) => FaultKey::Out(node.0, object.0, bit, value),
        Site::Terminal(node, terminal) => FaultKey::Terminal(node.0, terminal, value),
    }
}
