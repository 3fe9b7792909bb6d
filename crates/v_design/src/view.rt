// A design, good or under one fault.

ghost use Rattle.std.specs.Prelude.{◌≡◌, ◌∷◌, [], option_map};
ghost use Rattle.four_value.specs.Bits.{bit_of};
ghost use Rattle.four_value.specs.Values.{with_part};
ghost use Rattle.vf_base.specs.Base.{object_number, node_number};
ghost use Rattle.v_design.specs.Designs.{forced_variable, forced_output, forced_terminal};
ghost use Rattle.v_design.specs.Plain.{fault_of};
ghost use Rattle.v_design.specs.PlainDesigns.{design_of};
ghost use Rattle.v_design.specs.Views.{machine_of, machine_with};

use crate::plan::{Design, Fault, Site};
use four_value::{Bit, Vec4};
use vf_base::{NodeId, ObjectId};

/// A design, good or under one stuck-at fault. The design itself isn't changed: who writes a variable, a node's output or a gate's terminal
/// asks the view to force it.
#[derive(Clone, Copy)]
pub struct View<'d> {
    pub design: &'d Design,
    pub fault: Option<Fault>,
}

/// The design under the fault, or the good design where there is none.
pub fn inject<'d>(design: &'d Design, fault: Option<Fault>) -> View<'d>
    ensures { machine_of result ≡ machine_with design.now fault }
{
    View { design, fault }
}

/// A value with one bit held.
fn held(value: Vec4, bit: u32, stuck: bool) -> Vec4
    ensures { result ≡ with_part value bit (bit_of stuck ∷ []) }
{
    value.place(bit, Vec4::of_bit(Bit::from_bool(stuck)))
}

impl<'d> View<'d> {
    /// The design.
    pub fn design(&self) -> &'d Design
        ensures { design_of result.now ≡ (machine_of self.now).design }
    {
        self.design
    }

    /// The fault, if there is one.
    pub fn fault(&self) -> Option<Fault>
        ensures { option_map fault_of result ≡ (machine_of self.now).fault }
    {
        self.fault
    }

    /// What an object holds where a value is written to it as a variable, as its first content too: the value, with the fault's bit held where
    /// the object is the fault's site.
    pub fn forced(&self, object: ObjectId, value: Vec4) -> Vec4
        ensures { result ≡ forced_variable (machine_of self.now).fault (object_number object) value }
    {
        match self.fault {
            Some(
                Fault {
                    site: Site::Var(site, bit),
                    value: stuck,
                },
            ) if site == object => held(value, bit, stuck),
            _ => value,
        }
    }

    /// What a node gives at one of its outputs in place of a value.
    pub fn forced_output(&self, node: NodeId, object: ObjectId, value: Vec4) -> Vec4
        ensures { result ≡ forced_output (machine_of self.now).fault (node_number node) (object_number object) value }
    {
        match self.fault {
            Some(
                Fault {
                    site: Site::Out(driver, net, bit),
                    value: stuck,
                },
            ) if driver == node && net == object => held(value, bit, stuck),
            _ => value,
        }
    }

    /// What a gate sees at one of its input terminals, counted from 1, in place of a bit.
    pub fn forced_terminal(&self, node: NodeId, terminal: u32, bit: Bit) -> Bit
        ensures { result ≡ forced_terminal (machine_of self.now).fault (node_number node) terminal bit }
    {
        match self.fault {
            Some(
                Fault {
                    site: Site::Terminal(gate, number),
                    value: stuck,
                },
            ) if gate == node && number == terminal => Bit::from_bool(stuck),
            _ => bit,
        }
    }
}
