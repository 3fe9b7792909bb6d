// How sites are spelled.

ghost use Rattle.std.specs.Prelude.{◌≡◌, ◌++◌, OnOk, Some};
ghost use Rattle.std.specs.Fmt.{decimal};
ghost use Rattle.v_design.specs.Plain.{object_of, node_of, site_of};
ghost use Rattle.v_design.specs.PlainDesigns.{design_of};
ghost use Rattle.v_design.specs.Sites.{index_of_bit, index_text, bit_name, terminal_name, site_name};

use std::alloc::Global;
use v_design::{Design, Node, Object, Site};
use vf_base::NoMemory;

/// Adds bytes to a text.
pub fn append(out: &mut Vec<u8>, bytes: &[u8]) -> Result<(), NoMemory>
    ensures { OnOk result (out.new.items ≡ out.old.items ++ bytes.now) }
{
    match out.extend_from_slice(bytes) {
        Ok(()) => Ok(()),
        Err(_) => Err(NoMemory),
    }
}

/// Adds a number in decimal to a text.
pub fn append_number(alloc: Global, out: &mut Vec<u8>, number: u64) -> Result<(), NoMemory>
    ensures { OnOk result (out.new.items ≡ out.old.items ++ decimal number) }
{
    let digits = number.to_string(alloc)?;
    append(out, digits.as_bytes())
}

/// The declared index of a bit that is counted from the least significant, by the indexes of the first and the last bit.
pub fn index_of_bit(high: u32, low: u32, bit: u32) -> u64
    ensures { result ≡ index_of_bit high low bit }
{
    if low <= high {
        u64::from(low) + u64::from(bit)
    } else {
        u64::from(low.saturating_sub(bit))
    }
}

/// Adds an index between brackets, where the name has a range.
fn append_index(alloc: Global, out: &mut Vec<u8>, ranged: bool, index: u64) -> Result<(), NoMemory>
    ensures { OnOk result (out.new.items ≡ out.old.items ++ index_text ranged index) }
{
    if ranged {
        append(out, b"[")?;
        append_number(alloc, out, index)?;
        append(out, b"]")?;
    }
    Ok(())
}

/// Adds how a bit of an object is spelled.
fn append_bit_name(
    alloc: Global,
    out: &mut Vec<u8>,
    object: &Object,
    bit: u32,
) -> Result<(), NoMemory>
    ensures { OnOk result (out.new.items ≡ out.old.items ++ bit_name (Some (object_of object.now)) bit) }
{
    append(out, object.name.as_bytes())?;
    let index = index_of_bit(object.high, object.low, bit);
    append_index(alloc, out, object.ranged, index)?;
    Ok(())
}

/// Adds how an input terminal of a gate is spelled.
fn append_terminal_name(
    alloc: Global,
    out: &mut Vec<u8>,
    node: &Node,
    terminal: u32,
) -> Result<(), NoMemory>
    ensures { OnOk result (out.new.items ≡ out.old.items ++ terminal_name (Some (node_of node.now)) terminal) }
{
    append(out, node.name.as_bytes())?;
    append(out, b".")?;
    append_number(alloc, out, u64::from(terminal))?;
    Ok(())
}

/// Adds how a site is spelled: NAME, NAME[INDEX] with a declared index, or GATE.TERMINAL; nothing for what the design doesn't have.
pub fn write_site(
    alloc: Global,
    design: &Design,
    site: Site,
    out: &mut Vec<u8>,
) -> Result<(), NoMemory>
    ensures { OnOk result (out.new.items ≡ out.old.items ++ site_name (design_of design.now) (site_of site)) }
{
    match site {
        Site::Var(object, bit) | Site::Out(_, object, bit) => {
            match design.objects.as_slice().get(object.0 as usize) {
                Some(object) => append_bit_name(alloc, out, object, bit),
                None => Ok(()),
            }
        }
        Site::Terminal(node, terminal) => match design.nodes.as_slice().get(node.0 as usize) {
            Some(node) => append_terminal_name(alloc, out, node, terminal),
            None => Ok(()),
        },
    }
}
