// Ports that are joined with what they are connected to.

ghost use Rattle.std.specs.Prelude.{◌≡◌, ◌<◌, All, map, replicate, slice_set, IfOk, IfErr};
ghost use Rattle.v_ports.specs.JoinedObjects.{joined_objects, last_along};
ghost use Rattle.v_ports.specs.PortViews.{port_used, JoinsGive};
ghost use Rattle.v_ports.specs.Joins.{use_at, is_used, next_of, UsesGive};

use crate::fault::PortFault;
use std::alloc::Global;
use vf_base::Place;

/// A port that is connected: the number of its object, and of the object that it is joined into, if it is. The place is that of the
/// connection.
#[derive(Clone, Copy, Debug)]
pub struct PortUse {
    pub formal: u32,
    pub actual: Option<u32>,
    pub place: Place,
}

/// Whether an object is a port that a connection names, and what it is joined into.
#[derive(Clone, Copy, Debug)]
pub enum Use {
    Unused,
    Used(Option<u32>),
}

/// What stands for an object.
fn use_of(uses: &[Use], object: usize) -> Use
    ensures { result ≡ use_at uses.now object }
{
    if object < uses.len() {
        uses[object]
    } else {
        Use::Unused
    }
}

/// Whether a connection names an object.
fn is_named(uses: &[Use], object: usize) -> bool
    ensures { result ≡ is_used (use_at uses.now object) }
{
    match use_of(uses, object) {
        Use::Unused => false,
        Use::Used(_) => true,
    }
}

/// Notes that a connection names an object.
fn name_use(uses: &mut Vec<Use>, object: usize, actual: Option<u32>)
    ensures { uses.new.items ≡ slice_set uses.old.items object (Use.Used actual) }
{
    if object < uses.len() {
        uses[object] = Use::Used(actual);
    }
}

/// No connection names any of the objects.
fn unused(alloc: Global, objects: u32) -> Result<Vec<Use>, PortFault>
    ensures ok { IfOk result (λ uses. uses.items ≡ replicate objects Use.Unused) }
    ensures err { IfErr result (λ fault. fault ≡ PortFault.NoMemory) }
{
    let mut uses = Vec::new(alloc);
    uses.resize(objects as usize, Use::Unused)?;
    Ok(uses)
}

/// What connections make of each object.
fn uses_of(alloc: Global, objects: u32, parts: &[PortUse]) -> Result<Vec<Use>, PortFault>
    requires { All (λ used. used.formal < objects) parts.now }
    ensures { UsesGive (map port_used parts.now) result }
{
    let mut uses = unused(alloc, objects)?;
    'parts: for part in parts {
        let formal = part.formal as usize;
        if is_named(&uses, formal) {
            return Err(PortFault::PortMismatch(part.place));
        }
        name_use(&mut uses, formal, part.actual);
    }
    Ok(uses)
}

/// The object that one is joined into by itself, if it is.
fn next(uses: &[Use], object: u32) -> Option<u32>
    ensures { result ≡ next_of uses.now object }
{
    match use_of(uses, object as usize) {
        Use::Unused => None,
        Use::Used(actual) => actual,
    }
}

/// The object that one is at last joined into, over at most so many joins.
fn last(uses: &[Use], objects: u32, object: u32) -> u32
    ensures { result ≡ last_along objects (next_of uses.now) object }
{
    let mut now = object;
    'joins: for _ in 0..objects {
        match next(uses, now) {
            None => return now,
            Some(actual) => now = actual,
        }
    }
    now
}

/// For each of some objects the number of the one that it is at last joined into: its own where it is joined into none.
///
/// Each port is named by one connection at most: else the fault is that of the first connection whose port an earlier one names too.
pub fn join_ports(alloc: Global, objects: u32, parts: &[PortUse]) -> Result<Vec<u32>, PortFault>
    requires { All (λ used. used.formal < objects) parts.now }
    ensures { JoinsGive (joined_objects objects (map port_used parts.now)) result }
{
    let uses = uses_of(alloc, objects, parts)?;
    let mut joined = Vec::new(alloc);
    'objects: for object in 0..objects {
        joined.push(last(&uses, objects, object))?;
    }
    Ok(joined)
}
