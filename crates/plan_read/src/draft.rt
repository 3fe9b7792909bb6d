// A plan as far as it is read.

ghost use Rattle.std.specs.Prelude.{◌≡◌, ◌≤◌, ◌<◌, ◌+◌, ◌-◌, ◌*◌, ◌/◌, ◌++◌, ◌∷◌, [], ℕ, List, length, OnOk, IfOk, IfErr, None, Some, option_map};
ghost use Rattle.v_design.specs.Designs.{StuckAt};
ghost use Rattle.v_design.specs.PlainDesigns.{design_of};
ghost use Rattle.v_design.specs.Sites.{faults_of};
ghost use Rattle.fault_list.specs.Listed.{stuck};
ghost use Rattle.fault_list.specs.Spelled.{site_spelled};
ghost use Rattle.plan_read.specs.Watched.{bits_spelled};
ghost use Rattle.plan_read.specs.Forms.{row, times_on, Strobes};
ghost use Rattle.plan_read.specs.Spelled.{fault_at, most_strobes, most_watched, most_faults};
ghost use Rattle.plan_read.specs.Plain.{watched_bits};
ghost use Rattle.plan_read.specs.Steps.{FaultIs, strobes_reason, watched_reason, site_reason, all_reason};

use crate::SiteNames;
use crate::fault::PlanFault;
use crate::row::Row;
use crate::watch::bits_of;
use std::alloc::Global;
use v_design::Fault;
use vf_base::{MAX_FAULTS, MAX_STROBES, MAX_WATCHED, NoMemory, WatchBit};

/// What the lines so far say: the end, if it was given, the strobe times as written, the watched bits, and the listed faults.
///
/// `all` keeps all faults of the design, once a line has asked for them.
#[derive(Drop)]
pub struct Draft {
    pub end: Option<u64>,
    pub strobes: Vec<u64>,
    pub watched: Vec<WatchBit>,
    pub faults: Vec<Fault>,
    pub all: Option<Vec<Fault>>,
}

/// Adds so many times in steps, none past `to`.
fn push_row(
    strobes: &mut Vec<u64>,
    from: u64,
    step: u64,
    count: u64,
    to: u64,
) -> Result<(), NoMemory>
    requires { (k : ℕ) → k < count → from + step * k ≤ to }
    ensures { OnOk result (strobes.new.items ≡ strobes.old.items ++ row from step count) }
{
    'times: for i in 0..count {
        let Ok(()) = strobes.push(from + step * i) else {
            return Err(NoMemory);
        };
    }
    Ok(())
}

/// Adds a row of strobes.
pub fn add_strobes(
    strobes: &mut Vec<u64>,
    end: u64,
    times: Row,
    number: u32,
) -> Result<(), PlanFault>
    requires { length strobes.old.items ≤ most_strobes }
    ensures ok { OnOk result (strobes.new.items ≡ strobes.old.items ++ times_on (Strobes times.from times.step times.to)) }
    ensures good { OnOk result (strobes_reason end (times_on (Strobes times.from times.step times.to)) (length strobes.old.items) ≡ None) }
    ensures fault { IfErr result (FaultIs number (strobes_reason end (times_on (Strobes times.from times.step times.to)) (length strobes.old.items))) }
{
    let Row { from, step, to } = times;
    let last = to - (to - from) % step;
    if last > end {
        return Err(PlanFault::BadLine(number));
    }
    let steps = (to - from) / step;
    if steps >= MAX_STROBES - strobes.len() as u64 {
        return Err(PlanFault::TooMany(number));
    }
    push_row(strobes, from, step, steps + 1, to)?;
    Ok(())
}

/// Adds the bits that a name spells.
pub fn add_watched(
    alloc: Global,
    names: &SiteNames<'_>,
    watched: &mut Vec<WatchBit>,
    name: &[u8],
    number: u32,
) -> Result<(), PlanFault>
    requires { length (watched_bits watched.old.items) ≤ most_watched }
    ensures ok { OnOk result (watched_bits watched.new.items ≡ watched_bits watched.old.items ++ bits_spelled (design_of names.now.design.now) name.now) }
    ensures good { OnOk result (watched_reason (bits_spelled (design_of names.now.design.now) name.now) (length (watched_bits watched.old.items)) ≡ None) }
    ensures fault { IfErr result (FaultIs number (watched_reason (bits_spelled (design_of names.now.design.now) name.now) (length (watched_bits watched.old.items)))) }
{
    let bits = bits_of(alloc, names, name)?;
    if bits.is_empty() {
        return Err(PlanFault::UnknownSite(number));
    }
    if bits.len() > MAX_WATCHED as usize - watched.len() {
        return Err(PlanFault::TooMany(number));
    }
    let Ok(()) = watched.extend_from_slice(&bits) else {
        return Err(PlanFault::NoMemory);
    };
    Ok(())
}

/// Adds the fault of the site that a name spells.
pub fn add_fault(
    names: &SiteNames<'_>,
    faults: &mut Vec<Fault>,
    name: &[u8],
    value: bool,
    number: u32,
) -> Result<(), PlanFault>
    requires { length (stuck faults.old.items) ≤ most_faults }
    ensures ok { OnOk result (stuck faults.new.items ≡ stuck faults.old.items ++ fault_at (site_spelled (design_of names.now.design.now) name.now) value) }
    ensures good { OnOk result (site_reason (site_spelled (design_of names.now.design.now) name.now) (length (stuck faults.old.items)) ≡ None) }
    ensures fault { IfErr result (FaultIs number (site_reason (site_spelled (design_of names.now.design.now) name.now) (length (stuck faults.old.items)))) }
{
    let Some(site) = names.site_of(name) else {
        return Err(PlanFault::UnknownSite(number));
    };
    if faults.len() as u64 >= MAX_FAULTS {
        return Err(PlanFault::TooMany(number));
    }
    let Ok(()) = faults.push(Fault { site, value }) else {
        return Err(PlanFault::NoMemory);
    };
    Ok(())
}

/// Adds all faults of a design.
pub fn add_all(faults: &mut Vec<Fault>, all: &[Fault], number: u32) -> Result<(), PlanFault>
    requires { length (stuck faults.old.items) ≤ most_faults }
    ensures ok { OnOk result (stuck faults.new.items ≡ stuck faults.old.items ++ stuck all.now) }
    ensures good { OnOk result (all_reason (stuck all.now) (length (stuck faults.old.items)) ≡ None) }
    ensures fault { IfErr result (FaultIs number (all_reason (stuck all.now) (length (stuck faults.old.items)))) }
{
    if all.len() > MAX_FAULTS as usize - faults.len() {
        return Err(PlanFault::TooMany(number));
    }
    let Ok(()) = faults.extend_from_slice(all) else {
        return Err(PlanFault::NoMemory);
    };
    Ok(())
}
