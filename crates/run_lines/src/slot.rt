// The phases of a slot, one after the other.

ghost use Rattle.std.specs.Prelude.{◌≡◌, ◌<◌, ◌-◌, ◌^◌, ◌++◌, map, OnOk};
ghost use Rattle.vf_base.specs.Lists.{AllHold};
ghost use Rattle.slot_record.specs.Records.{event_of};
ghost use Rattle.cert_text.specs.Fits.{RunFits};
ghost use Rattle.cert_text.specs.Views.{run_line_said};
ghost use Rattle.run_lines.specs.Open.{lines_text, count_in};
ghost use Rattle.run_lines.specs.Slots.{first_line, phase_lines, AddsLinesOf};

use crate::event::append_event;
use causal_monitor::{Actor, SlotLog};
use cert_text::{RunLine, append_run_line};
use std::alloc::Global;
use vf_base::NoMemory;

/// The line with which a phase begins, by its place in its slot of a time.
fn first_line(time: u64, place: usize) -> RunLine
    requires { place < 2 ^ 64 - 1 }
    ensures line { run_line_said result ≡ first_line time place }
    ensures count { count_in result ≡ 0 }
{
    if place == 0 {
        RunLine::Slot(time)
    } else {
        RunLine::Phase(place as u64 + 1)
    }
}

/// Adds the lines of a phase.
fn append_phase(
    alloc: Global,
    out: &mut Vec<u8>,
    time: u64,
    place: usize,
    actors: &[Actor],
) -> Result<(), NoMemory>
    requires place { place < 2 ^ 64 - 1 }
    ensures text { OnOk result (out.new.items ≡ out.old.items ++ lines_text (phase_lines time place (map event_of actors.now))) }
    ensures fits { OnOk result (AllHold RunFits (phase_lines time place (map event_of actors.now))) }
{
    let mut last = first_line(time, place);
    'events: for actor in actors {
        last = append_event(alloc, out, last, *actor)?;
    }
    append_run_line(alloc, out, last)?;
    Ok(())
}

/// Adds the lines of a slot, whose log this is.
///
/// # Errors
///
/// Want of memory.
pub fn append_slot_lines(alloc: Global, log: &SlotLog, out: &mut Vec<u8>) -> Result<(), NoMemory>
    ensures { OnOk result (AddsLinesOf log.now out.old.items out.new.items) }
{
    let phases = log.actors.as_slice();
    'phases: for (place, actors) in phases.iter().enumerate() {
        append_phase(alloc, out, log.time, place, actors.as_slice())?;
    }
    Ok(())
}
