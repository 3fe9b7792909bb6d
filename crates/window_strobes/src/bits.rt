// What a strobe sees of the good machine.

ghost use Rattle.std.specs.Prelude.{◌≡◌, ◌+◌, ◌≤◌, IfOk, map};
ghost use Rattle.vf_base.specs.Base.{watched_bit};
ghost use Rattle.vf_base.specs.Lists.{AllHold};
ghost use Rattle.v_design.specs.Grades.{samples};
ghost use Rattle.between_slots.specs.Between.{state_through};
ghost use Rattle.window_strobes.specs.Watched.{IsObjectOf};

use four_value::Bit;
use good_trace::TraceWindow;
use std::alloc::Global;
use v_design::World;
use vf_base::{NoMemory, WatchBit};

/// The watched bits of the good machine before a slot of a window; behind its last slot those at the window's end.
///
/// # Errors
///
/// Want of memory.
pub fn good_bits<N: World>(
    alloc: Global,
    window: &TraceWindow<N>,
    watched: &[WatchBit],
    slot: u32,
) -> Result<Vec<Bit>, NoMemory>
    requires slot { window.now.before + slot ≤ window.now.through }
    requires watched { AllHold (IsObjectOf N.design) (map watched_bit watched.now) }
    ensures { IfOk result (λ bits. bits.items ≡ samples (map watched_bit watched.now) (state_through N.design N.plan (window.now.before + slot)).values) }
{
    let moment = window.first_moment(slot);
    let mut bits = Vec::new(alloc);
    'watched: for place in watched {
        bits.push(window.value_at(place.object, moment).bit(place.bit))?;
    }
    Ok(bits)
}
