// The watched bits before a slot of a window.

ghost use Rattle.std.specs.Prelude.{◌≡◌, ◌+◌, ◌≤◌, IfOk, map};
ghost use Rattle.four_value.specs.Bits.{same_bit};
ghost use Rattle.four_value.specs.Values.{same_value};
ghost use Rattle.vf_base.specs.Base.{watched_bit};
ghost use Rattle.vf_base.specs.Lists.{AllHold};
ghost use Rattle.v_design.specs.Grades.{is_hard as is_hard_pair, is_possible as is_possible_pair, some_sample, samples};
ghost use Rattle.between_slots.specs.Between.{state_through};
ghost use Rattle.copy_overlay.specs.Faulty.{faulty_values};
ghost use Rattle.lockstep_shards.specs.window_strobes.Watched.{IsObjectOf};
ghost use Rattle.slot_strobes.specs.Strobes.{bit_in};

use copy_state::FaultCopy;
use four_value::Bit;
use good_trace::TraceWindow;
use lockstep_shards::keeps_value;
use std::alloc::Global;
use v_design::World;
use vf_base::{NoMemory, WatchBit};

/// What the strobes before a slot show of a fault: whether some watched bit detects it, whether some possibly does, and whether all are the good machine's.
#[derive(Clone, Copy, Debug)]
pub(crate) struct Shown {
    pub hard: bool,
    pub possible: bool,
    pub same: bool,
}

/// Whether a good bit is 0 or 1 and the faulty bit opposite.
fn is_hard(good: Bit, own: Bit) -> bool
    ensures { result ≡ is_hard_pair good own }
{
    matches!((good, own), (Bit::Zero, Bit::One) | (Bit::One, Bit::Zero))
}

/// Whether a good bit is 0 or 1 and the faulty bit x or z.
fn is_possible(good: Bit, own: Bit) -> bool
    ensures { result ≡ is_possible_pair good own }
{
    matches!((good, own), (Bit::Zero | Bit::One, Bit::X | Bit::Z))
}

/// Whether two bits are the same of all four values.
fn is_same(own: Bit, good: Bit) -> bool
    ensures { result ≡ same_bit own good }
{
    own == good
}

/// Compares a watched bit of the good machine before a slot of a window with that of the faulty machine: where the copy has no value of its own they are alike.
fn compare_bit<N: World>(
    window: &TraceWindow<N>,
    slot: u32,
    place: WatchBit,
    copy: &FaultCopy,
) -> Shown
    requires slot { window.now.before + slot ≤ window.now.through }
    requires place { IsObjectOf N.design (watched_bit place) }
    ensures hard { let good = (state_through N.design N.plan (window.now.before + slot)).values in
        result.hard ≡ is_hard_pair (bit_in good (watched_bit place)) (bit_in (faulty_values good copy.now.values) (watched_bit place)) }
    ensures possible { let good = (state_through N.design N.plan (window.now.before + slot)).values in
        result.possible ≡ is_possible_pair (bit_in good (watched_bit place)) (bit_in (faulty_values good copy.now.values) (watched_bit place)) }
    ensures same { let good = (state_through N.design N.plan (window.now.before + slot)).values in
        result.same ≡ same_bit (bit_in (faulty_values good copy.now.values) (watched_bit place)) (bit_in good (watched_bit place)) }
{
    window.rests_before(slot);
    let kept = keeps_value(copy, place.object);
    if !kept {
        return Shown {
            hard: false,
            possible: false,
            same: true,
        };
    }
    let moment = window.first_moment(slot);
    let good = window.value_at(place.object, moment);
    let own = copy.value(place.object, good);
    let good_bit = good.bit(place.bit);
    let own_bit = own.bit(place.bit);
    Shown {
        hard: is_hard(good_bit, own_bit),
        possible: is_possible(good_bit, own_bit),
        same: is_same(own_bit, good_bit),
    }
}

/// Compares the watched bits of the good machine before a slot of a window with those of the faulty machine, whose values are the good ones with the copy's own over them.
pub(crate) fn compare<N: World>(
    window: &TraceWindow<N>,
    watched: &[WatchBit],
    slot: u32,
    copy: &FaultCopy,
) -> Shown
    requires slot { window.now.before + slot ≤ window.now.through }
    requires watched { AllHold (IsObjectOf N.design) (map watched_bit watched.now) }
    ensures hard { let good = (state_through N.design N.plan (window.now.before + slot)).values in
        result.hard ≡ some_sample is_hard_pair (samples (map watched_bit watched.now) good) (samples (map watched_bit watched.now) (faulty_values good copy.now.values)) }
    ensures possible { let good = (state_through N.design N.plan (window.now.before + slot)).values in
        result.possible ≡ some_sample is_possible_pair (samples (map watched_bit watched.now) good) (samples (map watched_bit watched.now) (faulty_values good copy.now.values)) }
    ensures same { let good = (state_through N.design N.plan (window.now.before + slot)).values in
        result.same ≡ same_value (samples (map watched_bit watched.now) (faulty_values good copy.now.values)) (samples (map watched_bit watched.now) good) }
{
    let mut hard = false;
    let mut possible = false;
    let mut same = true;
    'watched: for place in watched {
        let shown = compare_bit(window, slot, *place, copy);
        hard = hard || shown.hard;
        possible = possible || shown.possible;
        same = same && shown.same;
    }
    Shown {
        hard,
        possible,
        same,
    }
}

/// A watched bit of the faulty machine before a slot of a window: of the copy's own value, or of the good machine's.
fn own_bit<N: World>(window: &TraceWindow<N>, slot: u32, place: WatchBit, copy: &FaultCopy) -> Bit
    requires slot { window.now.before + slot ≤ window.now.through }
    requires place { IsObjectOf N.design (watched_bit place) }
    ensures { result ≡ bit_in (faulty_values (state_through N.design N.plan (window.now.before + slot)).values copy.now.values) (watched_bit place) }
{
    window.rests_before(slot);
    let moment = window.first_moment(slot);
    let good = window.value_at(place.object, moment);
    let own = copy.value(place.object, good);
    own.bit(place.bit)
}

/// The watched bits of the faulty machine before a slot of a window.
///
/// # Errors
///
/// Want of memory.
pub(crate) fn own_bits<N: World>(
    alloc: Global,
    window: &TraceWindow<N>,
    watched: &[WatchBit],
    slot: u32,
    copy: &FaultCopy,
) -> Result<Vec<Bit>, NoMemory>
    requires slot { window.now.before + slot ≤ window.now.through }
    requires watched { AllHold (IsObjectOf N.design) (map watched_bit watched.now) }
    ensures { IfOk result (λ bits. bits.items ≡ samples (map watched_bit watched.now) (faulty_values (state_through N.design N.plan (window.now.before + slot)).values copy.now.values)) }
{
    let mut bits = Vec::new(alloc);
    'watched: for place in watched {
        bits.push(own_bit(window, slot, *place, copy))?;
    }
    Ok(bits)
}
