// What a wait waits for.

ghost use Rattle.std.specs.Prelude.{◌≡◌, ◌≤◌, ◌++◌, IfOk, flat_map, map};
ghost use Rattle.v_design.specs.Plain.{entry_of};
ghost use Rattle.v_design.specs.Expressions.{up_from};
ghost use Rattle.v_tree.specs.Views as source;
ghost use Rattle.elab_parts.specs.PartViews.{places_of};
ghost use Rattle.v_elab.specs.Statements.{Meaning as PlainMeaning, entries_of_select, star_entries, wait_entries};
ghost use Rattle.object_waits.specs.Selects.{run_places};
ghost use Rattle.object_statements.specs.Meanings.{IsMeaning};
ghost use Rattle.object_statements.specs.Texts.{HasMeaning, IsSizedText, AreFewPlaces, IsNarrowSelect, AreNarrowEntries, AreNarrowWaits};

use crate::meaning::Meaning;
use crate::reads::objects_read;
use elab_parts::DrivenBits;
use object_waits::SelectedBits;
use select_bits::select_bits;
use std::alloc::Global;
use v_design::WaitEntry;
use v_tree::{Entry, Stmt, Waits};
use vf_base::NoMemory;

/// The first place of a run of bits, 0 where it has none.
fn first_place(low: u64, width: u64) -> u64
    ensures same { up_from result width ≡ up_from low width }
    ensures none { width ≡ 0 → result ≡ 0 }
    ensures some { 1 ≤ width → result ≡ low }
{
    if width == 0 { 0 } else { low }
}

/// The bits of a select as those that an entry is on.
fn selected(bits: DrivenBits) -> SelectedBits
    requires { AreFewPlaces (places_of bits) }
    ensures { run_places result.outside_below result.low result.width result.outside_above ≡ places_of bits }
{
    let first = first_place(bits.low, bits.width);
    let outside_below = bits.outside_below as u8;
    let low = first as u8;
    let width = bits.width as u8;
    let outside_above = bits.outside_above as u8;
    SelectedBits {
        outside_below,
        low,
        width,
        outside_above,
    }
}

/// The entries of an entry of the text: one for each object that holds some of its bits.
fn entries_of(
    alloc: Global,
    meaning: Meaning<'_, '_>,
    entry: &Entry,
) -> Result<Vec<WaitEntry>, NoMemory>
    requires { HasMeaning meaning (λ (m : PlainMeaning). IsNarrowSelect m.scope (source.select_of entry.now.select)) }
    ensures { IfOk result (λ entries. (plain : PlainMeaning) → IsMeaning plain meaning.entry → map entry_of entries.items ≡ entries_of_select plain (source.entry_of entry.now)) }
{
    let bits = select_bits(alloc, meaning.scope, &entry.select)?;
    let vector = meaning.names.vector(alloc, &entry.select.name)?;
    let own = selected(bits);
    let entries = object_waits::entries_of_select(alloc, entry.edge, own, &vector)?;
    Ok(entries)
}

/// Puts some entries behind others.
fn append(more: &[WaitEntry], entries: &mut Vec<WaitEntry>) -> Result<(), NoMemory>
    ensures { IfOk result (λ _. map entry_of entries.new.items ≡ map entry_of entries.old.items ++ map entry_of more.now) }
{
    'more: for entry in more {
        entries.push(*entry)?;
    }
    Ok(())
}

/// The entries of a list in the text.
fn listed_entries(
    alloc: Global,
    meaning: Meaning<'_, '_>,
    listed: &[Entry],
) -> Result<Vec<WaitEntry>, NoMemory>
    requires { HasMeaning meaning (λ (m : PlainMeaning). AreNarrowEntries m.scope (map source.entry_of listed.now)) }
    ensures { IfOk result (λ entries. (plain : PlainMeaning) → IsMeaning plain meaning.entry → map entry_of entries.items ≡ flat_map (entries_of_select plain) (map source.entry_of listed.now)) }
{
    let mut entries = Vec::new(alloc);
    'listed: for entry in listed {
        let more = entries_of(alloc, meaning, entry)?;
        append(&more, &mut entries)?;
    }
    Ok(entries)
}

/// The entries of `@*`: one on each object that its statement reads, in the order of the text.
fn star_entries(
    alloc: Global,
    meaning: Meaning<'_, '_>,
    body: &Stmt,
) -> Result<Vec<WaitEntry>, NoMemory>
    requires { HasMeaning meaning (λ (m : PlainMeaning). IsSizedText m (source.statement_of body.now)) }
    ensures { IfOk result (λ entries. (plain : PlainMeaning) → IsMeaning plain meaning.entry → map entry_of entries.items ≡ star_entries plain (source.statement_of body.now)) }
{
    let objects = objects_read(alloc, meaning, body)?;
    let entries = object_waits::star_entries(alloc, &objects, meaning.widths)?;
    Ok(entries)
}

/// What an event control waits for, over objects.
pub fn wait_entries(
    alloc: Global,
    meaning: Meaning<'_, '_>,
    waits: &Waits,
    body: &Stmt,
) -> Result<Vec<WaitEntry>, NoMemory>
    requires { HasMeaning meaning (λ (m : PlainMeaning). AreNarrowWaits m.scope (source.waits_of waits.now) × IsSizedText m (source.statement_of body.now)) }
    ensures { IfOk result (λ entries. (plain : PlainMeaning) → IsMeaning plain meaning.entry →
        map entry_of entries.items ≡ wait_entries plain (source.waits_of waits.now) (source.statement_of body.now)) }
{
    match waits {
        Waits::AnyRead => {
            let entries = star_entries(alloc, meaning, body)?;
            Ok(entries)
        }
        Waits::Entries(listed) => {
            let entries = listed_entries(alloc, meaning, listed.as_slice())?;
            Ok(entries)
        }
    }
}
