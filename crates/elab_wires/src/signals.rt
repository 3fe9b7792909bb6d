// Nets and variables by their names.

ghost use Rattle.std.specs.Prelude.{◌≡◌, ◌++◌, ◌∷◌, [], IfOk, OnOk, map, option_map};
ghost use Rattle.vf_base.specs.Lists.{AllHold};
ghost use Rattle.key_index.specs.Groups.{keyed_of};
ghost use Rattle.elab_parts.specs.PartViews.{part_of, parts_of, signal_of};
ghost use Rattle.v_elab.specs.Drivers.{signals_of, signal_named, joined_into, outermost};
ghost use Rattle.elab_wires.specs.SignalTables.{signal_borrowed, joining_borrowed, signals_listed, IsOwn};

use elab_parts::{Joining, Part, Signal};
use key_index::{Grouped, Keyed};
use std::alloc::Global;
use std::marker::Model;
use vf_base::{MAX_DEPTH, NoMemory};

/// The nets and variables of a walk, found by their names. Contracts see the list of them in the order of the walk.
#[derive(Drop)]
pub struct Signals<'p> {
    by_name: Grouped<'p, &'p Signal>,
}

impl<'p> Model for Signals<'p> {
    ghost use Rattle.std.specs.Prelude.{List, map};
    ghost use Rattle.vf_base.specs.Lists.{AllHold};
    ghost use Rattle.v_elab.specs.Parts.{Signal};

    ghost Value = { List Signal };

    ghost use Rattle.elab_wires.specs.SignalTables.{signal_seen, IsOwn};

    ghost view = { λ s. map signal_seen s.by_name };

    ghost invariant = { λ s. AllHold IsOwn s.by_name };
}

/// Adds a part to the list of those that are nets or variables.
fn push_signal<'p>(
    part: &'p Part<'_>,
    items: &mut Vec<Keyed<'p, &'p Signal>>,
) -> Result<(), NoMemory>
    requires { AllHold IsOwn (map keyed_of items.old.items) }
    ensures listed { OnOk result (signals_listed items.new.items ≡ signals_listed items.old.items ++ signals_of (part_of part.now ∷ [])) }
    ensures own { OnOk result (AllHold IsOwn (map keyed_of items.new.items)) }
{
    match part {
        Part::Signal(signal) => {
            items.push(Keyed {
                key: signal.name.as_bytes(),
                item: signal,
            })?;
            Ok(())
        }
        _ => Ok(()),
    }
}

/// The nets and variables among some parts, each with its name.
fn list_signals<'p>(
    alloc: Global,
    parts: &'p [Part<'_>],
) -> Result<Vec<Keyed<'p, &'p Signal>>, NoMemory>
    ensures listed { IfOk result (λ items. signals_listed items.items ≡ signals_of (parts_of parts.now)) }
    ensures own { IfOk result (λ items. AllHold IsOwn (map keyed_of items.items)) }
{
    let mut items = Vec::new(alloc);
    'parts: for part in parts {
        push_signal(part, &mut items)?;
    }
    Ok(items)
}

/// How a signal is joined.
fn joining_in(signal: &Signal) -> Option<&Joining>
    ensures { option_map joining_borrowed result ≡ (signal_of signal.now).joined }
{
    match &signal.joined {
        None => None,
        Some(joining) => Some(joining),
    }
}

impl<'p> Signals<'p> {
    /// The nets and variables of some parts.
    pub fn new(alloc: Global, parts: &'p [Part<'_>]) -> Result<Signals<'p>, NoMemory>
        ensures { IfOk result (λ signals. signals ≡ signals_of (parts_of parts.now)) }
    {
        let items = list_signals(alloc, parts)?;
        let by_name = Grouped::new(alloc, items)?;
        Ok(Signals { by_name })
    }

    /// The net or variable of a name; the first one of the walk, if it has several.
    pub fn named(&self, name: &[u8]) -> Option<&'p Signal>
        ensures { option_map signal_borrowed result ≡ signal_named self.now name.now }
    {
        self.by_name.first(name)
    }

    /// How the signal of a name is joined.
    fn joining(&self, name: &[u8]) -> Option<&'p Joining>
        ensures { option_map joining_borrowed result ≡ joined_into (signal_named self.now name.now) }
    {
        match self.named(name) {
            None => None,
            Some(signal) => joining_in(signal),
        }
    }

    /// The name that a name is at last joined into: itself where it isn't joined.
    pub fn outermost<'n>(&'n self, name: &'n [u8]) -> &'n [u8]
        ensures { result.now ≡ outermost self.now name.now }
    {
        let mut now = name;
        'joins: for _ in 0..MAX_DEPTH {
            match self.joining(now) {
                None => return now,
                Some(joining) => now = joining.into.as_bytes(),
            }
        }
        now
    }
}
