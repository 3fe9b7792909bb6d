// What tells whether a block is a node.

ghost use Rattle.std.specs.Prelude.{◌≡◌, IfOk, map};
ghost use Rattle.v_elab.specs.Drivers.{signals_of};
ghost use Rattle.elab_parts.specs.PartViews.{parts_of};
ghost use Rattle.elab_wires.specs.WrittenNames.{written_of, written_from};
ghost use Rattle.elab_wires.specs.Wirings.{IsWiring};

use crate::signals::Signals;
use crate::writers::{PortWriters, Writers};
use crate::written::Written;
use elab_parts::Part;
use std::alloc::Global;
use vf_base::NoMemory;

/// Some parts with the tables of their names: all nets and variables, what is written, and what output ports are joined into.
#[derive(Drop)]
pub struct Wiring<'s, 'p, 'u> {
    pub parts: &'p [Part<'u>],
    pub signals: &'s Signals<'p>,
    pub writers: Writers<'s>,
    pub ports: PortWriters<'p>,
}

impl<'s, 'p, 'u> Wiring<'s, 'p, 'u> {
    /// Some parts with the tables of their names, where these are their nets and variables and what they write.
    pub fn new(
        alloc: Global,
        parts: &'p [Part<'u>],
        signals: &'s Signals<'p>,
        written: &'s [Written],
    ) -> Result<Wiring<'s, 'p, 'u>, NoMemory>
        requires signals { signals.now ≡ signals_of (parts_of parts.now) }
        requires written { map written_of written.now ≡ written_from 0 (parts_of parts.now) }
        ensures parts { IfOk result (λ wiring. wiring.parts.now ≡ parts.now) }
        ensures wiring { IfOk result IsWiring }
    {
        let writers = Writers::new(alloc, signals, written)?;
        let ports = PortWriters::new(alloc, parts)?;
        Ok(Wiring {
            parts,
            signals,
            writers,
            ports,
        })
    }
}
