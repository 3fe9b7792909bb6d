// The parts of a walk so far.

ghost use Rattle.std.specs.Prelude.{◌≡◌, List, [], ◌∷◌, ◌++◌, length, None, MatchResult};
ghost use Rattle.v_elab.specs.Parts as plain;
ghost use Rattle.v_elab.specs.Parts.{InstancePart, too_many_parts};
ghost use Rattle.v_elab.specs.Refusals.{unless_refused};
ghost use Rattle.elab_connections.specs.NodeCounts.{CountsNodes};
ghost use Rattle.elab_walk.specs.CountViews.{AreCounts};
ghost use Rattle.elab_walk.specs.WalkFaults.{IsWalkFault};
ghost use Rattle.elab_walk.specs.Leaves.{parts_in, IsCounted};

use crate::counts::Counts;
use crate::fault::WalkFault;
use elab_parts::Part;
use std::alloc::Global;

/// The parts of a walk so far, with their counts.
#[derive(Drop)]
pub struct Walked<'u> {
    pub parts: Vec<Part<'u>>,
    counts: Counts,
}

impl<'u> Walked<'u> {
    /// No parts, which takes no memory.
    pub fn new(alloc: Global) -> Walked<'u>
        ensures parts { parts_in result ≡ [] }
        ensures counted { AreCounts [] result.counts }
    {
        Walked {
            parts: Vec::new(alloc),
            counts: Counts::new(),
        }
    }

    /// Refuses the first count that passes its limit.
    fn few(&self) -> Result<(), WalkFault>
        ensures { (all : List plain.Part) → AreCounts all self.now.counts →
            MatchResult result (λ done. too_many_parts all ≡ None) (λ fault. IsWalkFault (unless_refused (too_many_parts all) all) fault) }
    {
        match self.counts.too_many() {
            None => Ok(()),
            Some(what) => Err(WalkFault::TooMany(what)),
        }
    }

    /// Counts the parts from a number on, which stand behind those that are counted, and refuses the first count that passes its limit.
    pub fn count_from(&mut self, start: usize) -> Result<(), WalkFault>
        ensures { (before front more : List plain.Part) → AreCounts before self.old.counts → parts_in self.old ≡ front ++ more → start ≡ length front → IsCounted before more result self.old self.new }
    {
        let start = start.min(self.parts.len());
        self.counts.add_all(&self.parts[start..]);
        self.few()?;
        Ok(())
    }

    /// Counts an instance and what its connections assign, of which nothing is put behind the parts, and refuses the first count that passes its limit.
    pub fn count_instance(&mut self, nodes: u64) -> Result<(), WalkFault>
        ensures { (before assigned : List plain.Part) → AreCounts before self.old.counts → CountsNodes assigned nodes → IsCounted before (InstancePart ∷ assigned) result self.old self.new }
    {
        self.counts.add(&Part::Instance);
        self.counts.add_nodes(nodes);
        self.few()?;
        Ok(())
    }
}
