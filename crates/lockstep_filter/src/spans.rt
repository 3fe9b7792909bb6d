// The moments that noted blocks of the good machine cover.

use phase_reach::Spans;
use race_notes::RaceNotes;

/// The moments of the good machine's blocks beside those that are noted: what stretches do is asked without them.
#[derive(Clone, Copy)]
pub(crate) struct NotedSpans<'a> {
    pub(crate) notes: &'a RaceNotes,
}

impl<'a> Spans for NotedSpans<'a> {
    ghost use Rattle.lockstep_filter.specs.Free.{IsCovered};

    ghost covers = { λ s. IsCovered s.notes.now.spans };

    fn end_of(&self, moment: u32) -> Option<u32> {
        self.notes.span_end(moment)
    }
}
