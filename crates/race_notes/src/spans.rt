// The moments of blocks.

ghost use Rattle.std.specs.Prelude.{IfSome};
ghost use Rattle.race_notes.specs.Spans.{IsWithinSpan};

use crate::note::OwnSpan;

/// Where the last of some blocks that don't begin behind a moment ends, if the moment lies in it, by binary search.
pub(crate) fn span_end(spans: &[OwnSpan], moment: u32) -> Option<u32>
    ensures { IfSome result (IsWithinSpan spans.now moment) }
{
    let through = spans.partition_point(|span| span.begins <= moment);
    let last = through.checked_sub(1)?;
    let span = spans.get(last)?;
    if span.begins <= moment && moment < span.ends {
        return Some(span.ends);
    }
    None
}
