// The tests of a window's moments.

ghost use Rattle.std.specs.Prelude.{◌≡◌, ◌+◌, ◌^◌, ◌<◌, true, false, length, IfSome, IfNone};
ghost use Rattle.vf_base.specs.Base.{object_number};
ghost use Rattle.v_design.specs.Designs.{good_machine};
ghost use Rattle.trace_window.specs.Moments.{window_events};
ghost use Rattle.trace_window.specs.Touched.{touched_at, written_at};
ghost use Rattle.window_tests.specs.Between.{SomeMoment, OnlyWithin, read_at};

use crate::spans::Spans;
use good_trace::TraceWindow;
use v_design::World;
use vf_base::ObjectId;

/// Whether an event from one moment to before another, but for those in some spans, reads or writes an object, a net piece only where that changes.
pub fn is_touched<N: World, S: Spans>(
    window: &TraceWindow<N>,
    object: ObjectId,
    first: u32,
    end: u32,
    spans: &S,
) -> bool
    requires { object_number object < length N.design.objects }
    ensures some { result ≡ true → SomeMoment (touched_at (good_machine N.design) (window_events N.design N.plan window.now.before window.now.through) (object_number object)) first end }
    ensures none { result ≡ false → OnlyWithin (S.covers spans.now)
        (touched_at (good_machine N.design) (window_events N.design N.plan window.now.before window.now.through) (object_number object)) first end }
{
    let mut at = first;
    'moments: while let Some(moment) = window.next_touch(object, at) {
        if moment >= end {
            return false;
        }
        match spans.end_of(moment) {
            Some(past) => at = past,
            None => return true,
        }
    }
    false
}

/// Whether an event from one moment to before another, but for those in some spans, writes an object, a net piece only where that changes.
pub fn is_written<N: World, S: Spans>(
    window: &TraceWindow<N>,
    object: ObjectId,
    first: u32,
    end: u32,
    spans: &S,
) -> bool
    requires { object_number object < length N.design.objects }
    ensures some { result ≡ true → SomeMoment (written_at (good_machine N.design) (window_events N.design N.plan window.now.before window.now.through) (object_number object)) first end }
    ensures none { result ≡ false → OnlyWithin (S.covers spans.now)
        (written_at (good_machine N.design) (window_events N.design N.plan window.now.before window.now.through) (object_number object)) first end }
{
    let mut at = first;
    'moments: while let Some(moment) = window.next_change(object, at) {
        if moment >= end {
            return false;
        }
        match spans.end_of(moment) {
            Some(past) => at = past,
            None => return true,
        }
    }
    false
}

/// Whether the event of a moment writes an object, a net piece only where that changes.
fn writes_at<N: World>(window: &TraceWindow<N>, object: ObjectId, moment: u32) -> bool
    requires { object_number object < length N.design.objects }
    ensures { result ≡ written_at (good_machine N.design) (window_events N.design N.plan window.now.before window.now.through) (object_number object) moment }
{
    match window.next_change(object, moment) {
        Some(change) => change == moment,
        None => false,
    }
}

/// Where to go on behind a moment at which an event reads or writes an object; nowhere where it reads it and lies in no span.
fn behind_write<N: World, S: Spans>(
    window: &TraceWindow<N>,
    object: ObjectId,
    moment: u32,
    spans: &S,
) -> Option<u32>
    requires object { object_number object < length N.design.objects }
    requires more { moment + 1 < 2 ^ 32 }
    ensures on { IfSome result (λ past. moment < past) }
    ensures passed { IfSome result (λ past. OnlyWithin (S.covers spans.now)
        (read_at (good_machine N.design) (window_events N.design N.plan window.now.before window.now.through) (object_number object)) moment past) }
    ensures read { IfNone result (written_at (good_machine N.design) (window_events N.design N.plan window.now.before window.now.through) (object_number object) moment ≡ false) }
{
    if let Some(past) = spans.end_of(moment) {
        return Some(past);
    }
    if writes_at(window, object, moment) {
        return Some(moment + 1);
    }
    None
}

/// Whether an event from one moment to before another, but for those in some spans, reads an object.
pub fn is_read<N: World, S: Spans>(
    window: &TraceWindow<N>,
    object: ObjectId,
    first: u32,
    end: u32,
    spans: &S,
) -> bool
    requires { object_number object < length N.design.objects }
    ensures some { result ≡ true → SomeMoment (read_at (good_machine N.design) (window_events N.design N.plan window.now.before window.now.through) (object_number object)) first end }
    ensures none { result ≡ false → OnlyWithin (S.covers spans.now)
        (read_at (good_machine N.design) (window_events N.design N.plan window.now.before window.now.through) (object_number object)) first end }
{
    let mut at = first;
    'moments: while let Some(moment) = window.next_touch(object, at) {
        if moment >= end {
            return false;
        }
        match behind_write(window, object, moment, spans) {
            Some(past) => at = past,
            None => return true,
        }
    }
    false
}
