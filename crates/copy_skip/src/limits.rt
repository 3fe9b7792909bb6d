// Moments before which no event touches an object or a node.

ghost use Rattle.std.specs.Prelude.{◌≡◌, ℕ, ◌<◌, ◌≤◌, ◌^◌, Some, length};
ghost use Rattle.vf_base.specs.Base.{object_number, node_number};
ghost use Rattle.v_design.specs.Plain.{site_of};
ghost use Rattle.v_design.specs.PlainDesigns.{design_of};
ghost use Rattle.trace_window.specs.Moments.{window_events};
ghost use Rattle.copy_skip.specs.Limits.{NoneTouches, NoneEvaluates, NoneReads, IsLeftAlone, AreLeftAlone, SiteLeftAlone, SiteIsThere, AreThere};

use copy_state::FaultCopy;
use good_trace::{Setup, TraceWindow};
use v_design::{Fault, Site, World};
use vf_base::{NodeId, ObjectId};

/// The lesser of a limit and a moment, if that is there.
pub fn earlier(limit: u32, next: Option<u32>) -> u32
    ensures low { result ≤ limit }
    ensures next { (moment : ℕ) → next ≡ Some moment → result ≤ moment }
{
    match next {
        None => limit,
        Some(moment) => limit.min(moment),
    }
}

/// The limit, or a lesser moment, before which no event from a first one on reads or writes an object.
fn touch_limit<N: World>(window: &TraceWindow<N>, object: ObjectId, first: u32, limit: u32) -> u32
    requires there { object_number object < length N.design.objects }
    requires within { limit ≤ length (window_events N.design N.plan window.now.before window.now.through) }
    ensures low { result ≤ limit }
    ensures touches { NoneTouches N.design (window_events N.design N.plan window.now.before window.now.through) (object_number object) first result }
{
    earlier(limit, window.next_touch(object, first))
}

/// The same of the evaluations of a node.
fn evaluation_limit<N: World>(window: &TraceWindow<N>, node: NodeId, first: u32, limit: u32) -> u32
    requires there { node_number node < length N.design.nodes }
    requires within { limit ≤ length (window_events N.design N.plan window.now.before window.now.through) }
    ensures low { result ≤ limit }
    ensures evaluates { NoneEvaluates (window_events N.design N.plan window.now.before window.now.through) (node_number node) first result }
{
    earlier(limit, window.next_evaluation(node, first))
}

/// The same of the evaluations of all nodes that read an object.
fn readers_limit<N: World>(
    setup: &Setup<'_, N>,
    window: &TraceWindow<N>,
    object: ObjectId,
    first: u32,
    limit: u32,
) -> u32
    requires there { object_number object < length N.design.objects }
    requires within { limit ≤ length (window_events N.design N.plan window.now.before window.now.through) }
    ensures low { result ≤ limit }
    ensures reads { NoneReads N.design (window_events N.design N.plan window.now.before window.now.through) (object_number object) first result }
{
    let design = setup.design();
    let readers = setup.graph().readers(object);
    let mut least = limit;
    'readers: for reader in readers {
        least = evaluation_limit(window, *reader, first, least);
    }
    least
}

/// The limit, or a lesser moment, before which all events from a first one on leave an object alone.
fn object_limit<N: World>(
    setup: &Setup<'_, N>,
    window: &TraceWindow<N>,
    object: ObjectId,
    first: u32,
    limit: u32,
) -> u32
    requires there { object_number object < length N.design.objects }
    requires within { limit ≤ length (window_events N.design N.plan window.now.before window.now.through) }
    ensures low { result ≤ limit }
    ensures alone { IsLeftAlone N.design (window_events N.design N.plan window.now.before window.now.through) (object_number object) first result }
{
    let touched = touch_limit(window, object, first, limit);
    readers_limit(setup, window, object, first, touched)
}

/// The same of all objects of which a copy keeps a value.
pub fn values_limit<N: World>(
    setup: &Setup<'_, N>,
    window: &TraceWindow<N>,
    copy: &FaultCopy,
    first: u32,
    limit: u32,
) -> u32
    requires there { AreThere N.design copy.now.values }
    requires within { limit ≤ length (window_events N.design N.plan window.now.before window.now.through) }
    ensures low { result ≤ limit }
    ensures alone { AreLeftAlone N.design (window_events N.design N.plan window.now.before window.now.through) copy.now.values (length N.design.objects) first result }
{
    copy.ascending();
    let design = setup.design();
    let mut least = limit;
    let mut next = copy.next_value(ObjectId(0));
    'objects: while let Some(object) = next {
        least = object_limit(setup, window, object, first, least);
        next = copy.next_value(ObjectId(object.0 + 1));
    }
    least
}

/// The same of the site of a fault.
pub fn site_limit<N: World>(window: &TraceWindow<N>, fault: Fault, first: u32, limit: u32) -> u32
    requires there { SiteIsThere N.design (site_of fault.site) }
    requires within { limit ≤ length (window_events N.design N.plan window.now.before window.now.through) }
    ensures low { result ≤ limit }
    ensures alone { SiteLeftAlone N.design (window_events N.design N.plan window.now.before window.now.through) (site_of fault.site) first result }
{
    match fault.site {
        Site::Var(object, _) => touch_limit(window, object, first, limit),
        Site::Out(node, _, _) => evaluation_limit(window, node, first, limit),
        Site::Terminal(node, _) => evaluation_limit(window, node, first, limit),
    }
}
