// Moments before which no event of a window touches something, by a search of the window's indexes.

ghost use Rattle.std.specs.Prelude.{◌<◌, ◌≤◌, length};
ghost use Rattle.vf_base.specs.Base.{object_number, node_number, process_number};
ghost use Rattle.trace_window.specs.Acted.{stepped_at};
ghost use Rattle.trace_window.specs.Moments.{window_events};
ghost use Rattle.copy_skip.specs.Limits.{IsLeftAlone, NoneBetween, NoneEvaluates, NoneReads};

use copy_skip::earlier;
use good_trace::{Setup, TraceWindow};
use v_design::World;
use vf_base::{NodeId, ObjectId, ProcId};

/// The limit, or a lesser moment, before which no event from a first one on evaluates a node.
fn evaluation_limit<N: World>(window: &TraceWindow<N>, node: NodeId, first: u32, limit: u32) -> u32
    requires there { node_number node < length N.design.nodes }
    requires within { limit ≤ length (window_events N.design N.plan window.now.before window.now.through) }
    ensures low { result ≤ limit }
    ensures evaluates { NoneEvaluates (window_events N.design N.plan window.now.before window.now.through) (node_number node) first result }
{
    earlier(limit, window.next_evaluation(node, first))
}

/// The same of all nodes that read an object.
fn readers_limit<N: World>(
    setup: &Setup<'_, N>,
    window: &TraceWindow<N>,
    object: ObjectId,
    first: u32,
    limit: u32,
) -> u32
    requires there { object_number object < length N.design.objects }
    requires within { limit ≤ length (window_events N.design N.plan window.now.before window.now.through) }
    ensures low { result ≤ limit }
    ensures reads { NoneReads N.design (window_events N.design N.plan window.now.before window.now.through) (object_number object) first result }
{
    let design = setup.design();
    let readers = setup.graph().readers(object);
    let mut least = limit;
    'readers: for reader in readers {
        least = evaluation_limit(window, *reader, first, least);
    }
    least
}

/// A moment before which all events of a window from a first one on leave an object alone.
pub(crate) fn object_limit<N: World>(
    setup: &Setup<'_, N>,
    window: &TraceWindow<N>,
    object: ObjectId,
    first: u32,
) -> u32
    requires { object_number object < length N.design.objects }
    ensures { IsLeftAlone N.design (window_events N.design N.plan window.now.before window.now.through) (object_number object) first result }
{
    let touched = earlier(window.moments(), window.next_touch(object, first));
    readers_limit(setup, window, object, first, touched)
}

/// A moment before which neither a process nor its lane takes a step from a first one on.
pub(crate) fn step_limit<N: World>(window: &TraceWindow<N>, process: ProcId, first: u32) -> u32
    requires { process_number process < length N.design.processes }
    ensures { NoneBetween (stepped_at (window_events N.design N.plan window.now.before window.now.through) (process_number process)) first result }
{
    earlier(window.moments(), window.next_step(process, first))
}
