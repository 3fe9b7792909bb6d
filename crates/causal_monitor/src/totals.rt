// How many paths lead from the changes of a phase to each object, and which net pieces are wild.

ghost use Rattle.std.specs.Prelude.{◌≡◌, ◌<◌, ◌&&◌, length, vec_len};
ghost use Rattle.vf_base.specs.Base.{object_number};
ghost use Rattle.vf_base.specs.Lists.{has};
ghost use Rattle.v_design.specs.Paths.{net_pieces, is_wild};
ghost use Rattle.v_design.specs.Logs.{phase_changes};
ghost use Rattle.v_design.specs.PlainDesigns.{design_of};
ghost use Rattle.causal_monitor.specs.Changes.{CountChanges, AreTotals};

use crate::changes::is_net_piece;
use crate::log::PhaseLog;
use net_graph::Graph;
use v_design::Design;
use vf_base::ObjectId;

/// The paths from all changes of a phase to each object, told apart up to 2.
pub(crate) fn add_up(graph: &Graph, log: &PhaseLog, counts: &Vec<u8>, totals: &mut Vec<u8>)
    requires counts { CountChanges (phase_changes (design_of graph.now.design.now) log.now.log) counts.now.items }
    requires counts_sized { vec_len counts.now ≡ length (design_of graph.now.design.now).objects }
    requires sized { vec_len totals.old ≡ length (design_of graph.now.design.now).objects }
    ensures totals { AreTotals (design_of graph.now.design.now) (phase_changes (design_of graph.now.design.now) log.now.log) totals.new.items }
    ensures same { vec_len totals.new ≡ vec_len totals.old }
{
    graph.total_paths(counts, totals);
}

/// Whether an object is a net piece that is wild in a phase: several changes reach it, or one on several paths.
pub(crate) fn is_wild_net(
    design: &Design,
    log: &PhaseLog,
    totals: &Vec<u8>,
    object: ObjectId,
) -> bool
    requires is_object { object_number object < length (design_of design.now).objects }
    requires sized { vec_len totals.now ≡ length (design_of design.now).objects }
    requires totals { AreTotals (design_of design.now) (phase_changes (design_of design.now) log.now.log) totals.now.items }
    ensures { result ≡ (has (net_pieces (design_of design.now)) (object_number object) && is_wild (design_of design.now) (phase_changes (design_of design.now) log.now.log) (object_number object)) }
{
    is_net_piece(design, object) && totals[object.0 as usize] > 1
}
