// The room goes on with the good machine.

ghost use Rattle.std.specs.Prelude.{◌≡◌, ◌<◌, ℕ, length, OnOk};
ghost use Rattle.lockstep_turn.specs.lockstep_room.Rooms.{AreCounts};
ghost use Rattle.lockstep_turn.specs.lockstep_slots.Places.{Place};
ghost use Rattle.lockstep_turn.specs.slot_laws.Slots.{AreOfOneWindow, GoesOverBlock, HasBlockNext, IsRoomIn, MayGoTo, StopsAt, further};

use good_trace::Setup;
use lockstep_turn::{LockstepRoom, LockstepWindow, follow_block};
use v_design::World;
use vf_base::NoMemory;

/// The room goes over the next block of the good machine.
fn pass_block<N: World>(
    setup: &Setup<'_, N>,
    view: &LockstepWindow<'_, N>,
    room: &mut LockstepRoom<'_, N>,
) -> Result<(), NoMemory>
    requires window { AreOfOneWindow view.now.window.now view.now.blocks.now view.now.wakes.now }
    requires counts { AreCounts N.design room.old.counts }
    requires next { HasBlockNext N.design N.plan view.now.window.now.before view.now.window.now.through room.old.runner room.old.before room.old.behind }
    ensures over { OnOk result ((number : ℕ) (place : Place) → IsRoomIn N.design N.plan view.now.window.now.before view.now.window.now.through number place room.old.runner room.old.before
        room.old.behind → 0 < length place.left →
        GoesOverBlock N.design N.plan view.now.window.now.before view.now.window.now.through number place room.old.before.moment room.new.runner room.new.before room.new.behind) }
    ensures counts { OnOk result (room.new.counts ≡ room.old.counts) }
{
    room.behind
        .pass_block(setup, view.window, view.blocks, view.wakes)?;
    follow_block(setup, &mut room.runner, &room.behind, room.counts)?;
    room.before
        .pass_block(setup, view.window, view.blocks, view.wakes)?;
    Ok(())
}

/// The room goes over blocks up to a moment of the phase at which no process is in the midst of a run.
pub(crate) fn pass_until<N: World>(
    setup: &Setup<'_, N>,
    view: &LockstepWindow<'_, N>,
    room: &mut LockstepRoom<'_, N>,
    target: u32,
) -> Result<(), NoMemory>
    requires window { AreOfOneWindow view.now.window.now view.now.blocks.now view.now.wakes.now }
    requires counts { AreCounts N.design room.old.counts }
    requires target { MayGoTo N.design N.plan view.now.window.now.before view.now.window.now.through target room.old.runner room.old.before room.old.behind }
    ensures room { OnOk result ((number : ℕ) (place : Place) (count : ℕ) → IsRoomIn N.design N.plan view.now.window.now.before view.now.window.now.through number place room.old.runner
        room.old.before room.old.behind → StopsAt N.design place room.old.before.moment target count →
        IsRoomIn N.design N.plan view.now.window.now.before view.now.window.now.through number (further count place) room.new.runner room.new.before room.new.behind) }
    ensures moment { OnOk result (room.new.before.moment ≡ target) }
    ensures counts { OnOk result (room.new.counts ≡ room.old.counts) }
{
    phase_blocks::blocks_are_told();
    'stretch: while room.before.moment() < target {
        pass_block(setup, view, room)?;
    }
    Ok(())
}
