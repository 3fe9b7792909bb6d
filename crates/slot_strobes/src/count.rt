// The strobes of a plan up to a time.

ghost use Rattle.std.specs.Prelude.{◌≤◌, length};
ghost use Rattle.slot_strobes.specs.Counts.{CountsBy};

use good_trace::Setup;
use v_design::World;

/// How many of the plan's strobes come up to a time, in steps, where so many come at least.
pub fn strobes_by<N: World>(setup: &Setup<'_, N>, from: usize, time: u64) -> usize
    requires { from ≤ length N.plan.strobes }
    ensures { CountsBy N.plan.strobes from result time }
{
    let plan = setup.plan();
    let strobes = plan.strobes.as_slice();
    'strobes: for place in from..strobes.len() {
        let strobe = strobes[place];
        if time < strobe {
            return place;
        }
    }
    strobes.len()
}
