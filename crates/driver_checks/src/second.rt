// The variable that drives an object second.

ghost use Rattle.std.specs.Prelude.{◌≡◌, map, option_map};
ghost use Rattle.elab_parts.specs.PartViews.{signal_of};
ghost use Rattle.elab_wires.specs.SignalTables.{signal_borrowed};
ghost use Rattle.driver_checks.specs.Seconds.{second_with, second_by_depth};

use elab_objects::earlier;
use elab_parts::Signal;

/// The second of some variables with one more behind them in the walk.
fn later<'p>(
    first: Option<&'p Signal>,
    second: Option<&'p Signal>,
    signal: &'p Signal,
) -> Option<&'p Signal>
    ensures { option_map signal_borrowed result ≡ second_with (option_map signal_borrowed first.entry) (option_map signal_borrowed second.entry) (signal_of signal.now) }
{
    match first {
        None => None,
        Some(first) => {
            if signal.depth < first.depth {
                Some(first)
            } else {
                Some(earlier(second, signal))
            }
        }
    }
}

/// The second of some variables by depth, at equal depth in the order of the walk.
pub fn second_by_depth<'p>(signals: &[&'p Signal]) -> Option<&'p Signal>
    ensures { option_map signal_borrowed result ≡ second_by_depth (map signal_borrowed signals.now) }
{
    let mut first: Option<&'p Signal> = None;
    let mut second: Option<&'p Signal> = None;
    'signals: for signal in signals {
        second = later(first, second, *signal);
        first = Some(earlier(first, *signal));
    }
    second
}
