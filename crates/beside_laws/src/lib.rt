//! What stands of a faulty machine that is run beside the good one from window to window and in between is kept only by its differences (slots by
//! IEEE 1364-2001, clause 5). Each function here does nothing when it runs; its contract is the law.
#![tactic(auto)]

ghost use Rattle.beside_laws.specs.Stands.{RunsGoOn, RunsStand};
ghost use Rattle.beside_laws.specs.Gradings.{GradingsGoOn, GradingsEnd};
ghost use Rattle.beside_laws.specs.GoodRuns.{GoodRunGoesOn, WindowsEnd};
ghost use Rattle.beside_laws.specs.Shards.{FaultsGoOn};

/// A first run goes on slot by slot: where it stands at a time, its next slot, and its first stop.
pub fn runs_go_on()
    ensures { RunsGoOn }
{
    order_laws::first_run_goes_on();
}

/// A first run that doesn't stop up to a time stands there after one of its slots, in the state at that time, and goes on where the turn of that state leads; the
/// strobes see the values of that state. One that doesn't stop up to its end doesn't stop.
pub fn runs_stand()
    ensures { RunsStand }
{
    order_laws::first_run_goes_on();
}

/// The grading of a fault from strobe to strobe beside the good machine: how it goes on, and that it hasn't ended as long as it does.
pub fn gradings_go_on()
    ensures { GradingsGoOn }
{}

/// Where the grading of a fault ends, and with which grade: at a hard detection, at a stop of the faulty machine, at one of the good machine, or at the plan's end.
pub fn gradings_end()
    ensures { GradingsEnd }
{
    order_laws::first_run_goes_on();
}

/// The good first run by its slots: the time to which so many of them lead, the state in which it then stands, and its first stop.
pub fn good_run_goes_on()
    ensures { GoodRunGoesOn }
{
    order_laws::first_run_goes_on();
}

/// What the end of a window says of the good first run: it goes on after the window's last slot, it is through the plan's end without a stop, or it stops there
/// with a race.
pub fn windows_end()
    ensures { WindowsEnd }
{
    order_laws::first_run_goes_on();
}

/// A fault of a shard from window to window: it stays open as long as its grading goes on, with the differences at the window's end; else its finding is its grade,
/// and stays.
pub fn faults_go_on()
    ensures { FaultsGoOn }
{
    order_laws::first_run_goes_on();
}
