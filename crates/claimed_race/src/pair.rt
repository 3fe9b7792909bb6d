// The first pair of places whose accesses conflict.

ghost use Rattle.std.specs.Prelude.{◌≡◌, ◌<◌, length, find};
ghost use Rattle.std.specs.Option.{ForSome};
ghost use Rattle.vf_base.specs.Lists.{AllHold};
ghost use Rattle.causal_monitor.specs.Index.{accesses_in, IsIndexOf};
ghost use Rattle.claimed_race.specs.Places.{is_second, pair_of_places};

use causal_monitor::{CheckIndex, PhaseLog};

/// The first of some places that is behind another and whose access conflicts with the one there.
fn second_of(log: &PhaseLog, index: &CheckIndex, first: usize, seconds: &[usize]) -> Option<usize>
    requires indexed { IsIndexOf log.now.log index.now }
    requires first { first < length (accesses_in index.now) }
    requires seconds { AllHold (λ place. place < length (accesses_in index.now)) seconds.now }
    ensures found { result ≡ find (is_second log.now.log (accesses_in index.now) first) seconds.now }
    ensures within { ForSome result (λ second. second < length (accesses_in index.now)) }
{
    'seconds: for second in seconds {
        if first < *second && index.conflicts(log, first, *second) {
            return Some(*second);
        }
    }
    None
}

/// The first of some places with the first of others behind it, whose accesses conflict.
pub(crate) fn pair_of(
    log: &PhaseLog,
    index: &CheckIndex,
    firsts: &[usize],
    seconds: &[usize],
) -> Option<(usize, usize)>
    requires indexed { IsIndexOf log.now.log index.now }
    requires firsts { AllHold (λ place. place < length (accesses_in index.now)) firsts.now }
    requires seconds { AllHold (λ place. place < length (accesses_in index.now)) seconds.now }
    ensures found { result ≡ pair_of_places log.now.log (accesses_in index.now) seconds.now firsts.now }
    ensures earlier { ForSome result (λ places. places.0 < length (accesses_in index.now)) }
    ensures later { ForSome result (λ places. places.1 < length (accesses_in index.now)) }
{
    'firsts: for first in firsts {
        match second_of(log, index, *first, seconds) {
            Some(second) => return Some((*first, second)),
            None => {}
        }
    }
    None
}
