// The words of faults that were graded.

ghost use Rattle.std.specs.Prelude.{◌≡◌, length};
ghost use Rattle.std.specs.List.{All};
ghost use Rattle.vf_base.specs.Base.{fault_number};
ghost use Rattle.fault_shards.specs.Found.{IsFinding, found_faults};
ghost use Rattle.v_design.specs.WellFormed.{KeepsRules, IsPlan};
ghost use Rattle.verdict_words.specs.Seats.{view, IsSeatOf, faults_of};
ghost use Rattle.verdict_settle.specs.Settling.{KeepsClaims, IsSettled, AreSettled};

use v_design::World;
use verdict_words::{Board, Seat, verdict_code};
use vf_base::Finding;

/// Moves the word of a fault that was graded, where no other call did.
fn settle_word<N: World>(board: &Board<N>, seat: Seat<N>, finding: Finding) -> Seat<N>
    requires rules { KeepsRules N.design × IsPlan N.plan }
    requires faults { faults_of board.now ≡ length N.plan.faults }
    requires own { IsSeatOf board.now seat }
    requires graded { IsFinding N.design N.plan finding }
    ensures own { IsSeatOf board.now result }
    ensures settled { IsSettled (fault_number finding.fault) (view seat) (view result) }
{
    order_laws::first_run_goes_on();
    let (seat, _) = board.settle(seat, finding.fault, verdict_code(finding.end));
    seat
}

/// Moves the words of faults that were graded, each where no other call did. It takes no memory.
pub fn settle_findings<N: World>(board: &Board<N>, seat: Seat<N>, findings: &[Finding]) -> Seat<N>
    requires rules { KeepsRules N.design × IsPlan N.plan }
    requires faults { faults_of board.now ≡ length N.plan.faults }
    requires own { IsSeatOf board.now seat }
    requires graded { All (IsFinding N.design N.plan) findings.now }
    ensures own { IsSeatOf board.now result }
    ensures claims { KeepsClaims (view seat) (view result) }
    ensures settled { AreSettled (found_faults findings.now) (view seat) (view result) }
{
    let mut seat = seat;
    'findings: for finding in findings {
        seat = settle_word(board, seat, *finding);
    }
    seat
}
