// The shards, and the way back to all listed faults.

ghost use Rattle.std.specs.Prelude.{ℕ, ◌<◌, ◌≤◌, length, map, slice_index};
ghost use Rattle.vf_base.specs.Base.{fault_number};

use fault_list::one_class;
use std::alloc::Global;
use vf_base::{End, FaultId, Finding, NoMemory};

/// The first listed faults of their classes, in list order, cut into shards of 32, and of each listed fault which one stands for it.
#[derive(Drop)]
pub struct Shards {
    pub(crate) representatives: Vec<FaultId>,
    pub(crate) standing: Vec<FaultId>,
    ghost few: { length representatives.items ≤ 4294967295 },
    ghost numbered: { length standing.items ≤ 4294967295 },
    ghost within: { (k : ℕ) → k < length standing.items → slice_index (map fault_number standing.items) k < length standing.items },
}

impl Shards {
    ghost use Rattle.std.specs.Prelude.{◌≡◌, IfOk};
    ghost use Rattle.std.specs.List.{All};
    ghost use Rattle.vf_base.specs.declared.finding.Finding.{Finding};
    ghost use Rattle.v_design.specs.Designs.{FlatDesign, TestPlan};
    ghost use Rattle.v_design.specs.WellFormed.{KeepsRules};
    ghost use Rattle.order_laws.specs.Reports.{AreGrades};
    ghost use Rattle.v_design.specs.Findings.{grades_of, AreInOrder};
    ghost use Rattle.fault_shards.specs.Cuts.{shard, shard_count};
    ghost use Rattle.fault_shards.specs.Shards.{representatives_of, standing_of, fault_count, AreShardsOf};
    ghost use Rattle.fault_shards.specs.Found.{AreFound, HasEnds};

    /// How many shards there are.
    pub fn count(&self) -> u32
        ensures { result ≡ shard_count (length (representatives_of self.now)) }
    {
        ((self.representatives.len() + 31) / 32) as u32
    }

    /// The faults of a shard; shards are numbered from 0.
    pub fn shard(&self, number: u32) -> &[FaultId]
        requires { number < shard_count (length (representatives_of self.now)) }
        ensures { map fault_number result.now ≡ shard number (representatives_of self.now) }
    {
        let faults = self.representatives.as_slice();
        let start = 32 * number as usize;
        let end = faults.len().min(start + 32);
        &faults[start..end]
    }

    /// The fault that stands for a listed one.
    pub fn representative(&self, fault: FaultId) -> FaultId
        requires { fault_number fault < fault_count self.now }
        ensures { fault_number result ≡ slice_index (standing_of self.now) (fault_number fault) }
    {
        self.standing[fault.0 as usize]
    }

    /// How a grading ended for each fault that was found, by the fault's number.
    fn ends_found(&self, alloc: Global, found: &[Finding]) -> Result<Vec<End>, NoMemory>
        requires listed { All (λ (finding : Finding). fault_number finding.fault < fault_count self.now) found.now }
        ensures { IfOk result (λ ends. HasEnds (fault_count self.now) found.now ends.items) }
    {
        let mut ends = vec![in alloc; End::Undetected; self.standing.len()]?;
        'found: for finding in found {
            ends[finding.fault.0 as usize] = finding.end;
        }
        Ok(ends)
    }

    /// The finding on each listed fault, in list order, from those on the representatives, which may stand in any order and more than once.
    ///
    /// # Errors
    ///
    /// Want of memory.
    pub fn in_list_order(&self, alloc: Global, found: &[Finding]) -> Result<Vec<Finding>, NoMemory>
        requires listed { All (λ (finding : Finding). fault_number finding.fault < fault_count self.now) found.now }
        ensures order { IfOk result (λ findings. AreInOrder (fault_count self.now) findings.items) }
        ensures grades { IfOk result (λ findings. (design : FlatDesign) (plan : TestPlan) → KeepsRules design → AreShardsOf design plan.faults self.now →
            AreFound design plan found.now → AreGrades design plan (grades_of findings.items)) }
    {
        one_class();
        let ends = self.ends_found(alloc, found)?;
        let standing = self.standing.as_slice();
        let mut findings = Vec::new(alloc);
        'faults: for (number, first) in standing.iter().enumerate() {
            findings.push(Finding {
                fault: FaultId(number as u32),
                end: ends[first.0 as usize],
            })?;
        }
        Ok(findings)
    }
}
