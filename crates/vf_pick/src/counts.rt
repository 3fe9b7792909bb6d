// How many of each fault's hard strobes stand.

ghost use Rattle.std.specs.Prelude.{◌≡◌, ℕ, ◌+◌, ◌<◌, ◌≤◌, ◌↔◌, All, IfOk, IsTrue, count_by, find, get_or, length, map, nat_eq};
ghost use Rattle.strobe_detect.specs.declared.hard.Hard.{Hard};

use std::alloc::Global;
use strobe_detect::Hard;
use vf_base::NoMemory;

/// How many hard strobes each fault has.
pub(crate) fn count_strobes(alloc: Global, hard: &[Hard]) -> Result<Vec<usize>, NoMemory>
    ensures { IfOk result (λ counts. counts.items ≡ map (λ (one : Hard). length one.times) hard.now) }
{
    let mut counts = Vec::new(alloc);
    'faults: for one in hard {
        counts.push(one.times.as_slice().len())?;
    }
    Ok(counts)
}

/// Whether each of some faults has two strobes.
pub(crate) fn all_have_two(counts: &[usize], faults: &[u32]) -> bool
    requires { All (λ fault. fault < length counts.now) faults.now }
    ensures { IsTrue result ↔ All (λ fault. 2 ≤ get_or counts.now fault 0) faults.now }
{
    faults.iter().all(|fault| counts[*fault as usize] >= 2)
}

/// Takes one strobe from each of some faults.
pub(crate) fn take_one(counts: &mut Vec<usize>, faults: &[u32])
    requires within { All (λ fault. fault < length counts.old.items) faults.now }

    // A fault that comes again needs one more.
    requires enough { (fault : ℕ) → fault < length counts.old.items → count_by (nat_eq fault) faults.now ≤ get_or counts.old.items fault 0 }

    ensures same { length counts.new.items ≡ length counts.old.items }
    ensures taken { (fault : ℕ) → fault < length counts.old.items → get_or counts.new.items fault 0 + count_by (nat_eq fault) faults.now ≡ get_or counts.old.items fault 0 }
{
    'faults: for fault in faults {
        counts[*fault as usize] -= 1;
    }
}

/// The first of some faults that has one strobe alone.
pub(crate) fn first_with_one(counts: &[usize], faults: &[u32]) -> Option<u32>
    requires { All (λ fault. fault < length counts.now) faults.now }
    ensures { result ≡ find (λ fault. nat_eq (get_or counts.now fault 0) 1) faults.now }
{
    faults
        .iter()
        .copied()
        .find(|fault| counts[*fault as usize] == 1)
}
