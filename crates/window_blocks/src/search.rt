// The binary search.

ghost use Rattle.std.specs.Prelude.{◌≡◌, ℕ, ◌<◌, ◌≤◌, length, slice_index};
ghost use Rattle.std.specs.List.Sorted.{IsNonDecreasing};

/// How many of some ascending moments don't come behind a moment, by binary search.
pub(crate) fn count_through(moments: &[u32], moment: u32) -> usize
    requires { IsNonDecreasing moments.now }
    ensures within { result ≤ length moments.now }
    ensures before { (place : ℕ) → place < result → slice_index moments.now place ≤ moment }
    ensures behind { (place : ℕ) → result ≤ place → place < length moments.now → moment < slice_index moments.now place }
{
    moments.partition_point(|other| *other <= moment)
}
