ghost use Rattle.std.specs.Prelude.{◌≡◌};
ghost use Rattle.pr_outside.specs.Counts as counts;

/// The count after one more; it stands still at 2^64 - 1.
pub fn one_more(count: u64) -> u64
    ensures { result ≡ counts.one_more count }
{
    count.saturating_add(1)
}
