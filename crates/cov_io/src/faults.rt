ghost use Rattle.std.specs.Prelude.{◌≡◌, ◌≤◌};
ghost use Rattle.cov_io.specs.Count.{Rose, one_more};

// A count after one more fault; it stays at its last value.
pub(crate) fn raised(count: u64) -> u64
    ensures count { result ≡ one_more count }
    ensures rose { Rose count result }
    ensures later { count ≤ result }
{
    count.saturating_add(1)
}
