ghost use Rattle.std.specs.Prelude.{◌≡◌};
ghost use Rattle.ga_counters.specs.Counts as counts;

/// Whether the call after this many calls is listed to fail.
pub fn is_due(listed: &[u64], calls: u64) -> bool
    ensures { result ≡ counts.is_due listed.now calls }
{
    listed.contains(&calls.saturating_add(1))
}
