ghost use Rattle.std.specs.Prelude.{◌≡◌};
ghost use Rattle.rly_hop_pacing.specs.Moments.{moment_after, sooner};

/// The moment at which a wait since a moment will have passed, if it hasn't passed yet. In microseconds.
pub(crate) fn moment_after(since: u64, wait: u64, at: u64) -> Option<u64>
    ensures { result ≡ moment_after since wait at }
{
    if wait <= at.saturating_sub(since) {
        None
    } else {
        Some(since.saturating_add(wait))
    }
}

/// The earlier of two moments, if there is one.
pub(crate) fn sooner(moment: Option<u64>, other: Option<u64>) -> Option<u64>
    ensures { result ≡ sooner moment other }
{
    match (moment, other) {
        (Some(moment), Some(other)) => Some(moment.min(other)),
        (None, other) => other,
        (moment, None) => moment,
    }
}
