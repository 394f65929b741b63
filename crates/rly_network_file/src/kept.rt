//! Whether ids keep their meaning.

ghost use Rattle.std.specs.Prelude.{◌≡◌};
ghost use Rattle.rly_network_file.specs.Ids.{begins, is_kept, keeps};

use crate::ids::StationIds;

/// Whether each id of each station that there was before means the same after.
pub(crate) fn keeps(before: &[StationIds], after: &[StationIds]) -> bool
    ensures { result ≡ keeps before.now after.now }
{
    for ids in before {
        if !is_kept(after, ids) {
            return false;
        }
    }
    true
}

pub(crate) fn is_kept(after: &[StationIds], before: &StationIds) -> bool
    ensures { result ≡ is_kept after.now before.now }
{
    for ids in after {
        if begins(ids, before) {
            return true;
        }
    }
    false
}

/// Whether a station's ids begin with those that it had before.
fn begins(after: &StationIds, before: &StationIds) -> bool
    ensures { result ≡ begins after.now before.now }
{
    after.number == before.number
        && after.peers.starts_with(&before.peers)
        && after.hops.starts_with(&before.hops)
}
