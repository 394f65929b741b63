ghost use Rattle.std.specs.Prelude.{◌≡◌, ◌<◌, ◌^◌, length, map, sum_by};
ghost use Rattle.rly_machine.specs.Kept.{hop_state};
ghost use Rattle.rly_machine.specs.State.{bytes_of, live_line};

use crate::content::Content;
use crate::hop::Hop;

/// The datagrams of hops, in flight and waiting.
#[derive(Clone, Copy, PartialEq, Eq)]
pub(crate) struct Live {
    /// Number of datagrams.
    pub(crate) items: u64,
    /// Their number of payload bytes.
    pub(crate) bytes: u64,
}

impl Live {
    /// Counts those of hops.
    pub(crate) fn of<C: Content>(hops: &[Hop<C>]) -> Live
        requires items { sum_by (λ h. length (live_line h)) (map hop_state hops.now) < 2 ^ 64 }
        requires bytes { sum_by (λ h. bytes_of C.length_of (live_line h)) (map hop_state hops.now) < 2 ^ 64 }
        ensures items { result.items ≡ sum_by (λ h. length (live_line h)) (map hop_state hops.now) }
        ensures bytes { result.bytes ≡ sum_by (λ h. bytes_of C.length_of (live_line h)) (map hop_state hops.now) }
    {
        let mut items = 0;
        let mut bytes = 0;
        for hop in hops {
            items += hop.live_items();
            bytes += hop.live_bytes();
        }
        Live { items, bytes }
    }
}
