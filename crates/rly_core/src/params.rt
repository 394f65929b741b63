ghost use Rattle.std.specs.Prelude.{◌↔◌, IsOk, IsOkUnless, IsTrue};
ghost use Rattle.rly_core.specs.Bounds.{IsIn};

use crate::limits;
use crate::refusal::Refusal;

/// The parameters of a spool. All are 64 bits wide, so that `check` sees an out-of-range value before any code narrows
/// it.
#[derive(Clone, Copy, Debug, PartialEq, Eq)]
pub struct Params {
    /// Number of next hops, 1 to 64.
    pub hops: u64,
    /// Number of upstream neighbours, 1 to 64.
    pub peers: u64,
    /// Maximum number of datagrams in flight for one hop, 1 to 64.
    pub window: u64,
    /// Maximum number of live datagrams, 1 to 16,384.
    pub items: u64,
    /// Maximum number of live payload bytes, 1 to 16,777,216.
    pub bytes: u64,
    /// CoDel drops nothing while at most this many payload bytes wait after a datagram (RFC 8289 section 5,
    /// `maxpacket`), 0 to 65,535 bytes.
    pub maxpacket: u64,
    /// The acceptable waiting time (RFC 8289 section 4.4, `TARGET`), 1 to interval microseconds.
    pub target: u64,
    /// The time over which waiting is measured (RFC 8289 section 4.3, `INTERVAL`), 1 to
    /// 3,600,000,000 microseconds.
    pub interval: u64,
    /// Maximum payload length, in bytes, 1 to 8,192.
    pub payload: u64,
}

impl Params {
    ghost use Rattle.rly_core.specs.Limits.{IsWithinLimits};

    /// The default parameters.
    pub const DEFAULT: Params = Params {
        hops: 4,
        peers: 4,
        window: 8,
        items: 1_024,
        bytes: 1_048_576,
        maxpacket: 1_500,
        target: 5_000,
        interval: 100_000,
        payload: 1_200,
    };

    /// Returns `Ok` iff each parameter is within its limits; the only error is `BadGeometry`.
    pub fn check(&self) -> Result<(), Refusal>
        ensures exactly { IsOk result ↔ IsWithinLimits self.now }
        ensures refusal { IsOkUnless result Refusal.BadGeometry }
    {
        let within = in_range(self.hops, 1, limits::MAX_HOPS)
            && in_range(self.peers, 1, limits::MAX_PEERS)
            && in_range(self.window, 1, limits::MAX_WINDOW)
            && in_range(self.items, 1, limits::MAX_ITEMS)
            && in_range(self.bytes, 1, limits::MAX_BYTES)
            && in_range(self.maxpacket, 0, limits::MAX_MAXPACKET)
            && in_range(self.interval, 1, limits::MAX_INTERVAL)
            && in_range(self.target, 1, self.interval)
            && in_range(self.payload, 1, limits::MAX_PAYLOAD);
        if within {
            Ok(())
        } else {
            Err(Refusal::BadGeometry)
        }
    }
}

impl Default for Params {
    ghost use Rattle.std.specs.Prelude.{◌≡◌};
    ghost use Rattle.rly_core.specs.Limits.{default_params};

    ghost is_default = { λ p. p ≡ default_params };

    fn default() -> Params {
        Params::DEFAULT
    }
}

/// Returns true iff `least <= value <= greatest`.
fn in_range(value: u64, least: u64, greatest: u64) -> bool
    ensures { IsTrue result ↔ IsIn least greatest value }
{
    least <= value && value <= greatest
}

/// The layout of a device: the parameters of its spool, and its segments.
#[derive(Clone, Copy, PartialEq, Eq)]
pub struct Geometry {
    /// The parameters of the spool.
    pub params: Params,
    /// Number of segments of the device, 2 to 256.
    pub segments: u64,
    /// The length of each segment, in bytes, below 2^31.
    pub length: u64,
}
