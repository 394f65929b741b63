ghost use Rattle.std.specs.Prelude.{◌≡◌, ◌↔◌, ◌+◌, ◌<◌, ◌^◌, IsTrue};
ghost use Rattle.rly_core.specs.Bounds.{IsIn};
ghost use Rattle.rly_core.specs.Limits.{IsWithinLimits};
ghost use Rattle.rly_reclaim.specs.Room.{Fits, IsDue, group_room, least_length};

use rly_core::Geometry;

/// The bytes of a Take's record before its payload.
const TAKE_BYTES: u64 = 23;

/// The bytes of a head besides its peers, hops and items: its gate, generation and length, and the number of accepted
/// commands.
const HEAD_BYTES: u64 = 21;

/// The bytes of a peer in a head.
const PEER_BYTES: u64 = 8;

/// The bytes of a hop in a head without its items, in form 1, which is the longer one.
const HOP_BYTES: u64 = 71;

/// The bytes of an item in a head whose payload lies in another segment, also in form 1.
const ITEM_BYTES: u64 = 27;

/// Returns the bytes of the largest group with payloads of at most `payload` bytes: 64 Takes of that length with the
/// group's gate, and one gate more.
pub fn group_room(payload: u64) -> u64
    requires { group_room payload < 2 ^ 64 }
    ensures { result ≡ group_room payload }
{
    64 * (TAKE_BYTES + payload) + 8
}

/// Returns the minimum length of the segments of a device, in bytes.
pub fn least_length(geometry: &Geometry) -> u64
    requires params { IsWithinLimits geometry.now.params }
    requires segments { IsIn 2 256 geometry.now.segments }
    ensures { result ≡ least_length geometry.now }
{
    let params = &geometry.params;
    HEAD_BYTES
        + PEER_BYTES * params.peers
        + HOP_BYTES * params.hops
        + ITEM_BYTES * params.items
        + params.bytes / (geometry.segments - 1)
        + group_room(params.payload)
}

/// Returns true iff the segments are long enough for every head, with the largest group after it.
pub fn fits(geometry: &Geometry) -> bool
    requires params { IsWithinLimits geometry.now.params }
    requires segments { IsIn 2 256 geometry.now.segments }
    ensures { IsTrue result ↔ Fits geometry.now }
{
    least_length(geometry) <= geometry.length
}

/// Returns true iff the largest group doesn't fit after the first `offset` bytes of a segment.
pub fn is_due(geometry: &Geometry, offset: u64) -> bool
    requires { offset + group_room geometry.now.params.payload < 2 ^ 64 }
    ensures { IsTrue result ↔ IsDue geometry.now offset }
{
    geometry.length < offset + group_room(geometry.params.payload)
}
