ghost use Rattle.std.specs.Prelude.{◌≡◌, ◌≤◌};
ghost use Rattle.rly_reclaim.specs.Places.{segment_of};

use rly_core::Geometry;

/// The device offset of the first segment.
pub(crate) const FIRST_SEGMENT: u64 = 64;

/// Returns the segment that a device offset lies in.
pub fn segment_of(geometry: &Geometry, start: u64) -> u64
    requires { 1 ≤ geometry.now.length }
    ensures { result ≡ segment_of geometry.now start }
{
    start.saturating_sub(FIRST_SEGMENT) / geometry.length
}
