ghost use Rattle.std.specs.Prelude.{◌≡◌, ◌≢◌, ◌<◌, IfSome, None, length, ℕ};
ghost use Rattle.rly_reclaim.specs.SegmentChoice.{IsFree, IsVictim, NoneIsFree};

/// Returns the segment for the next head: the first that isn't current and holds no live payload byte. `live` is the
/// number of live payload bytes of each segment.
pub fn free_segment(live: &[u64], current: usize) -> Option<usize>
    ensures found { IfSome result (λ segment. IsFree live.now current segment) }
    ensures none { result ≡ None → NoneIsFree live.now current }
{
    for segment in 0..live.len() {
        if segment != current && live[segment] == 0 {
            return Some(segment);
        }
    }
    None
}

/// Returns the segment to clean, whose live payloads move into the new head: of all but the free one the first with the
/// fewest live payload bytes. `live` is the number of live payload bytes of each segment.
pub fn victim(live: &[u64], free: usize) -> usize
    requires { (segment : ℕ) × (segment < length live.now) × (segment ≢ free) }
    ensures { IsVictim live.now free result }
{
    let mut fewest = if free == 0 { 1 } else { 0 };
    for segment in fewest + 1..live.len() {
        if segment != free && live[segment] < live[fewest] {
            fewest = segment;
        }
    }
    fewest
}
