ghost use Rattle.std.specs.Prelude.{◌≡◌, ◌≤◌, IfSome, None, length};
ghost use Rattle.rly_reclaim.specs.SegmentChoice.{IsFree, IsVictim, NoneIsFree};

use crate::segment_choice::{free_segment, victim};

/// The segment to open next, and the segment to clean, whose live payloads move into its head.
#[derive(Clone, Copy, PartialEq, Eq)]
pub struct Choice {
    /// The segment to open, which holds no live payload byte.
    pub target: usize,
    /// The segment to clean.
    pub victim: usize,
}

/// Chooses both from the live payload bytes of each segment. Returns `None` only if each segment other than the current
/// one has live bytes.
pub fn choose(live: &[u64], current: usize) -> Option<Choice>
    requires { 2 ≤ length live.now }
    ensures target { IfSome result (λ choice. IsFree live.now current choice.target) }
    ensures victim { IfSome result (λ choice. IsVictim live.now choice.target choice.victim) }
    ensures none { result ≡ None → NoneIsFree live.now current }
{
    let target = free_segment(live, current)?;
    let victim = victim(live, target);
    Some(Choice { target, victim })
}
