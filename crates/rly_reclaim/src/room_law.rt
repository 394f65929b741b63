ghost use Rattle.std.specs.Prelude.{◌≡◌, ◌≤◌, List, length, sum, ℕ};
ghost use Rattle.rly_core.specs.Bounds.{IsIn};
ghost use Rattle.rly_core.specs.declared.params.Geometry.{Geometry};
ghost use Rattle.rly_reclaim.specs.SegmentChoice.{HasHeadRoom, IsFree, IsVictim};
ghost use Rattle.rly_reclaim.specs.Room.{Fits};

/// If segments are long enough and the live payload bytes are within the limit, the victim has few of them, the new
/// head has room with the largest group after it, and the victim is free for the next opening. So a free segment always
/// exists.
pub fn law_room()
    ensures { (g : Geometry) (live : List ℕ) (current free victim : ℕ) → IsIn 2 256 g.segments → Fits g
        → length live ≡ g.segments → sum live ≤ g.params.bytes → IsFree live current free → IsVictim live free victim
        → HasHeadRoom g live free victim }
{}
