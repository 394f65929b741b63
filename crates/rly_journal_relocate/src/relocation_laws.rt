//! Laws of relocation: functions with an empty body whose contract is the law.

ghost use Rattle.std.specs.Prelude.{◌≡◌, ◌≢◌, ◌<◌, ℕ, All};
ghost use Rattle.rly_segment_checkpoint.specs.Stored.{stored_length};
ghost use Rattle.rly_segment_checkpoint.specs.declared.stored.Stored.{Stored};
ghost use Rattle.rly_core.specs.Bounds.{IsIn};
ghost use Rattle.rly_core.specs.declared.params.Geometry.{Geometry};
ghost use Rattle.rly_machine.specs.Map.{payloads_of};
ghost use Rattle.rly_machine.specs.Sound.{IsSound};
ghost use Rattle.rly_machine.specs.State.{State};
ghost use Rattle.rly_reclaim.specs.Places.{live_by_segment, live_in};
ghost use Rattle.rly_reclaim.specs.LiveRoom.{inline_bytes};
ghost use Rattle.rly_reclaim.specs.SegmentChoice.{IsFree, IsVictim, MayOpen};
ghost use Rattle.rly_reclaim.specs.Room.{Fits};
ghost use Rattle.rly_journal_relocate.specs.Relocation.{LiesThere, MayMove, relocated_state};

/// If segments are long enough, the payloads of the victim may move into the head of the free segment.
pub fn law_may_relocate()
    ensures { (g : Geometry) (current target victim : ℕ) (s : State Stored) → IsIn 2 256 g.segments → Fits g
        → IsSound stored_length s
        → s.params ≡ g.params → IsFree (live_by_segment g s) current target
        → IsVictim (live_by_segment g s) target victim
        → inline_bytes s ≡ 0 → All (LiesThere g) (payloads_of s) → MayMove g target victim s }
{}

/// After the relocation the spool is sound, no byte is inline, and each payload lies in a segment. The target has the
/// victim's former live bytes, the victim has none and may be opened next, and the other segments' are unchanged.
pub fn law_relocated()
    ensures sound { (g : Geometry) (target victim : ℕ) (s : State Stored) → IsSound stored_length s
        → IsSound stored_length (relocated_state g target victim s) }
    ensures inline { (g : Geometry) (target victim : ℕ) (s : State Stored)
        → inline_bytes (relocated_state g target victim s) ≡ 0 }
    ensures there { (g : Geometry) (target victim : ℕ) (s : State Stored) → MayMove g target victim s
        → All (LiesThere g) (payloads_of (relocated_state g target victim s)) }
    ensures target { (g : Geometry) (target victim : ℕ) (s : State Stored) → MayMove g target victim s
        → live_in g target (relocated_state g target victim s) ≡ live_in g victim s }
    ensures victim { (g : Geometry) (target victim : ℕ) (s : State Stored) → MayMove g target victim s
        → live_in g victim (relocated_state g target victim s) ≡ 0 }
    ensures others { (g : Geometry) (target victim : ℕ) (s : State Stored) (segment : ℕ) → MayMove g target victim s
        → segment ≢ target → segment ≢ victim
        → live_in g segment (relocated_state g target victim s) ≡ live_in g segment s }
    ensures free { (g : Geometry) (target victim : ℕ) (s : State Stored) → MayMove g target victim s
        → victim < g.segments
        → MayOpen (live_by_segment g (relocated_state g target victim s)) target victim }
{}
