//! The effect of a crash on the calls that open a segment, and the uniqueness of a head's state,
//! as laws: functions with an empty body.

ghost use Rattle.std.specs.Prelude.{◌≡◌, ◌↔◌, ◌<◌, ◌∷◌, ◌++◌, [], Bool, IsTrue, List, length, ℕ};
ghost use Rattle.rly_core.specs.declared.params.Geometry.{Geometry as AGeometry};
ghost use Rattle.rly_disk.specs.DiskModel.{LeavesOnly, Settled};
ghost use Rattle.rly_disk.specs.Trace.{Makes};
ghost use Rattle.rly_gate.specs.Group.{IsClosed};
ghost use Rattle.rly_machine.specs.State.{State};
ghost use Rattle.rly_segment.specs.Calls.{replace_calls};
ghost use Rattle.rly_segment.specs.Device.{IsLayout};
ghost use Rattle.rly_segment.specs.Heads.{HoldsHeadOf, IsHeadOf, IsOpeningOf, head_spelled, segment_place};
ghost use Rattle.rly_segment.specs.PlacedHeads.{HeadStandsFor};
ghost use Rattle.rly_segment.specs.HeadAddresses.{state_in_head};
ghost use Rattle.rly_segment_checkpoint.specs.Checkpoint.{spelled_by};
ghost use Rattle.rly_segment_checkpoint.specs.Stored.{state_in, stored_length, stored_spelled};
ghost use Rattle.rly_segment_checkpoint.specs.declared.head_form.HeadForm.{HeadForm as AForm};
ghost use Rattle.rly_segment_checkpoint.specs.declared.head_form.HeadForm.TheVariants.{Second};
ghost use Rattle.rly_segment_checkpoint.specs.declared.stored.Stored.{Stored as AStored};
ghost use Rattle.rly_machine.specs.Sound.{IsSound};
ghost use Rattle.rly_reclaim.specs.LiveRoom.{inline_bytes};

use rly_disk::Disk;
use rly_segment_checkpoint::{Form, Stored, law_one_spelling};

/// A crash at any moment of the opening of a segment leaves the whole head, or none that is newer than the previous
/// one, and all bytes outside the segment unchanged. The gate is closed first if it is open.
pub fn law_opening<D: Disk, C: Form>(old: &D, new: &D)
    ensures { (g : AGeometry) (segment generation : ℕ) (s : State C) (closed whole : Bool)
        → IsLayout g (D.state old.now).size → segment < g.segments
        → IsHeadOf C.length_of (spelled_by C.form Second) g segment generation s
        → (IsTrue closed ↔ IsClosed (D.state old.now).seen (segment_place g segment)) → Settled (D.state old.now)
        → Makes D.state
        (replace_calls (segment_place g segment) closed
        (head_spelled C.length_of (spelled_by C.form Second) generation s ++ 0 ∷ []))
        whole old.now new.now
        → LeavesOnly (D.state old.now) (D.state new.now)
        (IsOpeningOf C.length_of (spelled_by C.form Second) g segment generation s (D.state old.now).seen) }
{}

/// The head of a segment recovers to at most one state, with one generation, whichever payloads are by device address.
pub fn law_one_head()
    ensures { (image : List ℕ) (g : AGeometry) (segment n m : ℕ) (a b : State (List ℕ)) → IsLayout g (length image)
        → HeadStandsFor image g segment n a → HeadStandsFor image g segment m b → (n ≡ m) × (a ≡ b) }
{
    law_one_spelling::<Stored>();
}

/// After a head was written, its inline payloads lie in it: the state with their device addresses is sound, has no
/// inline bytes, and recovers to the same state over every image that contains the head.
pub fn law_head_addresses()
    ensures same { (which : AForm) (image : List ℕ) (g : AGeometry) (segment generation : ℕ) (s : State AStored)
        → HoldsHeadOf stored_length (stored_spelled which) image g segment generation s
        → state_in image (state_in_head which g segment s) ≡ state_in image s }
    ensures sound { (which : AForm) (g : AGeometry) (segment : ℕ) (s : State AStored) → IsSound stored_length s
        → IsSound stored_length (state_in_head which g segment s) }
    ensures inline { (which : AForm) (g : AGeometry) (segment : ℕ) (s : State AStored)
        → inline_bytes (state_in_head which g segment s) ≡ 0 }
{}
