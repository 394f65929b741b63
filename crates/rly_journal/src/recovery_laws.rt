//! Laws of the recovery relation: functions with an empty body whose contract is the law. The
//! contracts of `rly_journal` cite the same definitions.

ghost use Rattle.std.specs.Prelude.{◌≡◌, ◌+◌, ◌<◌, ℕ, List};
ghost use Rattle.rly_core.specs.declared.params.Geometry.{Geometry as AGeometry};
ghost use Rattle.rly_machine.specs.Map.{map_state};
ghost use Rattle.rly_machine.specs.State.{State, new_state};
ghost use Rattle.rly_segment_checkpoint.specs.Stored.{stored_form, stored_length};
ghost use Rattle.rly_segment_checkpoint.specs.Stored.{state_in as state_over};
ghost use Rattle.rly_segment_checkpoint.specs.declared.head_form.HeadForm.{HeadForm};
ghost use Rattle.rly_segment_checkpoint.specs.declared.stored.Stored.{Stored};
ghost use Rattle.rly_segment_checkpoint.specs.declared.stored.Stored.TheVariants.{Inline};
ghost use Rattle.rly_segment.specs.Formatted.{IsFormatted};
ghost use Rattle.rly_segment.specs.Heads.{HoldsHead, IsOpeningOf};
ghost use Rattle.rly_journal.specs.UntouchedBytes.{IsHeadFor, IsUntouched};
ghost use Rattle.rly_segment.specs.PlacedHeads.{HoldsPlaced};
ghost use Rattle.rly_journal.specs.Recovery.{IsRecovery, Recovery, Stands, state_in};

/// No image recovers to two states.
pub fn law_stands_for_one()
    ensures { (image : List ℕ) (a b : State (List ℕ)) → Stands image a → Stands image b → a ≡ b }
{}

/// A formatted device recovers to the empty state.
pub fn law_formatted_stands()
    ensures { (g : AGeometry) (image : List ℕ) → IsFormatted g image → Stands image (new_state g.params) }
{}

/// On a device of two segments a head, of either form, has no payload by device address: its state has every payload
/// inline, and is the state that it recovers to.
pub fn law_inline_head()
    ensures inline { (which : HeadForm) (image : List ℕ) (g : AGeometry) (segment generation : ℕ) (s : State (List ℕ))
        → g.segments ≡ 2
        → segment < g.segments → HoldsHead which image g segment generation s
        → HoldsPlaced which image g segment generation (map_state Inline s) }
    ensures only { (which : HeadForm) (image : List ℕ) (g : AGeometry) (segment generation : ℕ) (s : State Stored)
        → g.segments ≡ 2
        → segment < g.segments → HoldsPlaced which image g segment generation s
        → (map_state Inline (state_over image s) ≡ s)
        × HoldsHead which image g segment generation (state_over image s) }
{}

/// If the bytes that decide the recovered state are unchanged, an image recovers to the same state: bytes of payloads
/// that are no longer live may be anything.
pub fn law_frame()
    ensures { (old new : List ℕ) (x : Recovery) → IsRecovery old x → IsUntouched x old new → Stands new (state_in x) }
{}

/// An image that a crash within the opening of a segment may leave recovers to the same state as before, whatever
/// device addresses the new head has, if no live payload lay in the segment.
pub fn law_opened()
    ensures { (old image : List ℕ) (x : Recovery) (segment : ℕ) (s : State Stored) → IsRecovery old x
        → IsHeadFor old x segment s
        → IsOpeningOf stored_length stored_form x.geometry segment (x.generation + 1) s old image
        → Stands image (state_in x) }
{}
