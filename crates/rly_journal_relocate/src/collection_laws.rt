//! A law of the copy for any bytes that were read: a function with an empty body.

ghost use Rattle.std.specs.Prelude.{◌≡◌, ℕ, All, length};
ghost use Rattle.rly_core.specs.declared.params.Geometry.{Geometry};
ghost use Rattle.rly_machine.specs.Sound.{IsSound};
ghost use Rattle.rly_machine.specs.State.{State};
ghost use Rattle.rly_segment_checkpoint.specs.Checkpoint.{state_spelled};
ghost use Rattle.rly_segment_checkpoint.specs.Forms.{HaveForms};
ghost use Rattle.rly_segment_checkpoint.specs.Stored.{IsStorable, stored_form, stored_length};
ghost use Rattle.rly_segment_checkpoint.specs.declared.head_form.HeadForm.{HeadForm};
ghost use Rattle.rly_segment_checkpoint.specs.declared.head_form.HeadForm.TheVariants.{Second};
ghost use Rattle.rly_segment_checkpoint.specs.declared.stored.Stored.{Stored};
ghost use Rattle.rly_reclaim.specs.Places.{live_in};
ghost use Rattle.rly_reclaim.specs.LiveRoom.{collected_state, inline_bytes};
ghost use Rattle.rly_segment.specs.HeadAddresses.{state_in_head};
ghost use Rattle.rly_journal_relocate.specs.Relocation.{relocated_state, zeros_at};
ghost use Rattle.rly_journal_relocate.specs.Collection.{IsSameButForBytes};

/// If two spools are the same except for inline bytes: if one is sound, so is the other; their heads have the same
/// length; if the addresses of one fit their fields in a head, so do those of the other; both have as many bytes inline
/// and in each segment; and after their heads were written their payloads have the same device addresses. So after a
/// head with a copy of `collect_victim` was written, its payloads have the addresses of `rly_journal_relocate`,
/// whatever the device returned.
pub fn law_but_for_bytes()
    ensures sound { (s t : State Stored) → IsSameButForBytes s t → IsSound stored_length s → IsSound stored_length t }
    ensures spelled { (s t : State Stored) → IsSameButForBytes s t
        → length (state_spelled stored_length stored_form s) ≡ length (state_spelled stored_length stored_form t) }
    ensures fits { (which : HeadForm) (s t : State Stored) → IsSameButForBytes s t
        → All (HaveForms (IsStorable which)) s.hops
        → All (HaveForms (IsStorable which)) t.hops }
    ensures inline { (s t : State Stored) → IsSameButForBytes s t → inline_bytes s ≡ inline_bytes t }
    ensures live { (g : Geometry) (segment : ℕ) (s t : State Stored) → IsSameButForBytes s t
        → live_in g segment s ≡ live_in g segment t }
    ensures settled { (g : Geometry) (segment : ℕ) (s t : State Stored) → IsSameButForBytes s t
        → state_in_head Second g segment s ≡ state_in_head Second g segment t }
    ensures moved { (g : Geometry) (target victim : ℕ) (s copy : State Stored)
        → IsSameButForBytes copy (collected_state g victim zeros_at s)
        → state_in_head Second g target copy ≡ relocated_state g target victim s }
{}
