//! The live bytes of each segment after a head's payloads got their addresses: a law, a function
//! with an empty body.

ghost use Rattle.std.specs.Prelude.{◌≡◌, ◌≢◌, ◌+◌, ◌≤◌, ℕ};
ghost use Rattle.rly_core.specs.declared.params.Geometry.{Geometry};
ghost use Rattle.rly_machine.specs.State.{State};
ghost use Rattle.rly_segment_checkpoint.specs.Stored.{stored_length, stored_spelled};
ghost use Rattle.rly_segment_checkpoint.specs.declared.head_form.HeadForm.{HeadForm};
ghost use Rattle.rly_segment_checkpoint.specs.declared.stored.Stored.{Stored};
ghost use Rattle.rly_reclaim.specs.Places.{live_in};
ghost use Rattle.rly_reclaim.specs.LiveRoom.{inline_bytes};
ghost use Rattle.rly_segment.specs.Heads.{gate_after, segment_end};
ghost use Rattle.rly_segment.specs.HeadAddresses.{state_in_head};

/// For a head of either form: its own segment gains the inline bytes, and every other segment is unchanged.
pub fn law_relocated_live()
    ensures own { (which : HeadForm) (g : Geometry) (segment : ℕ) (s : State Stored)
        → gate_after stored_length (stored_spelled which) g segment s ≤ segment_end g segment
        → live_in g segment (state_in_head which g segment s) ≡ live_in g segment s + inline_bytes s }
    ensures others { (which : HeadForm) (g : Geometry) (segment other : ℕ) (s : State Stored)
        → gate_after stored_length (stored_spelled which) g segment s ≤ segment_end g segment
        → other ≢ segment → live_in g other (state_in_head which g segment s) ≡ live_in g other s }
{}
