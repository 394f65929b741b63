//! Laws of checkpoints: functions with an empty body whose contract is the law.

ghost use Rattle.std.specs.Prelude.{◌≡◌, ◌+◌, ◌*◌, ℕ, All, List, length};
ghost use Rattle.rly_machine.specs.Map.{map_state};
ghost use Rattle.rly_machine.specs.Sound.{IsSound};
ghost use Rattle.rly_machine.specs.State.{State, live_bytes, live_items};
ghost use Rattle.rly_segment_checkpoint.specs.Checkpoint.{IsOfForm, checkpoint_of, spelled_by, state_spelled};
ghost use Rattle.rly_segment_checkpoint.specs.Forms.{HaveForms};
ghost use Rattle.rly_segment_checkpoint.specs.Stored.{state_in, stored_form, stored_length};

use crate::form::Form;
use crate::head_form::HeadForm;
use crate::stored::Stored;

/// No two sound states with the same parameters have the same checkpoint.
pub fn law_one_state()
    ensures { (a b : State (List ℕ)) → IsSound length a → IsSound length b → a.params ≡ b.params
        → checkpoint_of a ≡ checkpoint_of b → a ≡ b }
{}

/// The length of a sound state's checkpoint.
pub fn law_length()
    ensures { (s : State (List ℕ)) → IsSound length s
        → length (checkpoint_of s)
        ≡ 8 + 8 * s.params.peers + 64 * s.params.hops + 21 * live_items s + live_bytes length s }
{}

/// No two sound states with the same parameters have the same encoding in a head of either form, if their content has
/// forms and, in the first form, all limits and numbers of expired datagrams are 0.
pub fn law_one_spelling<C: Form>()
    ensures { (which : HeadForm) (a b : State C) → IsSound C.length_of a → IsSound C.length_of b
        → All (HaveForms (C.has_form which)) a.hops → All (HaveForms (C.has_form which)) b.hops
        → IsOfForm which a → IsOfForm which b → a.params ≡ b.params
        → state_spelled C.length_of (spelled_by C.form which) a ≡ state_spelled C.length_of (spelled_by C.form which) b
        → a ≡ b }
{
    C::law_forms();
}

/// If every payload of a state is inline, its encoding is its checkpoint, and it recovers to the state with these bytes
/// over every image.
pub fn law_inline()
    ensures spelled { (s : State (List ℕ))
        → state_spelled stored_length stored_form (map_state Stored.Inline s) ≡ checkpoint_of s }
    ensures bytes { (image : List ℕ) (s : State (List ℕ)) → state_in image (map_state Stored.Inline s) ≡ s }
{}
