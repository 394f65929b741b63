ghost use Rattle.std.specs.Prelude.{◌≡◌, ◌≤◌, ℕ, Err, List, length, All, IfOk, MatchResult};
ghost use Rattle.rly_core.specs.Limits.{IsWithinLimits};
ghost use Rattle.rly_machine.specs.Sound.{IsSound};
ghost use Rattle.rly_machine.specs.State.{State};
ghost use Rattle.rly_segment_checkpoint.specs.Checkpoint.{IsOfForm, inline_form_of, least_checkpoint_length};
ghost use Rattle.rly_segment_checkpoint.specs.Checkpoint.{spelled_by, state_spelled};
ghost use Rattle.rly_segment_checkpoint.specs.Forms.{HaveForms};

use crate::form::Form;
use crate::head_form::HeadForm;
use crate::reader::{Parts, parts_of};
use crate::sound::is_sound;
use rly_core::Params;
use rly_machine::{Machine, Payload};
use rly_record::DecodeFault;
use std::alloc::Global;

/// Decodes a checkpoint with every payload inline, by the form of its head, and returns its spool; the checkpoint has
/// to be all of the bytes.
pub fn read_checkpoint(
    alloc: Global,
    form: HeadForm,
    params: Params,
    bytes: &[u8],
) -> Result<Machine<Payload>, DecodeFault>
    requires { IsWithinLimits params }
    ensures found { IfOk result
        (λ machine. bytes.now ≡ state_spelled length (spelled_by inline_form_of form) machine.state) }
    ensures params { IfOk result (λ machine. machine.state.params ≡ params) }
    ensures plain { IfOk result (λ machine. IsOfForm form machine.state) }

    // The checkpoint of a sound state is always decoded, unless an allocation fails: so Malformed means that there is
    // none.
    ensures only { (s : State (List ℕ)) → IsSound length s → IsOfForm form s → s.params ≡ params
        → bytes.now ≡ state_spelled length (spelled_by inline_form_of form) s
        → MatchResult result (λ machine. machine.state ≡ s) (λ fault. fault ≡ DecodeFault.OutOfMemory) }

    // An allocation is made only if the bytes suffice for the peers and hops.
    ensures memory { result ≡ Err DecodeFault.OutOfMemory → least_checkpoint_length form params ≤ length bytes.now }
{
    read_state(alloc, form, params, bytes)
}

/// Decodes a state by the form of its head, and returns its spool; the encoding has to be all of the bytes.
pub fn read_state<C: Form>(
    alloc: Global,
    form: HeadForm,
    params: Params,
    bytes: &[u8],
) -> Result<Machine<C>, DecodeFault>
    requires { IsWithinLimits params }
    ensures found { IfOk result
        (λ machine. bytes.now ≡ state_spelled C.length_of (spelled_by C.form form) machine.state) }
    ensures params { IfOk result (λ machine. machine.state.params ≡ params) }
    ensures forms { IfOk result (λ machine. All (HaveForms (C.has_form form)) machine.state.hops) }
    ensures plain { IfOk result (λ machine. IsOfForm form machine.state) }

    // The encoding of a sound state whose content has forms, and which such a head can hold, is always decoded, unless
    // an allocation fails: so Malformed means that there is none.
    ensures only { (s : State C) → IsSound C.length_of s → All (HaveForms (C.has_form form)) s.hops → IsOfForm form s
        → s.params ≡ params → bytes.now ≡ state_spelled C.length_of (spelled_by C.form form) s
        → MatchResult result (λ machine. machine.state ≡ s) (λ fault. fault ≡ DecodeFault.OutOfMemory) }

    // An allocation is made only if the bytes suffice for the peers and hops.
    ensures memory { result ≡ Err DecodeFault.OutOfMemory → least_checkpoint_length form params ≤ length bytes.now }
{
    C::law_forms();
    let parts = parts_of(alloc, form, params, bytes)?;
    if !is_sound(&params, &parts) {
        return Err(DecodeFault::Malformed);
    }
    let Parts { seq, lasts, hops } = parts;
    Ok(Machine::restore(params, seq, lasts, hops)?)
}
