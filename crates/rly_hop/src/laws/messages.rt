ghost use Rattle.std.specs.Prelude.{◌≡◌, ◌<◌, ◌≤◌, ◌↔◌, ℕ, List, None, length, slice_index};
ghost use Rattle.rly_hop.specs.declared.message.Message.{Message};
ghost use Rattle.rly_hop.specs.declared.message.StationId.{StationId};
ghost use Rattle.rly_hop.specs.Spelling.{IsMessage, longest_message, spelling};
ghost use Rattle.rly_hop.specs.MessageReads.{first_fault};

use crate::message::MAX_MESSAGE;
use rly_core::limits::MAX_PAYLOAD;

/// Encoding is injective: no two messages have the same bytes.
pub fn law_one_spelling()
    ensures { (a b : Message (List ℕ)) → IsMessage a → IsMessage b → spelling a ≡ spelling b → a ≡ b }
{}

/// Bytes have no fault iff they are the encoding of a message.
pub fn law_no_fault_is_a_spelling(bytes: &[u8])
    ensures spelled { first_fault bytes.now ≡ None → (m : Message (List ℕ)) × IsMessage m × (bytes.now ≡ spelling m) }
    ensures faultless { (m : Message (List ℕ)) → IsMessage m → bytes.now ≡ spelling m → first_fault bytes.now ≡ None }
{}

/// No message is longer than `MAX_MESSAGE`, and a Data with a limit and the longest payload has that length. A Data
/// whose payload has at most `n` bytes is at most `longest_message` of `n` bytes long.
pub fn law_longest_message()
    ensures bytes { MAX_MESSAGE ≡ 8215 }
    ensures within { (m : Message (List ℕ)) → IsMessage m → length (spelling m) ≤ MAX_MESSAGE }
    ensures shorter { (from to : StationId) (number limit most : ℕ) (payload : List ℕ)
        → IsMessage (Message.Data from to number limit payload)
        → length payload ≤ most → length (spelling (Message.Data from to number limit payload)) ≤ longest_message most }
    ensures worked { (longest_message 1200 ≡ 1223) × (longest_message 8192 ≡ MAX_MESSAGE) }
    ensures reached { (from to : StationId) (number limit : ℕ) (payload : List ℕ) → 0 < limit
        → length payload ≡ MAX_PAYLOAD
        → length (spelling (Message.Data from to number limit payload)) ≡ MAX_MESSAGE }
{}
