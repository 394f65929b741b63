//! Laws over every list of events.

ghost use Rattle.std.specs.Prelude.{◌≡◌, ◌+◌, ◌<◌, List, Some, true, ℕ};
ghost use Rattle.rly_hop.specs.HeardBits.{marks};
ghost use Rattle.rly_link_reorder.specs.ReorderBuffer.{BufferedData, due_data, heard_bits, is_heard, new_reorder};
ghost use Rattle.rly_link_reorder.specs.ReorderBuffer.{ReorderView};
ghost use Rattle.rly_link_reorder.specs.ReorderRuns.{ReorderEvent, HasCome, IsHeard, after_events};

/// For any Data received and custodies sent, in any order: a packet that the buffer returns was received before,
/// byte for byte, and custody of it was not sent.
pub fn law_given_again_came_before()
    ensures came { (places longest : ℕ) (events : List ReorderEvent) (room : ℕ) (k : BufferedData)
        → due_data (after_events (new_reorder places longest) events) room ≡ Some k → HasCome events k }
    ensures uncovered { (places longest : ℕ) (events : List ReorderEvent) (room : ℕ) (k : BufferedData)
        → due_data (after_events (new_reorder places longest) events) room ≡ Some k
        → (after_events (new_reorder places longest) events).covered < k.number }
{}

/// The bits of a Heard: that of a place is set if and only if the number there is stored or was refused. For any Data
/// received and any custodies, refusals and Heards sent, in any order, a marked number came before, or a refusal of it
/// was sent.
pub fn law_heard_came()
    ensures bits { (e : ReorderView) (place : ℕ) → place < 64 → marks (heard_bits e) place ≡ is_heard e place }
    ensures came { (places longest : ℕ) (events : List ReorderEvent) (place : ℕ) → place < 64
        → marks (heard_bits (after_events (new_reorder places longest) events)) place ≡ true
        → IsHeard events ((after_events (new_reorder places longest) events).covered + place + 1) }
{}
