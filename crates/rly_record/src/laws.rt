//! Laws of the encoding: functions with an empty body whose contract is the law. The contracts of
//! the readers and writers cite the same definitions.

ghost use Rattle.std.specs.Prelude.{◌≡◌, ◌≤◌, ◌++◌, ℕ, All, List, length};
ghost use Rattle.std.specs.List.{AllByRecursion};
ghost use Rattle.rly_machine.specs.declared.command.Command.{Command};
ghost use Rattle.rly_record.specs.Spelling.{HasRecord, HaveBody, IsShort, body_length, body_of, longest_body};
ghost use Rattle.rly_record.specs.Spelling.{longest_record, record_length, record_of};

use rly_core::limits::{MAX_PAYLOAD, MAX_ROUND};

/// No record is a proper prefix of another: if two records are each followed by any bytes, equal bytes have the same
/// command and the same rest.
pub fn law_no_record_begins_another()
    ensures { (a b : Command (List ℕ)) (x y : List ℕ) → HasRecord a → HasRecord b →
        record_of a ++ x ≡ record_of b ++ y → (a ≡ b) × (x ≡ y) }
{}

/// No body is a proper prefix of another.
pub fn law_no_body_begins_another()
    ensures { (a b : List (Command (List ℕ))) (x y : List ℕ) → HaveBody a → HaveBody b →
        body_of a ++ x ≡ body_of b ++ y → (a ≡ b) × (x ≡ y) }
{}

/// Records and bodies have the lengths of `record_length` and `body_length`. If no payload exceeds a length, then no
/// record exceeds its `longest_record` and no body of 1 to 64 commands its `longest_body`, and both maxima occur. A
/// command with a record has a payload of at most 8,192 bytes.
pub fn law_lengths()
    ensures record { (command : Command (List ℕ)) → length (record_of command) ≡ record_length length command }
    ensures body { (commands : List (Command (List ℕ))) → length (body_of commands) ≡ body_length length commands }
    ensures longest_record { (most : ℕ) (command : Command (List ℕ)) → IsShort most command
        → record_length length command ≤ longest_record most }
    ensures longest_body { (most : ℕ) (commands : List (Command (List ℕ))) → length commands ≤ MAX_ROUND
        → AllByRecursion (IsShort most) commands
        → body_length length commands ≤ longest_body most }
    ensures reached { (most : ℕ) (commands : List (Command (List ℕ))) → length commands ≡ MAX_ROUND
        → All (λ command. record_length length command ≡ longest_record most) commands
        → body_length length commands ≡ longest_body most }
    ensures short { (command : Command (List ℕ)) → HasRecord command → IsShort MAX_PAYLOAD command }
    ensures worked { (longest_body 1200 ≡ 78274) × (longest_body 8192 ≡ 525762) }
{}
