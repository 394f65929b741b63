//! Sees the rounds of a flusher.

ghost use Rattle.std.specs.Prelude.{◌≡◌, ◌≤◌, ◌∷◌, [], List, None, Option, length};
ghost use Rattle.rly_flush.specs.RoundWatch.{Begun, Ended, Look, ShowsMore};

use rly_machine::{Answer, Call};

/// Sees each round of a flusher: its calls before it is made, and its answers before they are sent. Each client of the
/// round waits for it, so it makes no call of the system that may wait.
pub trait RoundWatch {
    /// What it was shown, if it records it.
    ghost shown: { Self → Option (List Look) };

    /// A round of these calls begins.
    fn begin(&mut self, calls: &[Call])
        requires { length calls.now ≤ 64 }
        ensures { ShowsMore (shown self.old) (shown self.new) (Begun calls.now ∷ []) };

    /// It was made, and its calls are answered so, in order. The spool then has so many live datagrams, with so many
    /// payload bytes.
    fn end(&mut self, answers: &[Answer], items: u64, bytes: u64)
        ensures { ShowsMore (shown self.old) (shown self.new) (Ended answers.now items bytes ∷ []) };
}

/// Looks at nothing.
#[derive(Clone, Copy, Drop)]
pub struct NoWatch;

impl RoundWatch for NoWatch {
    ghost use Rattle.std.specs.Prelude.{None};

    ghost shown = { λ _. None };

    fn begin(&mut self, _calls: &[Call]) {}

    fn end(&mut self, _answers: &[Answer], _items: u64, _bytes: u64) {}
}
