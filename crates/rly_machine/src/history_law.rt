//! A law of every legal history.

ghost use Rattle.std.specs.Prelude.{◌≡◌, ℕ, ◌+◌, List, length};
ghost use Rattle.rly_machine.specs.Fold.{AllAccepted, fold};
ghost use Rattle.rly_machine.specs.History.{Entry, Legal, LegalButForBytes, accepted_of, position, state_after};
ghost use Rattle.rly_machine.specs.State.{State};

/// A legal history is also legal but for bytes; a history that is legal but for bytes has the state and the position of
/// the fold of its accepted commands.
pub fn law_history()
    ensures legal { (base : State (List ℕ)) (history : List Entry) → Legal base history
        → LegalButForBytes base history }
    ensures state { (base : State (List ℕ)) (history : List Entry) → LegalButForBytes base history
        → state_after base history ≡ fold length base (accepted_of history) }
    ensures accepted { (base : State (List ℕ)) (history : List Entry) → LegalButForBytes base history
        → AllAccepted length base (accepted_of history) }
    ensures position { (base : State (List ℕ)) (history : List Entry) → LegalButForBytes base history
        → position base history ≡ base.seq + length (accepted_of history) }
{}
