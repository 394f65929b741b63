//! Laws of the recovery relation: functions with an empty body whose contract is the law.
//! `Journal::open` cites the same definitions.

ghost use Rattle.std.specs.Prelude.{ℕ, List};
ghost use Rattle.rly_machine.specs.State.{State};
ghost use Rattle.rly_journal.specs.declared.open_fault.OpenFault.{OpenFault as AFault};
ghost use Rattle.rly_journal.specs.Faults.{IsOfImage};
ghost use Rattle.rly_journal.specs.Recovery.{Stands};
ghost use Rattle.rly_journal.specs.OpenFaults.{IsRefused};

/// An image that fails a check recovers to no state: an opening returns a state if and only if there is one.
pub fn law_refused_stands_for_none()
    ensures { (image : List ℕ) (fault : AFault) → IsRefused image fault → IsOfImage fault → (s : State (List ℕ))
        → Stands image s → ⊥ }
{}
