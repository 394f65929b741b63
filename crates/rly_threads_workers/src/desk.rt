// The interface through which a worker submits its calls.
ghost use Rattle.std.specs.Prelude.{◌≡◌, ◌+◌, ◌<◌, ◌^◌, ◌≤◌, ◌⊎◌, ◌∷◌, [], Err, true, vec_capacity, IfErr, IfOk, List};
ghost use Rattle.std.specs.Prelude.{OnOk, Option, length};
ghost use Rattle.rly_core.specs.Bounds.{IsIn};
ghost use Rattle.rly_line.specs.declared.call_error.BatchError.TheVariants.{Closed};
ghost use Rattle.rly_line.specs.Seats.{AreAnsweredWith, AreUnanswered, IsAnsweredWith, IsNotPut, IsUnanswered};
ghost use Rattle.rly_threads_workers.specs.DeskExchanges.{Asked, batch_outcome, call_asked};
ghost use Rattle.rly_link.specs.LinkHistory.{TellsMore};

use rly_line::{BatchError, CallError, Seat};
use rly_machine::{Answer, Ask};
use std::sync::Wait;

/// Executes a worker's calls. A `Seat` is one.
pub trait Desk {
    /// The batches of asks and their outcomes, if the desk records them.
    ghost asked: { Self → Option (List Asked) };

    /// Submits an ask and waits for the answer: a batch of one.
    fn call<R: Wait>(&mut self, rt: &R, ask: Ask) -> Result<Answer, CallError>
        ensures { TellsMore (asked self.old) (asked self.new) (call_asked ask result ∷ []) };

    /// Submits all of these together and waits for their answers, which come together, in order, into an empty list
    /// with room for them.
    fn call_all<R: Wait>(
        &mut self,
        rt: &R,
        asks: &mut Vec<Ask>,
        answers: &mut Vec<Answer>,
    ) -> Result<(), BatchError>
        requires count { IsIn 1 64 (length asks.old.items) }
        requires empty { answers.old.items ≡ [] }
        requires room { length asks.old.items ≤ vec_capacity answers.old }
        ensures told { TellsMore (asked self.old) (asked self.new)
            ((asks.old.items, batch_outcome result answers.new.items) ∷ []) }
        ensures each { OnOk result (length answers.new.items ≡ length asks.old.items) }
        ensures none_left { OnOk result (asks.new.items ≡ []) }
        ensures none_given { IfErr result (λ _. answers.new.items ≡ []) }
        ensures capacity { (vec_capacity asks.old ≤ vec_capacity asks.new)
            × (vec_capacity answers.old ≤ vec_capacity answers.new) };
}

impl Desk for Seat {
    ghost use Rattle.std.specs.Prelude.{None};

    ghost asked = { λ _. None };

    fn call<R: Wait>(&mut self, rt: &R, ask: Ask) -> Result<Answer, CallError>
        ensures ok { IfOk result (λ answer. IsAnsweredWith self.old ask answer self.new) }
        ensures err { IfErr result (λ error. IsUnanswered self.old ask error self.new) }
        ensures shut { (self.old.shut ≡ true) ⊎ (2 ^ 52 ≤ length self.old.put) → IsNotPut result }
    {
        Seat::call(self, rt, ask)
    }

    fn call_all<R: Wait>(
        &mut self,
        rt: &R,
        asks: &mut Vec<Ask>,
        answers: &mut Vec<Answer>,
    ) -> Result<(), BatchError>
        requires count { IsIn 1 64 (length asks.old.items) }
        requires empty { answers.old.items ≡ [] }
        requires room { length asks.old.items ≤ vec_capacity answers.old }
        ensures ok { OnOk result (AreAnsweredWith self.old asks.old.items answers.new.items self.new) }
        ensures err { IfErr result (λ error. AreUnanswered self.old asks.old.items error asks.new.items self.new) }
        ensures shut { (self.old.shut ≡ true) ⊎ (2 ^ 52 < length self.old.put + length asks.old.items)
            → result ≡ Err Closed }
        ensures none_left { OnOk result (asks.new.items ≡ []) }
        ensures none_given { IfErr result (λ _. answers.new.items ≡ []) }
        ensures capacity { (vec_capacity asks.old ≤ vec_capacity asks.new)
            × (vec_capacity answers.old ≤ vec_capacity answers.new) }
    {
        Seat::call_all(self, rt, asks, answers)
    }
}
