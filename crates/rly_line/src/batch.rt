//! The elements of the queues: asks of one seat that are submitted together, and their answers,
//! which return together in the same memory.

ghost use Rattle.std.specs.Prelude.{◌≡◌, ◌+◌, ◌<◌, ◌≤◌, ◌^◌, ◌∷◌, ◌++◌, [], drop, length, take, vec_capacity};
ghost use Rattle.rly_core.specs.Bounds.{IsIn};
ghost use Rattle.rly_line.specs.Batches.{calls_in_batch, no_answers};
ghost use Rattle.rly_line.specs.HelpersEnds.{AreEmpty, HasBatchRoom};

use rly_machine::{Answer, Ask, Call, SeatId};
use std::marker::Model;

/// Asks of one seat that are submitted together: 1 to 64. The model: the seat, the number of calls that it
/// submitted before, and the asks.
#[derive(Drop)]
pub struct Batch {
    seat: SeatId,
    before: u64,
    asks: Vec<Ask>,
    answers: Vec<Answer>,
}

impl Model for Batch {
    ghost use Rattle.std.specs.Prelude.{◌≡◌, ◌+◌, ◌≤◌, ◌^◌, [], length};
    ghost use Rattle.rly_core.specs.Bounds.{IsIn};
    ghost use Rattle.rly_line.specs.Batches.{BatchView};
    ghost use Rattle.rly_line.specs.HelpersEnds.{HasBatchRoom};

    ghost Value = { BatchView };

    ghost view = { λ b. record { seat = b.seat; before = b.before; asks = b.asks.items } };

    ghost invariant = { λ b. IsIn 1 64 (length b.asks.items) × (b.before + length b.asks.items ≤ 2 ^ 52)
        × (b.answers.items ≡ [])
        × HasBatchRoom b.asks b.answers };
}

impl Batch {
    /// These asks of a seat, which submitted `before` calls earlier, and an empty list for their answers.
    pub(crate) fn new(seat: SeatId, before: u64, asks: Vec<Ask>, answers: Vec<Answer>) -> Batch
        requires count { IsIn 1 64 (length asks.items) }
        requires numbers { before + length asks.items ≤ 2 ^ 52 }
        requires empty { answers.items ≡ [] }
        requires room { HasBatchRoom asks answers }
        ensures { result ≡ record { seat = seat; before = before; asks = asks.items } }
    {
        Batch {
            seat,
            before,
            asks,
            answers,
        }
    }

    /// The number of asks.
    pub fn len(&self) -> usize
        ensures count { result ≡ length self.now.asks }
        ensures some { IsIn 1 64 result }
    {
        self.asks.len()
    }

    /// Moves its calls, one for each ask, to the end of a list that has room for them. Returns the destination of
    /// their answers.
    pub fn into_calls(self, calls: &mut Vec<Call>) -> Answers
        requires room { length calls.old.items + length self.asks ≤ vec_capacity calls.old }
        ensures calls { calls.new.items ≡ calls.old.items ++ calls_in_batch self }
        ensures answers { result ≡ no_answers self }
        ensures capacity { vec_capacity calls.new ≡ vec_capacity calls.old }
    {
        let Batch {
            seat,
            before,
            mut asks,
            answers,
        } = self;
        let wanted = asks.len();
        let mut number = before;
        for ask in asks.drain(..) {
            number += 1;
            calls.push_reserved(Call { seat, number, ask });
        }
        Answers {
            seat,
            wanted,
            asks,
            answers,
        }
    }

    /// Its asks and its empty list.
    pub(crate) fn into_lists(self) -> (Vec<Ask>, Vec<Answer>)
        ensures asks { result.0.items ≡ self.asks }
        ensures answers { result.1.items ≡ [] }
        ensures room { HasBatchRoom result.0 result.1 }
    {
        let Batch {
            seat: _seat,
            before: _before,
            asks,
            answers,
        } = self;
        (asks, answers)
    }
}

/// Answers to the asks of a batch, in order. The model: the seat, the number of answers expected, and those that
/// are present.
#[derive(Drop)]
pub struct Answers {
    seat: SeatId,
    wanted: usize,
    asks: Vec<Ask>,
    answers: Vec<Answer>,
}

impl Model for Answers {
    ghost use Rattle.std.specs.Prelude.{◌≡◌, ◌≤◌, [], length};
    ghost use Rattle.rly_core.specs.Bounds.{IsIn};
    ghost use Rattle.rly_line.specs.Batches.{AnswersView};
    ghost use Rattle.rly_line.specs.HelpersEnds.{HasBatchRoom};

    ghost Value = { AnswersView };

    ghost view = { λ a. record { seat = a.seat; wanted = a.wanted; answers = a.answers.items } };

    ghost invariant = { λ a. IsIn 1 64 a.wanted × (length a.answers.items ≤ a.wanted) × (a.asks.items ≡ [])
        × HasBatchRoom a.asks a.answers };
}

impl Answers {
    /// The seat of these answers.
    pub fn seat(&self) -> SeatId
        ensures { result ≡ self.now.seat }
    {
        self.seat
    }

    /// The number of answers present.
    pub fn len(&self) -> usize
        ensures { result ≡ length self.now.answers }
    {
        self.answers.len()
    }

    /// The number of answers expected.
    pub fn expected_len(&self) -> usize
        ensures count { result ≡ self.now.wanted }
        ensures some { IsIn 1 64 result }
    {
        self.wanted
    }

    /// Moves the expected number of answers here, from the front of a list.
    pub fn fill(self, given: &mut Vec<Answer>) -> Answers
        requires none { self.answers ≡ [] }
        requires enough { self.wanted ≤ length given.old.items }
        ensures filled { result ≡ record self { answers = take self.wanted given.old.items } }
        ensures rest { given.new.items ≡ drop self.wanted given.old.items }
        ensures capacity { vec_capacity given.new ≡ vec_capacity given.old }
    {
        let Answers {
            seat,
            wanted,
            asks,
            mut answers,
        } = self;
        for answer in given.drain(..wanted) {
            answers.push_reserved(answer);
        }
        Answers {
            seat,
            wanted,
            asks,
            answers,
        }
    }

    /// The empty list of asks and the answers.
    pub(crate) fn into_lists(self) -> (Vec<Ask>, Vec<Answer>)
        ensures asks { result.0.items ≡ [] }
        ensures answers { result.1.items ≡ self.answers }
        ensures room { HasBatchRoom result.0 result.1 }
    {
        let Answers {
            seat: _seat,
            wanted: _wanted,
            asks,
            answers,
        } = self;
        (asks, answers)
    }
}
