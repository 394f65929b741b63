ghost use Rattle.std.specs.Prelude.{◌≡◌, ◌+◌, ◌^◌, ◌≤◌, ◌++◌, ◌↔◌, [], false, true, length, IfErr, IfOk};
ghost use Rattle.std.specs.Prelude.{IfNone, IfSome, MatchOption, OnOk};
ghost use Rattle.rly_core.specs.Bounds.{IsIn};
ghost use Rattle.rly_line.specs.Batches.{calls_in_batch};
ghost use Rattle.rly_line.specs.HelpersEnds.{AreAllAnswered, HasBatchRoom, IsWaiting, new_hearer};
ghost use Rattle.rly_line.specs.Seats.{AreAnsweredWith, WaitingCaller, new_caller};
ghost use Rattle.rly_line.specs.Submission.{IsBeginning};

use crate::batch::{Answers, Batch};
use crate::replies::HearingEnd;
use crate::submission::{SubmitEnd, TakeEnd};
use rly_machine::{Answer, Ask, SeatId};
use std::marker::Model;
use std::sync::Wait;

/// Maximum number of calls of a seat in its lifetime.
const MAX_CALLS: u64 = 1 << 52;

/// The two ends of a seat: the sending end of the submission queue, and the receiving end of its answers. The model
/// is that of the seat.
#[derive(Drop)]
pub(crate) struct SeatEnds {
    seat: SeatId,
    line: SubmitEnd,
    replies: HearingEnd,
    calls: u64,
    is_shut: bool,
}

impl Model for SeatEnds {
    ghost use Rattle.rly_line.specs.HelpersEnds.{IsSeated};
    ghost use Rattle.rly_line.specs.Seats.{Caller};

    ghost Value = { Caller };

    ghost view = { λ s. record {
      of = s.line.of;
      replies = s.replies.of;
      seat = s.seat;
      put = s.line.put;
      base = s.replies.base;
      known = s.replies.known;
      shut = s.is_shut;
      refused = s.line.refused;
    } };

    ghost invariant = { λ s. IsSeated s.seat s.line s.replies s.calls s.is_shut };
}

impl SeatEnds {
    /// A seat's two ends, without calls.
    pub fn new(seat: SeatId, line: SubmitEnd, replies: HearingEnd) -> SeatEnds
        requires line { line ≡ record line { seat = seat.0; put = []; refused = false } }
        requires replies { replies ≡ new_hearer replies.of seat.0 }
        ensures { result ≡ new_caller line.of replies.of seat.0 }
    {
        SeatEnds {
            seat,
            line,
            replies,
            calls: 0,
            is_shut: false,
        }
    }

    /// The seat's number.
    pub fn id(&self) -> SeatId
        ensures { result ≡ self.now.seat }
    {
        self.seat
    }

    /// Whether this many more calls may be submitted.
    pub fn may_put(&self, count: usize) -> bool
        ensures { (result ≡ true) ↔ ((self.now.shut ≡ false) × (length self.now.put + count ≤ 2 ^ 52)) }
    {
        !self.is_shut && count as u64 <= MAX_CALLS && self.calls <= MAX_CALLS - count as u64
    }

    /// These asks as the seat's next batch, and an empty list for their answers.
    pub fn batch(&self, asks: Vec<Ask>, answers: Vec<Answer>) -> Batch
        requires count { IsIn 1 64 (length asks.items) }
        requires numbers { length self.now.put + length asks.items ≤ 2 ^ 52 }
        requires empty { answers.items ≡ [] }
        requires room { HasBatchRoom asks answers }
        ensures { result ≡ record { seat = self.now.seat; before = length self.now.put; asks = asks.items } }
    {
        Batch::new(self.seat, self.calls, asks, answers)
    }

    /// Submits the seat's next batch and waits for its answers. Hands the batch back if the queue refuses it. If no
    /// answers come, nothing is handed back, and the seat is shut.
    pub fn exchange<R: Wait>(&mut self, rt: &R, batch: Batch) -> Result<Answers, Option<Batch>>
        requires open { self.old.shut ≡ false }
        requires answered { AreAllAnswered self.old }
        requires whose { batch.seat ≡ self.old.seat }
        requires before { batch.before ≡ length self.old.put }
        requires numbers { length self.old.put + length batch.asks ≤ 2 ^ 52 }
        ensures ok { IfOk result (λ given. AreAnsweredWith self.old batch.asks given.answers self.new) }
        ensures err { IfErr result (λ back. MatchOption back
            (self.new ≡ record self.old { put = self.old.put ++ calls_in_batch batch; shut = true })
            (λ same. (same ≡ batch) × (self.new ≡ record self.old { refused = true }))) }
        ensures answered { self.new.shut ≡ false → AreAllAnswered self.new }
    {
        let count = batch.len();
        if let Err(back) = self.put(rt, batch) {
            return Err(Some(back));
        }
        match self.hear(rt, count) {
            Some(answers) => Ok(answers),
            None => Err(None),
        }
    }

    /// Submits the seat's next batch. Hands it back if the queue refuses it.
    pub fn put<R: Wait>(&mut self, rt: &R, batch: Batch) -> Result<(), Batch>
        requires open { self.old.shut ≡ false }
        requires whose { batch.seat ≡ self.old.seat }
        requires before { batch.before ≡ length self.old.put }
        requires numbers { length self.old.put + length batch.asks ≤ 2 ^ 52 }
        ensures put { OnOk result (self.new ≡ record self.old { put = self.old.put ++ calls_in_batch batch }) }
        ensures back { IfErr result (λ back. (back ≡ batch) × (self.new ≡ record self.old { refused = true })) }
    {
        let count = batch.len();
        self.line.put(rt, batch)?;
        self.calls += count as u64;
        Ok(())
    }

    /// Waits for the answers to the `count` asks that were submitted last. `None`: no answers come, and the seat is
    /// shut.
    pub fn hear<R: Wait>(&mut self, rt: &R, count: usize) -> Option<Answers>
        requires open { self.old.shut ≡ false }
        ensures answered { IfSome result
            (λ given. (w : WaitingCaller) → IsWaiting w count self.old
            → AreAnsweredWith w.before w.asks given.answers self.new × AreAllAnswered self.new) }
        ensures lost { IfNone result (self.new ≡ record self.old { shut = true }) }
    {
        let Some(answers) = self.replies.hear(rt, count) else {
            self.is_shut = true;
            return None;
        };
        Some(answers)
    }

    /// Takes the answers to the `count` asks that were submitted last, if they are there. `Some(None)`: no answers
    /// come, and the seat is shut.
    pub fn try_hear<R: Wait>(&mut self, rt: &R, count: usize) -> Option<Option<Answers>>
        requires open { self.old.shut ≡ false }
        ensures not_yet { IfNone result (self.new ≡ self.old) }
        ensures found { IfSome result (λ found. MatchOption found (self.new ≡ record self.old { shut = true })
            (λ given. (w : WaitingCaller) → IsWaiting w count self.old
            → AreAnsweredWith w.before w.asks given.answers self.new × AreAllAnswered self.new)) }
    {
        let found = self.replies.try_hear(rt, count)?;
        let Some(answers) = found else {
            self.is_shut = true;
            return Some(None);
        };
        Some(Some(answers))
    }

    /// Tells the queue that the seat submits no more.
    pub fn leave<R: Wait>(&mut self, rt: &R)
        ensures { self.new ≡ self.old }
    {
        self.line.leave(rt);
    }

    /// Its end of the submission queue, and its end of the answer queue.
    pub fn into_lines(self) -> (SubmitEnd, HearingEnd)
        ensures line { result.0 ≡ record { of = self.of; seat = self.seat.0; put = self.put; refused = self.refused } }
        ensures replies { result.1
            ≡ record result.1 { of = self.replies; seat = self.seat.0; base = self.base; known = self.known } }
    {
        let SeatEnds {
            seat: _seat,
            line,
            replies,
            calls: _calls,
            is_shut: _is_shut,
        } = self;
        (line, replies)
    }

    /// The calls received are a prefix of those that it submitted.
    pub fn law_beginning(self, end: &mut TakeEnd) -> SeatEnds
        requires { self.of ≡ end.old.of }
        ensures same { (end.new ≡ end.old) × (result ≡ self) }
        ensures begins { IsBeginning self.seat.0 end.old.taken self.put }
    {
        let SeatEnds {
            seat,
            line,
            replies,
            calls,
            is_shut,
        } = self;
        let line = end.law_beginning(line);
        SeatEnds {
            seat,
            line,
            replies,
            calls,
            is_shut,
        }
    }
}
