ghost use Rattle.std.specs.Prelude.{◌≡◌, ◌++◌, [], List, length, true, IfNone, IfSome};
ghost use Rattle.std.specs.List.{zip};
ghost use Rattle.rly_machine.specs.History.{LegalBy, harm_after, state_after, without_bytes};
ghost use Rattle.rly_machine.specs.declared.call.Call.{Call};
ghost use Rattle.rly_line.specs.Batches.{calls_in_batch, no_answers};
ghost use Rattle.rly_line.specs.EndViews.{names_of, new_reply_ends};
ghost use Rattle.rly_line.specs.ResponderView.{AreLeft, IsLeftBy, IsOneResponder};
ghost use Rattle.rly_line.specs.Submission.{IsBeginning};

use crate::batch::{Answers, Batch};
use crate::closed_end::ClosedEnd;
use crate::ghost_history::{GhostHistory, HasState};
use crate::line_end::LineEnd;
use crate::seat::Seat;
use std::marker::Model;
use std::snapshot::Snapshot;
use std::sync::Wait;

/// The one thread that answers: its end of all queues, and its history. The model: the queue from which it receives
/// calls, the calls received, the initial state, the history, the history sent to each seat, and whether a wait
/// found no batch and no seat left.
#[derive(Drop)]
pub struct Responder<T: HasState> {
    line: LineEnd,
    story: GhostHistory<T>,
}

impl<T: HasState> Model for Responder<T> {
    ghost use Rattle.rly_line.specs.ResponderView.{IsOneResponder, ResponderView, responder_view};

    ghost Value = { ResponderView };

    ghost view = { λ r. responder_view r.line r.story };

    ghost invariant = { λ r. IsOneResponder (responder_view r.line r.story) };
}

impl<T: HasState> Responder<T> {
    /// At the end of new queues, in the given state.
    pub fn new(line: LineEnd, at: &T) -> Responder<T>
        requires { line ≡ record line { taken = []; lines = new_reply_ends 0 (names_of line.lines) } }
        ensures same { result
            ≡ record {
              of = line.of;
              taken = [];
              start = T.state at.now;
              history = [];
              lines = line.lines;
              over = line.over;
            } }
        ensures holds { IsOneResponder result }
    {
        let story = GhostHistory::begin(at);
        Responder { line, story }
    }

    /// Waits for a batch. `None`: no batch and no seat is left.
    pub fn wait<R: Wait>(&mut self, rt: &R) -> Option<Batch>
        ensures taken { IfSome result
            (λ batch. self.new ≡ record self.old { taken = self.old.taken ++ calls_in_batch batch }) }
        ensures none { IfNone result (self.new ≡ record self.old { over = true }) }
        ensures holds { IsOneResponder self.new }
    {
        self.line.wait(rt)
    }

    /// A batch that is in the queue, if there is one.
    pub fn more<R: Wait>(&mut self, rt: &R) -> Option<Batch>
        ensures taken { IfSome result
            (λ batch. self.new ≡ record self.old { taken = self.old.taken ++ calls_in_batch batch }) }
        ensures none { IfNone result (self.new ≡ self.old) }
        ensures holds { IsOneResponder self.new }
    {
        self.line.more(rt)
    }

    /// Answers the first batch that was received and is not answered yet, and appends its calls with their answers
    /// to the history, in one piece. A seat that was dropped gets no answers.
    pub fn answer<R: Wait>(&mut self, rt: &R, batch: &Snapshot<Batch>, answers: Answers)
        requires whose { answers ≡ record (no_answers batch.now.value) { answers = answers.answers } }
        requires count { length answers.answers ≡ answers.wanted }
        requires next { (left : List Call) × AreLeft self.old (calls_in_batch batch.now.value ++ left) }
        requires answered { LegalBy without_bytes (harm_after 0 self.old.history)
            (state_after self.old.start self.old.history) (zip (calls_in_batch batch.now.value) answers.answers) }
        ensures of { self.new.of ≡ self.old.of }
        ensures taken { self.new.taken ≡ self.old.taken }
        ensures start { self.new.start ≡ self.old.start }
        ensures over { self.new.over ≡ self.old.over }
        ensures names { names_of self.new.lines ≡ names_of self.old.lines }
        ensures history { self.new.history ≡ self.old.history ++ zip (calls_in_batch batch.now.value) answers.answers }
        ensures holds { IsOneResponder self.new }
    {
        let _some = answers.expected_len();
        self.story.push(batch, &answers);
        self.line.tell(rt, answers, &self.story);
    }

    /// Stops waiting for `seats` seats that were dropped without leaving.
    pub fn forget(&mut self, count: usize)
        ensures { self.new ≡ self.old }
    {
        self.line.forget(count);
    }

    /// Closes all queues.
    pub fn close<R: Wait>(self, rt: &R) -> ClosedEnd
        ensures { IsLeftBy self result }
    {
        let Responder {
            line,
            story: _story,
        } = self;
        line.close(rt)
    }

    /// The law of each seat at this queue, at each moment: the calls received are a prefix of the calls that it
    /// submitted, ask for ask.
    pub fn law_beginning(&mut self, seat: Seat) -> Seat
        requires { seat.of ≡ self.old.of }
        ensures same { (self.new ≡ self.old) × (result ≡ seat) }
        ensures begins { IsBeginning seat.seat.0 self.old.taken seat.put }
    {
        self.line.law_beginning(seat)
    }
}
