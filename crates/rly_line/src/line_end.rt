ghost use Rattle.std.specs.Prelude.{◌≡◌, ◌++◌, ◌<◌, false, length, slice_set, true, IfNone, IfSome, MatchBool};
ghost use Rattle.rly_line.specs.EndViews.{TellTheSame};
ghost use Rattle.rly_line.specs.Batches.{calls_in_batch};
ghost use Rattle.rly_line.specs.Replies.{MayReport};
ghost use Rattle.rly_line.specs.Submission.{IsBeginning, IsNext};

use crate::batch::{Answers, Batch};
use crate::closed_end::ClosedEnd;
use crate::ghost_history::{GhostHistory, HasState};
use crate::replies::ReplyEnd;
use crate::seat::Seat;
use crate::submission::TakeEnd;
use std::marker::Model;
use std::sync::Wait;

/// The receiving end of all queues, for the one thread that answers. The model: the queue from which it receives
/// calls and the number of batches in it, the calls received, whether a wait found no batch and no seat left, and,
/// for each seat, the number of batches of answers in its queue, the base and the history last sent to it, and
/// whether the seat was found dropped.
#[derive(Drop)]
pub struct LineEnd {
    calls: TakeEnd,
    replies: Vec<ReplyEnd>,
}

impl Model for LineEnd {
    ghost use Rattle.std.specs.Prelude.{◌≡◌, length};
    ghost use Rattle.rly_line.specs.EndViews.{AreInPlace, EndView};

    ghost Value = { EndView };

    ghost view = { λ e.
        record {
          of = e.calls.of;
          capacity = e.calls.capacity;
          taken = e.calls.taken;
          lines = e.replies.items;
          over = e.calls.over;
        } };

    ghost invariant = { λ e. (e.calls.seats ≡ length e.replies.items) × AreInPlace e.replies.items };
}

impl LineEnd {
    ghost use Rattle.rly_line.specs.EndViews.{AreInPlace, reply_end_at, with_gone, with_history};

    /// The receiving end of these queues.
    pub(crate) fn new(calls: TakeEnd, replies: Vec<ReplyEnd>) -> LineEnd
        requires { (calls.seats ≡ length replies.items) × AreInPlace replies.items }
        ensures { result
            ≡ record {
              of = calls.of;
              capacity = calls.capacity;
              taken = calls.taken;
              lines = replies.items;
              over = calls.over;
            } }
    {
        LineEnd { calls, replies }
    }

    /// Waits for a batch. `None`: no batch and no seat is left.
    pub fn wait<R: Wait>(&mut self, rt: &R) -> Option<Batch>
        ensures taken { IfSome result
            (λ batch. (self.new ≡ record self.old { taken = self.old.taken ++ calls_in_batch batch })
            × IsNext (length self.old.lines) self.old.taken batch) }
        ensures none { IfNone result (self.new ≡ record self.old { over = true }) }
    {
        self.calls.wait(rt)
    }

    /// A batch that is in the queue, if there is one.
    pub fn more<R: Wait>(&mut self, rt: &R) -> Option<Batch>
        ensures taken { IfSome result
            (λ batch. (self.new ≡ record self.old { taken = self.old.taken ++ calls_in_batch batch })
            × IsNext (length self.old.lines) self.old.taken batch) }
        ensures none { IfNone result (self.new ≡ self.old) }
    {
        self.calls.more(rt)
    }

    /// Sends the answers to a batch to its seat, with their history. Returns whether they were sent: not if the
    /// seat was dropped, and then never again.
    pub fn tell<T: HasState, R: Wait>(
        &mut self,
        rt: &R,
        answers: Answers,
        story: &GhostHistory<T>,
    ) -> bool
        requires seat { answers.seat.0 < length self.old.lines }
        requires may { (reply_end_at self.old.lines answers.seat.0).gone ≡ false
            → MayReport (reply_end_at self.old.lines answers.seat.0) story.now.start answers.answers story.now.history }
        ensures of { self.new.of ≡ self.old.of }
        ensures taken { self.new.taken ≡ self.old.taken }
        ensures over { self.new.over ≡ self.old.over }
        ensures told { MatchBool result
            (self.new.lines ≡ slice_set self.old.lines answers.seat.0
            (with_history (reply_end_at self.old.lines answers.seat.0) story.now))
            (self.new.lines ≡ slice_set self.old.lines answers.seat.0
            (with_gone (reply_end_at self.old.lines answers.seat.0))) }
    {
        let seat = answers.seat().0 as usize;
        let line = &mut self.replies[seat];
        line.tell(rt, answers, story)
    }

    /// Stops waiting for `seats` seats that were dropped without leaving.
    pub fn forget(&mut self, count: usize)
        ensures { self.new ≡ self.old }
    {
        self.calls.forget(count);
    }

    /// Closes all queues: a call that was submitted and not answered returns `Lost`, and each later one `Closed`.
    pub fn close<R: Wait>(self, rt: &R) -> ClosedEnd
        ensures of { result.of ≡ self.of }
        ensures taken { result.taken ≡ self.taken }
        ensures told { TellTheSame result.lines self.lines }
    {
        let LineEnd { calls, mut replies } = self;
        // First, so that a seat which takes its last answers later has its next batch refused.
        let calls = calls.close();
        close_all(rt, &mut replies);
        ClosedEnd::new(calls, replies)
    }

    /// The law of each seat at this queue, at each moment: the calls received are a prefix of the calls that it
    /// submitted, ask for ask.
    pub fn law_beginning(&mut self, seat: Seat) -> Seat
        requires { seat.of ≡ self.old.of }
        ensures same { (self.new ≡ self.old) × (result ≡ seat) }
        ensures begins { IsBeginning seat.seat.0 self.old.taken seat.put }
    {
        seat.law_beginning(&mut self.calls)
    }
}

/// Closes each of these answer queues.
fn close_all<R: Wait>(rt: &R, lines: &mut [ReplyEnd])
    ensures { TellTheSame lines.new lines.old }
{
    for place in 0..lines.len() {
        let line = &mut lines[place];
        line.close(rt);
    }
}
