ghost use Rattle.std.specs.Prelude.{◌≡◌};
ghost use Rattle.rly_line.specs.EndViews.{names_of};
ghost use Rattle.rly_line.specs.ResponderView.{IsSeatOf, IsReportedBy};

use crate::left_seat::LeftSeat;
use crate::replies::ReplyEnd;
use crate::submission::TakenEnd;
use std::marker::Model;

/// The receiving end of all queues once it is closed, for laws only. The model: the queue from which it received,
/// the calls received, and the history sent to each seat.
#[derive(Drop)]
pub struct ClosedEnd {
    calls: TakenEnd,
    replies: Vec<ReplyEnd>,
}

impl Model for ClosedEnd {
    ghost use Rattle.rly_line.specs.EndViews.{ClosedView};

    ghost Value = { ClosedView };

    ghost view = { λ e. record { of = e.calls.of; taken = e.calls.taken; lines = e.replies.items } };
}

impl ClosedEnd {
    /// The closed end of these queues.
    pub(crate) fn new(calls: TakenEnd, replies: Vec<ReplyEnd>) -> ClosedEnd
        ensures { result ≡ record { of = calls.of; taken = calls.taken; lines = replies.items } }
    {
        ClosedEnd { calls, replies }
    }

    /// The law of a seat that left, with the closed end of its queues: the calls received are a prefix of the calls
    /// that it submitted, ask for ask; and the history that it knows is a prefix of the one sent to it. Consumes
    /// the seat's remains.
    pub fn law_left(&mut self, seat: LeftSeat)
        requires { IsSeatOf self.old.of (names_of self.old.lines) seat }
        ensures same { self.new ≡ self.old }
        ensures told { IsReportedBy self.old seat }
    {
        let (number, line, replies) = seat.into_lines();
        self.calls.law_beginning(line);
        let teller = &mut self.replies[number as usize];
        teller.law_known(replies);
    }
}
