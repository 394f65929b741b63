//! The submission queue.

ghost use Rattle.std.specs.Prelude.{◌≡◌, ◌+◌, ◌++◌, ◌<◌, [], false, length, true, IfErr, IfNone, IfOk, IfSome};
ghost use Rattle.std.specs.Prelude.{MatchOption, OnErr, OnOk};
ghost use Rattle.rly_line.specs.HelpersEnds.{line_of};
ghost use Rattle.crossbeam_channel.specs.Claims.{view, IsSeatAt};
ghost use Rattle.crossbeam_channel.specs.Ends.{sends_on, receives_on};
ghost use Rattle.rly_line.specs.Batches.{calls_in_batch};
ghost use Rattle.rly_line.specs.Submission.{IsBeginning, IsNext};

use crate::batch::Batch;
use crossbeam_channel::protocol::{Join, Lesson, Outcome, Protocol, Split};
use crossbeam_channel::{Pass, RuledReceiver, RuledSender, bounded_with};
use rly_machine::Call;
use std::alloc::{AllocError, Global};
use std::collections::LinkedList;
use std::marker::Model;
use std::sync::Wait;

/// The knowledge of a token about the queue. No value of it is made.
pub struct LineView {
    /// Whether it is a seat's.
    pub puts: bool,
    /// The seat's number.
    pub seat: u64,
    /// The calls that the seat submitted.
    pub put: LinkedList<Call>,
    /// Whether it is that of the receiving end.
    pub takes: bool,
    /// The number of seats.
    pub seats: u64,
    /// The calls received.
    pub taken: LinkedList<Call>,
}

/// The rule of the queue.
pub struct Lined;

impl Protocol<Option<Batch>, LineView> for Lined {
    ghost use Rattle.std.specs.Prelude.{[]};
    ghost use Rattle.rly_line.specs.HelpersEnds as helpers;
    ghost use Rattle.rly_line.specs.Submission as submission;

    ghost holds = { submission.AreLined };

    ghost first = { helpers.taking_view 0 [] };
}

/// The token of a new seat is split from the receiver's.
pub struct Seats;

impl Split<LineView> for Seats {
    ghost use Rattle.std.specs.Prelude.{◌+◌, []};
    ghost use Rattle.rly_line.specs.HelpersEnds.{putting_view};

    ghost left = { λ v. record v { seats = v.seats + 1 } };

    ghost right = { λ v. putting_view v.seats [] };
}

/// A seat submits a batch.
pub struct Puts;

impl Outcome<Option<Batch>, LineView> for Puts {
    ghost use Rattle.std.specs.Prelude.{◌≡◌, ◌++◌};
    ghost use Rattle.rly_line.specs.Batches.{calls_put};

    ghost then = { λ v put w. w ≡ record v { put = v.put ++ calls_put put } };
}

impl Lesson<Option<Batch>, LineView> for Puts {
    ghost fact = { λ v puts. Unit {0} };
}

/// A seat leaves.
pub struct Leaves;

impl Outcome<Option<Batch>, LineView> for Leaves {
    ghost use Rattle.std.specs.Prelude.{◌≡◌};

    ghost then = { λ v put w. w ≡ v };
}

impl Lesson<Option<Batch>, LineView> for Leaves {
    ghost fact = { λ v puts. Unit {0} };
}

/// A batch is received.
pub struct Takes;

impl Outcome<Option<Batch>, LineView> for Takes {
    ghost use Rattle.rly_line.specs.HelpersEnds.{IsTaken};

    ghost then = { λ v put w. IsTaken v put w };
}

impl Lesson<Option<Batch>, LineView> for Takes {
    ghost fact = { λ v puts. Unit {0} };
}

/// A seat's token and the receiver's are joined, and split again.
struct Together;

impl Join<LineView> for Together {
    ghost use Rattle.rly_line.specs.HelpersEnds.{idle_view, merged_view};

    ghost both = { λ v w. merged_view v w };

    ghost spent = { idle_view };
}

impl Split<LineView> for Together {
    ghost use Rattle.rly_line.specs.HelpersEnds.{putting_view, taking_view};

    ghost left = { λ v. taking_view v.seats v.taken };

    ghost right = { λ v. putting_view v.seat v.put };
}

impl Lesson<Option<Batch>, LineView> for Together {
    ghost use Rattle.std.specs.Prelude.{◌≡◌, ◌++◌};
    ghost use Rattle.rly_line.specs.Batches.{calls_in_line};
    ghost use Rattle.rly_line.specs.Submission.{calls_of};

    ghost fact = { λ v puts. calls_of v.seat (v.taken ++ calls_in_line puts) ≡ v.put };
}

/// The whole queue, while seats are added. The model is that of the receiving end.
#[derive(Drop)]
pub struct Line {
    puts: RuledSender<Option<Batch>, LineView, Lined>,
    takes: RuledReceiver<Option<Batch>, LineView, Lined>,
    pass: Pass<Option<Batch>, LineView>,
}

impl Model for Line {
    ghost use Rattle.std.specs.Prelude.{◌≡◌, false, true};
    ghost use Rattle.crossbeam_channel.specs.Claims.{view as pass_view, IsSeatAt};
    ghost use Rattle.crossbeam_channel.specs.Ends.{receives_on, ruled_capacity, sends_on};
    ghost use Rattle.rly_line.specs.HelpersEnds.{Taker, line_of};

    ghost Value = { Taker };

    ghost view = { λ l. record {
      of = line_of l.pass;
      capacity = ruled_capacity (sends_on l.puts);
      seats = (pass_view l.pass).seats;
      taken = (pass_view l.pass).taken;
      over = false;
    } };

    ghost invariant = { λ l. IsSeatAt (sends_on l.puts) l.pass × ((pass_view l.pass).takes ≡ true)
        × (receives_on l.takes ≡ sends_on l.puts) };
}

impl Line {
    /// A queue without seats.
    pub fn new(alloc: Global, capacity: usize) -> Result<Line, AllocError>
        requires { 0 < capacity }
        ensures { IfOk result
            (λ line. line ≡ record line { capacity = capacity; seats = 0; taken = []; over = false }) }
    {
        let (puts, takes, pass) = bounded_with::<Option<Batch>, LineView, Lined, Global>(
            alloc, capacity,
        )?;
        Ok(Line { puts, takes, pass })
    }

    /// The end of one more seat.
    pub fn seat(&mut self) -> Result<SubmitEnd, AllocError>
        ensures ok { IfOk result
            (λ end. (end ≡ record { of = self.old.of; seat = self.old.seats; put = []; refused = false })
            × (self.new ≡ record self.old { seats = self.old.seats + 1 })) }
        ensures err { OnErr result (self.new ≡ self.old) }
    {
        let line = self.puts.try_clone()?;
        let pass = line.another::<Seats>(&mut self.pass);
        Ok(SubmitEnd {
            line,
            pass,
            is_refused: false,
        })
    }

    /// The receiving end, of all its seats. No more seats can be added.
    pub fn into_end(self, seats: usize) -> TakeEnd
        requires { seats ≡ self.seats }
        ensures { result ≡ self }
    {
        TakeEnd {
            line: self.takes,
            pass: self.pass,
            here: seats,
            is_over: false,
        }
    }
}

/// A seat's end of the queue. The model: the seat's number, the calls that it submitted, and whether the queue
/// refused a batch, since the other end was closed.
#[derive(Drop)]
pub struct SubmitEnd {
    line: RuledSender<Option<Batch>, LineView, Lined>,
    pass: Pass<Option<Batch>, LineView>,
    is_refused: bool,
}

impl Model for SubmitEnd {
    ghost use Rattle.std.specs.Prelude.{◌≡◌, true};
    ghost use Rattle.crossbeam_channel.specs.Claims.{view as pass_view, IsSeatAt};
    ghost use Rattle.crossbeam_channel.specs.Ends.{sends_on};
    ghost use Rattle.rly_line.specs.HelpersEnds.{Putter, line_of};

    ghost Value = { Putter };

    ghost view = { λ e.
        record {
          of = line_of e.pass;
          seat = (pass_view e.pass).seat;
          put = (pass_view e.pass).put;
          refused = e.is_refused;
        } };

    ghost invariant = { λ e. IsSeatAt (sends_on e.line) e.pass × ((pass_view e.pass).puts ≡ true) };
}

impl SubmitEnd {
    /// Submits the seat's next batch. Hands it back if the other end is closed.
    pub fn put<R: Wait>(&mut self, rt: &R, batch: Batch) -> Result<(), Batch>
        requires seat { batch.seat.0 ≡ self.old.seat }
        requires before { batch.before ≡ length self.old.put }
        ensures put { OnOk result (self.new ≡ record self.old { put = self.old.put ++ calls_in_batch batch }) }
        ensures back { IfErr result (λ back. (back ≡ batch) × (self.new ≡ record self.old { refused = true })) }
    {
        let _count = batch.len();
        match self
            .line
            .send_as::<Puts, R>(rt, &mut self.pass, Some(batch))
        {
            Ok(()) => Ok(()),
            Err(error) => {
                self.is_refused = true;
                let Some(back) = error.into_inner() else {
                    unreachable!();
                };
                Err(back)
            }
        }
    }

    /// Tells the queue that the seat submits no more.
    pub fn leave<R: Wait>(&mut self, rt: &R)
        ensures { self.new ≡ self.old }
    {
        let _told = self.line.send_as::<Leaves, R>(rt, &mut self.pass, None);
    }

    /// The calls received are a prefix of those that it submitted, whoever has the receiver's token.
    fn law_beginning(self, taker: &mut Pass<Option<Batch>, LineView>) -> SubmitEnd
        requires takes { ((view taker.old).takes ≡ true) × (taker.old.me.1 ≡ []) }
        requires of { line_of taker.old ≡ self.of }
        ensures same { result ≡ self }
        ensures known { ((view taker.new).takes ≡ true) × ((view taker.new).seats ≡ (view taker.old).seats)
            × ((view taker.new).taken ≡ (view taker.old).taken) }
        ensures pass { (taker.new.me.1 ≡ []) × (line_of taker.new ≡ line_of taker.old) }
        ensures begins { IsBeginning self.seat (view taker.old).taken self.put }
    {
        let SubmitEnd {
            line,
            pass,
            is_refused,
        } = self;
        line.absorb::<Together>(taker, pass);
        line.learn_as::<Together>(taker);
        let pass = line.another::<Together>(taker);
        SubmitEnd {
            line,
            pass,
            is_refused,
        }
    }
}

/// The receiving end of the queue. The model: the number of batches in the queue, the number of seats, the calls
/// received, and whether a wait found no batch and no seat left.
#[derive(Drop)]
pub struct TakeEnd {
    line: RuledReceiver<Option<Batch>, LineView, Lined>,
    pass: Pass<Option<Batch>, LineView>,
    /// The number of seats that didn't leave yet.
    here: usize,
    is_over: bool,
}

impl Model for TakeEnd {
    ghost use Rattle.std.specs.Prelude.{◌≡◌, true};
    ghost use Rattle.crossbeam_channel.specs.Claims.{view as pass_view, IsSeatAt};
    ghost use Rattle.crossbeam_channel.specs.Ends.{receives_on, ruled_capacity};
    ghost use Rattle.rly_line.specs.HelpersEnds.{Taker, line_of};

    ghost Value = { Taker };

    ghost view = { λ e. record {
      of = line_of e.pass;
      capacity = ruled_capacity (receives_on e.line);
      seats = (pass_view e.pass).seats;
      taken = (pass_view e.pass).taken;
      over = e.is_over;
    } };

    ghost invariant = { λ e. IsSeatAt (receives_on e.line) e.pass × ((pass_view e.pass).takes ≡ true) };
}

impl TakeEnd {
    /// Waits for a batch. `None`: no batch and no seat is left.
    pub fn wait<R: Wait>(&mut self, rt: &R) -> Option<Batch>
        ensures taken { IfSome result (λ batch.
            (self.new ≡ record self.old { taken = self.old.taken ++ calls_in_batch batch })
            × IsNext self.old.seats self.old.taken batch) }
        ensures none { IfNone result (self.new ≡ record self.old { over = true }) }
    {
        for _count in rt.forever() {
            if self.here == 0 {
                break;
            }
            match self.next(rt) {
                Some(Some(batch)) => return Some(batch),
                Some(None) => self.forget(1),
                None => break,
            }
        }
        self.is_over = true;
        None
    }

    /// Waits for the next element: a batch, or `Some(None)` if a seat leaves. `None`: the queue is empty, and no
    /// seat is left.
    fn next<R: Wait>(&mut self, rt: &R) -> Option<Option<Batch>>
        ensures taken { IfSome result (λ put. MatchOption put (self.new ≡ self.old)
            (λ batch. (self.new ≡ record self.old { taken = self.old.taken ++ calls_in_batch batch })
            × IsNext self.old.seats self.old.taken batch)) }
        ensures none { IfNone result (self.new ≡ self.old) }
    {
        self.line.recv_as::<Takes, R>(rt, &mut self.pass).ok()
    }

    /// A batch that is in the queue, if there is one.
    pub fn more<R: Wait>(&mut self, rt: &R) -> Option<Batch>
        ensures taken { IfSome result (λ batch.
            (self.new ≡ record self.old { taken = self.old.taken ++ calls_in_batch batch })
            × IsNext self.old.seats self.old.taken batch) }
        ensures none { IfNone result (self.new ≡ self.old) }
    {
        match self.line.try_recv_as::<Takes, R>(rt, &mut self.pass) {
            Ok(Some(batch)) => Some(batch),
            Ok(None) => {
                self.forget(1);
                None
            }
            Err(_) => None,
        }
    }

    /// `seats` seats were dropped without leaving.
    pub fn forget(&mut self, count: usize)
        ensures { self.new ≡ self.old }
    {
        self.here = self.here.saturating_sub(count);
    }

    /// Closes the queue. A batch that is submitted from now on is refused, and the batches in the queue are lost.
    pub fn close(self) -> TakenEnd
        ensures { result ≡ record { of = self.of; seats = self.seats; taken = self.taken } }
    {
        let TakeEnd {
            line: _line,
            pass,
            here: _here,
            is_over: _is_over,
        } = self;
        TakenEnd { pass }
    }

    /// The calls received are a prefix of those that a seat of this queue submitted.
    pub fn law_beginning(&mut self, end: SubmitEnd) -> SubmitEnd
        requires { end.of ≡ self.old.of }
        ensures same { (self.new ≡ self.old) × (result ≡ end) }
        ensures begins { IsBeginning end.seat self.old.taken end.put }
    {
        end.law_beginning(&mut self.pass)
    }
}

/// The receiving end of the queue once it is closed. The model: the number of seats, and the calls received.
#[derive(Drop)]
pub struct TakenEnd {
    pass: Pass<Option<Batch>, LineView>,
}

impl Model for TakenEnd {
    ghost use Rattle.std.specs.Prelude.{◌≡◌, [], true};
    ghost use Rattle.crossbeam_channel.specs.Claims.{view as pass_view};
    ghost use Rattle.rly_line.specs.HelpersEnds.{Taken, line_of};

    ghost Value = { Taken };

    ghost view = { λ e.
        record { of = line_of e.pass; seats = (pass_view e.pass).seats; taken = (pass_view e.pass).taken } };

    ghost invariant = { λ e. ((pass_view e.pass).takes ≡ true) × (e.pass.me.1 ≡ []) };
}

impl TakenEnd {
    /// The calls received are a prefix of those that a seat of this queue submitted. Consumes the seat's end.
    pub fn law_beginning(&mut self, end: SubmitEnd)
        requires { end.of ≡ self.old.of }
        ensures same { self.new ≡ self.old }
        ensures begins { IsBeginning end.seat self.old.taken end.put }
    {
        let _end = end.law_beginning(&mut self.pass);
    }
}
