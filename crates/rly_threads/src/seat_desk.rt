//! A worker's seat as its desk, with a ghost history of its asks.

ghost use Rattle.std.specs.Prelude.{◌≡◌, ◌≤◌, ◌∷◌, [], IfErr, IfSome, OnOk, Some, length, vec_capacity};
ghost use Rattle.rly_core.specs.Bounds.{IsIn};
ghost use Rattle.rly_threads_workers.specs.DeskExchanges.{HasPut, batch_outcome, call_asked};
ghost use Rattle.rly_link.specs.LinkHistory.{TellsMore};

use crate::cut::TurnOwner;
use http_server::Log;
use rly_line::{BatchError, CallError, LeftSeat, Seat};
use rly_machine::{Answer, Ask};
use rly_threads_workers::Desk;
use std::marker::{Model, PhantomData};
use std::snapshot::Snapshot;
use std::sync::Wait;

/// A batch of asks to a seat, and its outcome. It takes no memory.
#[derive(Drop)]
pub enum SeatExchange {
    /// An ask alone.
    One(Snapshot<Ask>, Snapshot<Result<Answer, CallError>>),
    /// Several, and their answers.
    Several(Snapshot<Vec<Ask>>, Snapshot<Result<(), BatchError>>, Snapshot<Vec<Answer>>),
}

/// A worker's seat. The model, within the crate: the seat, and its asks.
#[derive(Drop)]
pub struct SeatDesk<W: TurnOwner> {
    seat: Seat,
    said: Log<SeatExchange, ()>,
    whose: PhantomData<W>,
}

impl<W: TurnOwner> Model for SeatDesk<W> {
    ghost use Rattle.rly_threads.specs.HelpersCut.{IsTelling, SeatDeskView, asked_in};

    ghost Value = { SeatDeskView };

    ghost view = { λ d. record { seat = d.seat; asked = asked_in d.said } };

    ghost invariant = { λ d. IsTelling W.seat (record { seat = d.seat; asked = asked_in d.said }) };
}

impl<W: TurnOwner> SeatDesk<W> {
    /// A worker's seat, without asks.
    pub fn new(seat: Seat) -> SeatDesk<W>
        requires { W.seat ≡ Some seat }
        ensures { result ≡ record { seat = seat; asked = [] } }
    {
        SeatDesk {
            seat,
            said: Log::new(),
            whose: PhantomData,
        }
    }

    /// Leaves the seat.
    pub fn leave<R: Wait>(self, rt: &R) -> LeftSeat
        ensures { IfSome W.seat (λ first. HasPut first self.asked result) }
    {
        let SeatDesk {
            seat,
            said: _said,
            whose: _whose,
        } = self;
        seat.leave(rt)
    }
}

impl<W: TurnOwner> Desk for SeatDesk<W> {
    ghost use Rattle.std.specs.Prelude.{Some};

    ghost asked = { λ d. Some d.asked };

    fn call<R: Wait>(&mut self, rt: &R, ask: Ask) -> Result<Answer, CallError>
        ensures { TellsMore (Some self.old.asked) (Some self.new.asked) (call_asked ask result ∷ []) }
    {
        let said = Snapshot::of(&ask);
        let outcome = self.seat.call(rt, ask);
        let said = SeatExchange::One(said, Snapshot::of(&outcome));
        self.said = self.said.and(&said, &());
        outcome
    }

    fn call_all<R: Wait>(
        &mut self,
        rt: &R,
        asks: &mut Vec<Ask>,
        answers: &mut Vec<Answer>,
    ) -> Result<(), BatchError>
        requires count { IsIn 1 64 (length asks.old.items) }
        requires empty { answers.old.items ≡ [] }
        requires room { length asks.old.items ≤ vec_capacity answers.old }
        ensures told { TellsMore (Some self.old.asked) (Some self.new.asked)
            ((asks.old.items, batch_outcome result answers.new.items) ∷ []) }
        ensures each { OnOk result (length answers.new.items ≡ length asks.old.items) }
        ensures none_left { OnOk result (asks.new.items ≡ []) }
        ensures none_given { IfErr result (λ _. answers.new.items ≡ []) }
        ensures capacity { (vec_capacity asks.old ≤ vec_capacity asks.new)
            × (vec_capacity answers.old ≤ vec_capacity answers.new) }
    {
        let said = Snapshot::of(&*asks);
        let outcome = self.seat.call_all(rt, asks, answers);
        let said = SeatExchange::Several(said, Snapshot::of(&outcome), Snapshot::of(&*answers));
        self.said = self.said.and(&said, &());
        outcome
    }
}
