ghost use Rattle.std.specs.Prelude.{◌≡◌, ◌+◌, ◌-◌, ◌==◌, is_some, not, true, List, ℕ};
ghost use Rattle.std.specs.Option.{option_map};
ghost use Rattle.rly_hop.specs.Payloads.{out_action_bytes, out_event_bytes};
ghost use Rattle.rly_hop.specs.Sending.{after_custody, after_release, is_unsure, repeat_action, reports_flight, sender};
ghost use Rattle.rly_hop.specs.Sending.{sending_step, turn_action};

mod event;

use crate::message::{Message, StationId};
pub use crate::sending::event::{OutAction, OutEvent};
use rly_core::Refusal;
use std::marker::Model;

/// The state machine of the sending end (`docs/PROTOCOL.md`, "The sending core"). It learns the numbers in flight
/// from answered calls only, sends their datagrams in order, and releases those that the hop's station
/// acknowledged.
#[derive(Drop)]
pub struct Sending {
    own: StationId,
    hop: StationId,
    window: u64,
    ready: bool,
    first: u64,
    next: u64,
    cursor: u64,
    acked: Option<u64>,
}

impl Model for Sending {
    ghost use Rattle.rly_hop.specs.Sender.{IsInOrder, Sender};

    ghost Value = { Sender };

    ghost view = { λ core. record {
      own = core.own;
      hop = core.hop;
      window = core.window;
      ready = core.ready;
      first = core.first;
      next = core.next;
      cursor = core.cursor;
      acked = core.acked;
    } };

    ghost invariant = { λ core. IsInOrder
        (record {
          own = core.own;
          hop = core.hop;
          window = core.window;
          ready = core.ready;
          first = core.first;
          next = core.next;
          cursor = core.cursor;
          acked = core.acked;
        }) };
}

impl Sending {
    /// The core of the station `own` for the hop whose station is `hop_station`, with at most `window` datagrams in
    /// flight. It isn't ready: its first turn asks for the window.
    pub fn new(own: StationId, hop_station: StationId, window: u64) -> Self
        ensures { result ≡ sender own hop_station window }
    {
        Sending {
            own,
            hop: hop_station,
            window,
            ready: false,
            first: 1,
            next: 1,
            cursor: 1,
            acked: None,
        }
    }

    /// Handles one event: updates the state and returns at most one action.
    pub fn step<'a>(&mut self, event: OutEvent<&'a [u8]>) -> Option<OutAction<&'a [u8]>>
        ensures state { self.new ≡ (sending_step self.old (out_event_bytes event.entry)).0 }
        ensures action { option_map out_action_bytes result ≡ (sending_step self.old (out_event_bytes event.entry)).1 }
    {
        match event {
            OutEvent::Turn { is_open } => return self.turn_action(is_open),
            OutEvent::Fetched {
                number,
                limit,
                payload,
            } => return self.fetched(number, limit, payload),
            OutEvent::WindowIs { first, next } => self.set_window(first, next),
            OutEvent::Picked(number) => self.picked(number),
            OutEvent::Released | OutEvent::Unchanged => self.released(),
            OutEvent::Heard(Message::Custody { from, to, last }) => self.acknowledged(
                from, to, last,
            ),
            OutEvent::Timeout => self.cursor = self.first,
            OutEvent::Refused(refusal) => self.ready &= !is_unsure_answer(refusal),
            OutEvent::Nothing | OutEvent::Other | OutEvent::Heard(_) => {}
        }
        None
    }

    /// Whether a number was acknowledged since the last release.
    pub fn has_acknowledged(&self) -> bool
        ensures { result ≡ is_some self.now.acked }
    {
        self.acked.is_some()
    }

    /// Whether a Heard with this `last` is on the flight: it is from the hop's station to the own one, and no other number
    /// than those in flight and the one before them is its last.
    pub fn reports_flight(&self, from: StationId, to: StationId, last: u64) -> bool
        ensures { result ≡ reports_flight self.now from to last }
    {
        from == self.hop
            && to == self.own
            && self.ready
            && self.first.saturating_sub(1) <= last
            && last < self.next
    }

    /// The number that the next datagram gets when it enters the flight.
    pub fn next(&self) -> u64
        ensures { result ≡ self.now.next }
    {
        self.next
    }

    /// Whether nothing is in flight.
    pub fn is_idle(&self) -> bool
        ensures { result ≡ (self.now.first == self.now.next) }
    {
        self.first == self.next
    }

    /// How many more datagrams may enter the flight.
    pub fn room(&self) -> u64
        ensures { result ≡ self.now.window - (self.now.next - self.now.first) }
    {
        self.window.saturating_sub(self.next - self.first)
    }

    /// How many more datagrams may enter the flight once all up to this number are released.
    pub fn room_after(&self, number: u64) -> u64
        ensures { result ≡ self.now.window - (self.now.next - (number + 1)) }
    {
        let left = self.next.saturating_sub(number).saturating_sub(1);
        self.window.saturating_sub(left)
    }

    /// The call that a turn requests, if any.
    pub fn turn_action<'a>(&self, is_open: bool) -> Option<OutAction<&'a [u8]>>
        ensures { option_map out_action_bytes result ≡ turn_action self.now is_open }
    {
        if !self.ready {
            return Some(OutAction::AskWindow);
        }
        if let Some(number) = self.acked {
            return Some(OutAction::Release(number));
        }
        if !is_open {
            return None;
        }
        if self.cursor < self.next {
            return Some(OutAction::Fetch(self.cursor));
        }
        if self.next - self.first < self.window {
            return Some(OutAction::Pick);
        }
        None
    }

    /// The window was answered.
    fn set_window(&mut self, first: u64, next: u64)
        ensures { self.new ≡ (sending_step self.old (OutEvent.WindowIs first next)).0 }
    {
        if first <= next {
            self.ready = true;
            self.first = first;
            self.next = next;
            self.cursor = first;
            self.acked = None;
        }
    }

    /// A datagram was picked.
    fn picked(&mut self, number: u64)
        ensures { self.new ≡ (sending_step self.old (OutEvent.Picked number)).0 }
    {
        if self.ready && number == self.next && number < u64::MAX {
            self.next = number + 1;
        }
    }

    /// A payload was fetched: the message that sends it with its limit, if it is the one at the cursor.
    fn fetched<'a>(
        &mut self,
        number: u64,
        limit: u64,
        payload: &'a [u8],
    ) -> Option<OutAction<&'a [u8]>>
        ensures state { self.new ≡ (sending_step self.old (OutEvent.Fetched number limit payload.now)).0 }
        ensures action { option_map out_action_bytes result
            ≡ (sending_step self.old (OutEvent.Fetched number limit payload.now)).1 }
    {
        if !self.ready || number != self.cursor || self.cursor >= self.next {
            return None;
        }
        self.cursor = number + 1;
        Some(self.data_action(number, limit, payload))
    }

    /// The message that sends a number again, with the limit and the payload that were fetched for it. The core stays
    /// as it is. `None` unless the number is in flight and was sent since the core learned the window or, if that is
    /// later, since the last `Timeout`: the other numbers are still to be sent in order.
    pub fn repeat<'a>(
        &self,
        number: u64,
        limit: u64,
        payload: &'a [u8],
    ) -> Option<OutAction<&'a [u8]>>
        ensures { option_map out_action_bytes result ≡ repeat_action self.now number limit payload.now }
    {
        if !self.ready || number < self.first || number >= self.cursor {
            return None;
        }
        Some(self.data_action(number, limit, payload))
    }

    /// The action that sends this payload and its limit to the hop's station under this number.
    fn data_action<'a>(&self, number: u64, limit: u64, payload: &'a [u8]) -> OutAction<&'a [u8]>
        ensures { out_action_bytes result ≡
            OutAction.Send (Message.Data self.now.own self.now.hop number limit payload.now) }
    {
        OutAction::Send(Message::Data {
            from: self.own,
            to: self.hop,
            number,
            limit,
            payload,
        })
    }

    /// A release was answered: the acknowledged numbers leave the flight.
    fn released(&mut self)
        ensures { self.new ≡ after_release self.old self.old.acked }
    {
        if let Some(number) = self.acked.take() {
            self.first = number + 1;
            self.cursor = self.cursor.max(self.first);
        }
    }

    /// The hop's station acknowledges all numbers up to `last`.
    fn acknowledged(&mut self, from: StationId, to: StationId, last: u64)
        ensures { self.new ≡ after_custody self.old from to last }
    {
        if from == self.hop
            && to == self.own
            && self.ready
            && self.first <= last
            && last < self.next
        {
            self.acked = Some(self.acked.map_or(last, |number| number.max(last)));
        }
    }
}

/// Whether the core must ask for the window again after this refusal, since the flight is uncertain.
fn is_unsure_answer(refusal: Refusal) -> bool
    ensures { result ≡ is_unsure refusal }
{
    matches!(
        refusal,
        Refusal::NeverSent
            | Refusal::NotInFlight
            | Refusal::Broken
            | Refusal::Unsure
            | Refusal::Lost
    )
}
