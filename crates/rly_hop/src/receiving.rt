ghost use Rattle.std.specs.Prelude.{◌≡◌, List, ℕ};
ghost use Rattle.std.specs.Option.{option_map};
ghost use Rattle.rly_hop.specs.Payloads.{in_action_bytes, in_event_bytes, message_bytes};
ghost use Rattle.rly_hop.specs.Receiving.{is_reported_refusal, receiver, receiving_step, take_reply};

mod event;

use crate::message::{Message, StationId};
pub use crate::receiving::event::{InAction, InEvent, TakeAnswer};
use rly_core::Refusal;
use std::marker::Model;

/// The state machine of the receiving end (`docs/PROTOCOL.md`, "The receiving core"). It handles one Data of its
/// peer station at a time, and sends custody for it only after the answer to that Take.
#[derive(Drop)]
pub struct Receiving {
    own: StationId,
    peer: StationId,
    pending: Option<u64>,
}

impl Model for Receiving {
    ghost use Rattle.rly_hop.specs.Receiver.{Receiver};

    ghost Value = { Receiver };

    ghost view = { λ core. record { own = core.own; peer = core.peer; pending = core.pending } };
}

impl Receiving {
    /// The core of the station `own`, which takes custody from its neighbour `peer_station`. Nothing is pending.
    pub fn new(own: StationId, peer_station: StationId) -> Self
        ensures { result ≡ receiver own peer_station }
    {
        Receiving {
            own,
            peer: peer_station,
            pending: None,
        }
    }

    /// Handles one event: updates the state and returns at most one action.
    pub fn step<'a>(&mut self, event: InEvent<&'a [u8]>) -> Option<InAction<&'a [u8]>>
        ensures state { self.new ≡ (receiving_step self.old (in_event_bytes event.entry)).0 }
        ensures action { option_map in_action_bytes result ≡ (receiving_step self.old (in_event_bytes event.entry)).1 }
    {
        match event {
            InEvent::Heard(
                Message::Data {
                    from,
                    to,
                    number,
                    limit,
                    payload,
                },
            ) if from == self.peer && to == self.own && self.pending.is_none() => {
                self.pending = Some(number);
                Some(InAction::Take {
                    number,
                    limit,
                    payload,
                })
            }
            InEvent::Heard(_) => None,
            InEvent::Answered(answer) => {
                let number = self.pending.take()?;
                let message = self.reply(number, answer)?;
                Some(InAction::Send(message))
            }
            InEvent::Lost => {
                self.pending = None;
                None
            }
        }
    }

    /// The message to the peer station after the Take of this number was answered, if there is one.
    fn reply<'a>(&self, number: u64, answer: TakeAnswer) -> Option<Message<&'a [u8]>>
        ensures { option_map (λ m. InAction.Send (message_bytes m)) result ≡ take_reply self.now number answer }
    {
        match answer {
            TakeAnswer::Taken => Some(self.custody(number)),
            TakeAnswer::Already(last) => Some(self.custody(last)),
            TakeAnswer::Refused(Refusal::Gap(expected)) => {
                expected.checked_sub(1).map(|last| self.custody(last))
            }
            TakeAnswer::Refused(refusal) if is_reported_refusal(refusal) => Some(
                Message::Refused {
                    from: self.own,
                    to: self.peer,
                    number,
                    refusal: refusal.number(),
                },
            ),
            TakeAnswer::Refused(_) | TakeAnswer::Other => None,
        }
    }

    /// The message that acknowledges all numbers up to `last`.
    fn custody<'a>(&self, last: u64) -> Message<&'a [u8]>
        ensures { result ≡ Message.Custody self.now.own self.now.peer last }
    {
        Message::Custody {
            from: self.own,
            to: self.peer,
            last,
        }
    }
}

/// Whether a refusal of a Take for this cause is sent to the peer station.
fn is_reported_refusal(refusal: Refusal) -> bool
    ensures { result ≡ is_reported_refusal refusal }
{
    matches!(
        refusal,
        Refusal::NoSuchPeer
            | Refusal::NoSuchHop
            | Refusal::BadMoment
            | Refusal::TooLong
            | Refusal::Full
            | Refusal::Spent
    )
}
