//! Messages and replies, borrowed by the cores with their bytes.

ghost use Rattle.std.specs.Prelude.{◌≡◌, IfOk, List, ℕ};
ghost use Rattle.rly_hop.specs.Payloads.{message_bytes, message_map, out_action_bytes, out_event_bytes};
ghost use Rattle.rly_world.specs.PairCores.{sender_asks, sender_event, take_answer};
ghost use Rattle.rly_world_pair.specs.HelpersStation.{asks_of};
ghost use Rattle.std.specs.Prelude.{Some};

use rly_core::HopId;
use rly_hop::{Message, OutAction, OutEvent, StationId, TakeAnswer};
use rly_machine::{Ask, Command, Payload, Query, Reply};
use std::alloc::{AllocError, Global};

/// Returns the message, with its payload borrowed.
pub(crate) fn borrowed_message<'a>(message: &'a Message<Payload>) -> Message<&'a [u8]>
    ensures { message_bytes result ≡ message.now }
{
    match message {
        Message::Data {
            from,
            to,
            number,
            limit,
            payload,
        } => Message::Data {
            from: *from,
            to: *to,
            number: *number,
            limit: *limit,
            payload: payload.as_slice(),
        },
        Message::Custody { from, to, last } => Message::Custody {
            from: *from,
            to: *to,
            last: *last,
        },
        Message::Refused {
            from,
            to,
            number,
            refusal,
        } => Message::Refused {
            from: *from,
            to: *to,
            number: *number,
            refusal: *refusal,
        },
        Message::Heard {
            from,
            to,
            last,
            bits,
        } => Message::Heard {
            from: *from,
            to: *to,
            last: *last,
            bits: *bits,
        },
    }
}

/// Returns the message, with this payload in place of its own.
pub(crate) fn owned_message(message: Message<&[u8]>, payload: Payload) -> Message<Payload>
    ensures { result ≡ message_map (λ _. payload) (message_bytes message.entry) }
{
    match message {
        Message::Data {
            from,
            to,
            number,
            limit,
            payload: _lent,
        } => Message::Data {
            from,
            to,
            number,
            limit,
            payload,
        },
        Message::Custody { from, to, last } => Message::Custody { from, to, last },
        Message::Refused {
            from,
            to,
            number,
            refusal,
        } => Message::Refused {
            from,
            to,
            number,
            refusal,
        },
        Message::Heard {
            from,
            to,
            last,
            bits,
        } => Message::Heard {
            from,
            to,
            last,
            bits,
        },
    }
}

/// Returns a copy of the payload of a message, empty if it has none.
pub(crate) fn payload_of(alloc: Global, message: &Message<Payload>) -> Result<Payload, AllocError>
    ensures { (from to : StationId) (number limit : ℕ) (payload : List ℕ)
        → message.now ≡ Message.Data from to number limit payload
        → IfOk result (λ copy. copy ≡ payload) }
{
    match message {
        Message::Data { payload, .. } => Payload::copy_of(alloc, payload.as_slice()),
        Message::Custody { .. } | Message::Refused { .. } | Message::Heard { .. } => {
            Ok(Payload::new(Vec::new(alloc)))
        }
    }
}

/// Returns the event for a sending core from the reply to its call.
pub(crate) fn sender_event<'a>(ask: &Ask, reply: &'a Reply) -> OutEvent<&'a [u8]>
    ensures { out_event_bytes result ≡ sender_event ask.now reply.now }
{
    match (reply, ask) {
        (Reply::WindowIs { first, next }, _) => OutEvent::WindowIs {
            first: *first,
            next: *next,
        },
        (Reply::Picked { number, .. }, _) => OutEvent::Picked(*number),
        (Reply::Nothing { .. }, _) => OutEvent::Nothing,
        (Reply::Bytes { payload, limit }, Ask::Query(Query::Fetch { number, .. })) => {
            OutEvent::Fetched {
                number: *number,
                limit: *limit,
                payload: payload.as_slice(),
            }
        }
        (Reply::Released(_), _) => OutEvent::Released,
        (Reply::Unchanged, _) => OutEvent::Unchanged,
        (Reply::Refused(refusal), _) => OutEvent::Refused(*refusal),
        _ => OutEvent::Other,
    }
}

/// Returns the result for a receiving core from the reply to its Take.
pub(crate) fn take_answer(reply: &Reply) -> TakeAnswer
    ensures { result ≡ take_answer reply.now }
{
    match reply {
        Reply::Taken(_) => TakeAnswer::Taken,
        Reply::Already(last) => TakeAnswer::Already(*last),
        Reply::Refused(refusal) => TakeAnswer::Refused(*refusal),
        _ => TakeAnswer::Other,
    }
}

/// Returns the request of a sending core to a hop, with a Pick at this time.
pub(crate) fn named_ask(hop: HopId, moment: u64, action: OutAction<&[u8]>) -> Option<Ask>
    ensures { asks_of result ≡ sender_asks hop moment (Some (out_action_bytes action.entry)) }
{
    match action {
        OutAction::AskWindow => Some(Ask::Query(Query::Window { hop })),
        OutAction::Release(number) => Some(Ask::Command(Command::Release { hop, number })),
        OutAction::Fetch(number) => Some(Ask::Query(Query::Fetch { hop, number })),
        OutAction::Pick => Some(Ask::Command(Command::Pick { hop, now: moment })),
        OutAction::Send(_) => None,
    }
}
