// The neighbour station of a hop, played by a folder.
ghost use Rattle.std.specs.Option.{option_map};
ghost use Rattle.std.specs.Prelude.{◌≡◌, ◌≤◌, ◌<◌, ◌^◌, IfNone, IfSome, None, Some, false, length, take};
ghost use Rattle.rly_hop.specs.Payloads.{message_bytes};
ghost use Rattle.rly_hop.specs.Receiving.{receiver, take_reply};
ghost use Rattle.rly_hop.specs.Spelling.{IsMessage, IsStation, spelling, write_refusal};
ghost use Rattle.rly_link.specs.LinkHistory.{message_in};
ghost use Rattle.rly_folder.specs.FolderModel.{file_with};
ghost use Rattle.rly_link_folder.specs.HopNeighbour.{after_reply, data_of, next_reply, offered, reply_of, with_custody, with_refused, with_reply};

use crate::Outbox;
use crate::messages::{message_of, write_packet};
use rly_folder::Folder;
use rly_hop::{InAction, InEvent, MAX_MESSAGE, Message, Receiving, StationId, TakeAnswer};
use std::marker::Model;

/// The messages that wait to be sent: at most one of each kind, since a later Custody says more than one before it, and a
/// refused Data comes again.
#[derive(Clone, Copy)]
struct Replies {
    custody: Option<u64>,
    refused: Option<(u64, u8)>,
    /// A Data was refused since room was last offered, as the folder was full.
    full: bool,
}

/// The neighbour station of a hop, played by a folder: it takes the hop's Data in order, makes files of them, and answers
/// as any station does.
#[derive(Drop)]
pub struct HopNeighbour<F> {
    own: StationId,
    station: StationId,
    core: Receiving,
    outbox: Outbox<F>,
    replies: Replies,
}

impl<F> Model for HopNeighbour<F> {
    ghost use Rattle.std.specs.Prelude.{◌≡◌};
    ghost use Rattle.rly_hop.specs.Receiving.{receiver};
    ghost use Rattle.rly_hop.specs.Spelling.{IsStation};
    ghost use Rattle.rly_link_folder.specs.HopNeighbour.{IsDurable, Neighbour};
    ghost use Rattle.rly_link_folder.specs.Outbox.{greatest_of};

    ghost Value = { Neighbour F };

    ghost view = { λ n. record { core = n.core; outbox = n.outbox; replies = n.replies } };

    ghost invariant = { λ n. (n.core ≡ receiver n.own n.station) × (IsStation n.own × IsStation n.station)
        × IsDurable n.replies.custody (greatest_of n.outbox) };
}

impl<F: Folder> HopNeighbour<F> {
    ghost use Rattle.rly_link_folder.specs.HopNeighbour.{Handles, IsDurable, Offers};
    ghost use Rattle.rly_link_folder.specs.Outbox.{folder_of, greatest_of};

    /// The station `own`, which this folder plays, for the hop of the station `station`. At first it sends nothing.
    pub fn new(own: StationId, station: StationId, outbox: Outbox<F>) -> Self
        requires stations { IsStation own × IsStation station }
        ensures core { result.core ≡ receiver own station }
        ensures outbox { result.outbox ≡ outbox }
        ensures replies { result.replies ≡ record { custody = None; refused = None; full = false } }
    {
        HopNeighbour {
            own,
            station,
            core: Receiving::new(own, station),
            outbox,
            replies: Replies {
                custody: None,
                refused: None,
                full: false,
            },
        }
    }

    /// Returns the folder, for a report.
    pub fn folder(&self) -> &F
        ensures { result.now ≡ folder_of self.now.outbox }
    {
        self.outbox.folder()
    }

    /// Handles a packet that the hop sent: a Data for this station is answered once its file and its number are durable.
    pub fn hear(&mut self, packet: &[u8])
        ensures { Handles F.state (data_of self.old.core (message_in (Some packet.now))) self.old self.new }
    {
        let Some(message) = message_of(packet) else {
            return;
        };
        let Some((number, limit, payload)) = taken_from(&mut self.core, message) else {
            return;
        };
        let answer = self.outbox.take(number, limit, payload);
        let reply = reply_to(&mut self.core, number, answer);
        self.replies.add(reply);
    }

    /// Writes the next packet for the hop at the front of a buffer, and returns its length in bytes, if one waits.
    pub fn next_packet(&mut self, buffer: &mut [u8]) -> Option<usize>
        requires room { MAX_MESSAGE ≤ length buffer.old }
        ensures bound { IfSome result (λ count. count ≤ length buffer.new) }
        ensures packet { option_map (λ count. take count buffer.new) result
            ≡ option_map spelling (next_reply self.old.core self.old.replies) }
        ensures after { self.new ≡ record self.old { replies = after_reply self.old.replies } }
        // The files up to the number of a Custody are durable, and that number is.
        ensures durable { IsDurable self.old.replies.custody (greatest_of self.old.outbox) }
    {
        let message = self.next_reply();
        self.replies.remove_first();
        match message {
            Some(message) => write_packet(message, buffer),
            None => None,
        }
    }

    /// Makes a Custody of the greatest number wait, which nobody asked for, if the hop was told that the folder is full and
    /// now there is room: so the hop learns of it, whatever it was answered in between. A call that failed changes nothing.
    pub fn offer(&mut self)
        ensures { Offers F.state self.old self.new }
    {
        if !self.replies.full {
            return;
        }
        match self.outbox.has_room() {
            Ok(true) => self.replies.offer(self.outbox.greatest()),
            Ok(false) => {}
            Err(_) => {}
        }
    }

    /// The message that is sent next.
    fn next_reply(&self) -> Option<Message<&'static [u8]>>
        ensures reply { option_map message_bytes result ≡ next_reply self.now.core self.now.replies }
        ensures spelled { IfSome result (λ message. write_refusal (message_bytes message) ≡ None) }
    {
        let (from, to) = (self.own, self.station);
        match (self.replies.refused, self.replies.custody) {
            (Some((number, refusal)), _) => Some(Message::Refused {
                from,
                to,
                number,
                refusal,
            }),
            (None, Some(last)) => Some(Message::Custody { from, to, last }),
            (None, None) => None,
        }
    }
}

/// The number, the limit and the payload of a Data for this station, if the message is one. It is answered before the
/// next.
fn taken_from<'a>(core: &mut Receiving, message: Message<&'a [u8]>) -> Option<(u64, u64, &'a [u8])>
    requires idle { core.old.pending ≡ None }
    requires fits { IsMessage (message_bytes message) }
    ensures found { option_map (λ taken. (taken.0, file_with taken.2.now taken.1)) result
        ≡ data_of core.old (Some (message_bytes message.entry)) }
    ensures limit { IfSome result (λ taken. taken.1 < 2 ^ 40) }
    ensures none { IfNone result (core.new ≡ core.old) }
    ensures some { IfSome result (λ taken. core.new ≡ record core.old { pending = Some taken.0 }) }
{
    match message {
        Message::Data {
            number,
            limit,
            payload,
            ..
        } => match core.step(InEvent::Heard(message)) {
            Some(_) => Some((number, limit, payload)),
            None => None,
        },
        Message::Custody { .. } | Message::Refused { .. } | Message::Heard { .. } => None,
    }
}

/// The message to the hop after the Take of this number was answered, if there is one.
fn reply_to<'a>(core: &mut Receiving, number: u64, answer: TakeAnswer) -> Option<Message<&'a [u8]>>
    requires waits { core.old.pending ≡ Some number }
    ensures core { core.new ≡ record core.old { pending = None } }
    ensures reply { option_map message_bytes result ≡ reply_of (take_reply core.old number answer) }
{
    match core.step(InEvent::Answered(answer)) {
        Some(InAction::Send(message)) => Some(message),
        Some(InAction::Take { .. }) | None => None,
    }
}

impl Replies {
    /// Removes the message that was sent.
    fn remove_first(&mut self)
        ensures { self.new ≡ after_reply self.old }
    {
        if self.refused.is_none() {
            self.custody = None;
        }
        self.refused = None;
    }

    fn add_custody(&mut self, last: u64)
        ensures { self.new ≡ with_custody self.old last }
    {
        self.custody = Some(last);
    }

    /// Offers the room of the folder.
    fn offer(&mut self, last: u64)
        ensures { self.new ≡ offered self.old last }
    {
        self.custody = Some(last);
        self.full = false;
    }

    fn add_refused(&mut self, number: u64, refusal: u8)
        ensures { self.new ≡ with_refused self.old number refusal }
    {
        self.refused = Some((number, refusal));
        self.full |= refusal == 6;
    }

    /// Adds a message, if there is one.
    fn add(&mut self, message: Option<Message<&[u8]>>)
        ensures { self.new ≡ with_reply self.old (option_map message_bytes message.entry) }
    {
        match message {
            Some(Message::Custody { last, .. }) => self.add_custody(last),
            Some(
                Message::Refused {
                    number,
                    refusal,
                    ..
                },
            ) => self.add_refused(number, refusal),
            Some(Message::Data { .. } | Message::Heard { .. }) | None => {}
        }
    }
}
