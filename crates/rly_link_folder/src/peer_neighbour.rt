// The neighbour station of a peer, played by a folder.
ghost use Rattle.std.specs.Option.{option_map};
ghost use Rattle.std.specs.Prelude.{◌≡◌, ◌⊎◌, ◌≤◌, ◌<◌, ◌+◌, ◌^◌, ◌&&◌, ◌==◌, [], false, None, Some, IfNone, IfOk, IfSome, OnErr};
ghost use Rattle.std.specs.Prelude.{if◌then◌else◌, length, nat_le, nat_lt, take};
ghost use Rattle.rly_folder.specs.FolderModel.{as_file};
ghost use Rattle.rly_folder.specs.FolderCalls.{Faulted, Makes, ReadFile};
ghost use Rattle.rly_folder.specs.Names.{name_of};
ghost use Rattle.rly_folder.specs.declared.name.Area.TheVariants.{Sent};
ghost use Rattle.rly_hop.specs.Payloads.{message_bytes};
ghost use Rattle.rly_hop.specs.Spelling.{IsStation, spelling, write_refusal};
ghost use Rattle.rly_link.specs.LinkHistory.{message_in};
ghost use Rattle.rly_link_folder.specs.InboxCalls.{Reads};
ghost use Rattle.rly_link_folder.specs.PeerNeighbour.{news_if, news_of};

use crate::admission::{destination_bytes, write_after};
use crate::inbox_calls::Joined;
use crate::messages::{message_of, write_packet};
use crate::phase::{is_for_good, phase_covered};
use crate::{Admission, Entry, Inbox, Phase};
use rly_core::Refusal;
use rly_core::limits::MAX_PAYLOAD;
use rly_folder::{Folder, FolderFault, FolderFile};
use rly_hop::{MAX_MESSAGE, Message, StationId};
use std::alloc::Global;
use std::collections::VecDeque;
use std::marker::Model;

/// A message of the station to its neighbour that counts.
#[derive(Clone, Copy)]
enum News {
    Custody(u64),
    Refused { number: u64, refusal: u8 },
}

/// The neighbour station of a peer, played by a folder: it makes Data of the files, in order, and removes each once it is
/// in the station's custody.
#[derive(Drop)]
pub struct PeerNeighbour<F> {
    own: StationId,
    station: StationId,
    rules: Admission,
    window: u64,
    limit: u64,
    probe: u16,
    inbox: Inbox<F>,
    places: VecDeque<u64>,
    phase: Phase,
    sent: u64,
}

impl<F> Model for PeerNeighbour<F> {
    ghost use Rattle.std.specs.Prelude.{◌<◌, ◌^◌};
    ghost use Rattle.rly_hop.specs.Spelling.{IsStation};
    ghost use Rattle.rly_link_folder.specs.Inbox.{custody_of, last_of};
    ghost use Rattle.rly_link_folder.specs.PeerNeighbour.{IsInOrder, Peer};

    ghost Value = { Peer F };

    ghost view = { λ p. record {
      own = p.own;
      station = p.station;
      rules = p.rules;
      window = p.window;
      limit = p.limit;
      probe = p.probe;
      inbox = p.inbox;
      places = p.places.items;
      phase = p.phase;
      sent = p.sent;
    } };

    ghost invariant = { λ p. IsInOrder (custody_of p.inbox) p.sent (last_of p.inbox)
        × (IsStation p.own × IsStation p.station × (p.limit < 2 ^ 40)) };
}

impl<F: Folder> PeerNeighbour<F> {
    ghost use Rattle.rly_link_folder.specs.Inbox.{IsToRelease, custody_of, inbox_folder, last_of};
    ghost use Rattle.rly_link_folder.specs.PeerNeighbour.{CoversIf, CoversTo, EntersAndGives, EntersNext, EntersPlace};
    ghost use Rattle.rly_link_folder.specs.PeerNeighbour.{FailsAtPlace, FailsToFind, FindsIn, Gives, GivesNumber};
    ghost use Rattle.rly_link_folder.specs.PeerNeighbour.{HasSameNumbers, Hears, HearsCustody, Lists, Opens, ServesIf};
    ghost use Rattle.rly_link_folder.specs.PeerNeighbour.{data_with, file_data, has_more, has_window, is_further, limit_with};
    ghost use Rattle.rly_link_folder.specs.PeerNeighbour.{is_on_its_way, is_serving, packet_read, payload_with, phase_read};
    ghost use Rattle.rly_link_folder.specs.PeerNeighbour.{phase_refused, is_pending, question, sent_read, tried_again};

    /// The station `own`, which this folder plays, for the peer's station `station`. At most `window` Data are on their way,
    /// each with the age limit of its file, or with `limit` if that has none, in microseconds; 0 = none. It asks first for the station's last number, by a Data 0 for
    /// the destination `probe`: one that has a route there.
    pub fn new(
        alloc: Global,
        own: StationId,
        station: StationId,
        rules: Admission,
        window: u64,
        limit: u64,
        probe: u16,
        folder: F,
    ) -> Self
        requires stations { IsStation own × IsStation station }
        requires limit { limit < 2 ^ 40 }
        ensures stations { (result.own ≡ own) × (result.station ≡ station) }
        ensures limits { (result.rules ≡ rules) × (result.window ≡ window) × (result.limit ≡ limit) }
        ensures probe { result.probe ≡ probe }
        ensures folder { inbox_folder result.inbox ≡ folder }
        ensures places { result.places ≡ [] }
        ensures phase { result.phase ≡ Phase.Asking }
    {
        PeerNeighbour {
            own,
            station,
            rules,
            window,
            limit,
            probe,
            inbox: Inbox::closed(folder),
            places: VecDeque::new(alloc),
            phase: Phase::Asking,
            sent: 0,
        }
    }

    /// Returns its state, for a report.
    pub fn phase(&self) -> Phase
        ensures { result ≡ self.now.phase }
    {
        self.phase
    }

    /// Returns the folder, for a report.
    pub fn folder(&self) -> &F
        ensures { result.now ≡ inbox_folder self.now.inbox }
    {
        self.inbox.folder()
    }

    /// Handles a packet of the station. The answer to Data 0 opens the folder; a Custody that goes on from the last one, up
    /// to a number that has a file, removes the files up to it; a Refused of a number on its way ends the giving, and one of
    /// Data 0 the asking.
    pub fn hear(&mut self, packet: &[u8])
        ensures { Hears F.state (news_of self.old.own self.old.station (message_in (Some packet.now))) self.old self.new }
    {
        match news_in(message_of(packet), self.own, self.station) {
            Some(News::Custody(custody)) => self.hear_custody(custody),
            Some(News::Refused { number, refusal }) => self.hear_refused(number, refusal),
            None => {}
        }
    }

    /// Writes the next packet for the station at the front of a buffer, and returns its length in bytes, if there is one:
    /// Data 0, or the Data of the next number. If each number is on its way, a file of `new/` gets the next one first.
    pub fn next_packet(&mut self, buffer: &mut [u8]) -> Option<usize>
        requires room { MAX_MESSAGE ≤ length buffer.old }
        ensures bound { IfSome result (λ count. count ≤ length buffer.new) }
        ensures gives { Gives self.old.phase F.state (option_map (λ count. take count buffer.new) result)
            self.old self.new }
    {
        match self.phase {
            Phase::Asking => self.ask(buffer),
            Phase::Serving => self.serve(buffer),
            Phase::Failed => None,
            Phase::Asked => None,
            Phase::QuestionRefused { .. } => None,
            Phase::Apart { .. } => None,
            Phase::Refused { .. } => None,
        }
    }

    /// Returns whether the next call of `next_packet` looks at a file that was listed.
    pub fn has_more(&self) -> bool
        ensures { result ≡ has_more self.now }
    {
        self.is_serving() && self.has_window() && !self.places.is_empty()
    }

    /// Returns whether `again` has something to try.
    pub fn is_pending(&self) -> bool
        ensures pending { result ≡ is_pending self.now }
        ensures settled { result ≡ false → tried_again self.now.phase self.now ≡ self.now }
    {
        match self.phase {
            Phase::Failed | Phase::Asked => true,
            Phase::QuestionRefused { refusal } => !is_for_good(refusal),
            Phase::Serving => self.inbox.custody() < self.sent,
            Phase::Refused { refusal, .. } => !is_for_good(refusal),
            Phase::Asking | Phase::Apart { .. } => false,
        }
    }

    /// Tries again if the station was silent: asks anew if it didn't answer or a call of the folder failed, and gives anew
    /// whatever isn't in its custody. A refusal for good stays.
    pub fn again(&mut self)
        ensures { self.new ≡ tried_again self.old.phase self.old }
    {
        match self.phase {
            Phase::Failed | Phase::Asked => self.phase = Phase::Asking,
            Phase::QuestionRefused { refusal } if !is_for_good(refusal) => self.phase =
                Phase::Asking,
            Phase::Serving => self.restart(),
            Phase::Refused { refusal, .. } if !is_for_good(refusal) => self.restart(),
            Phase::Asking
            | Phase::QuestionRefused { .. }
            | Phase::Apart { .. }
            | Phase::Refused { .. } => {}
        }
    }

    /// Returns the folder.
    pub fn into_folder(self) -> F
        ensures { result ≡ inbox_folder self.inbox }
    {
        self.inbox.into_folder()
    }

    /// Handles a Custody.
    fn hear_custody(&mut self, custody: u64)
        ensures { HearsCustody self.old.phase F.state custody self.old self.new }
    {
        match self.phase {
            Phase::Asked => self.open(custody),
            Phase::Serving => self.cover(custody),
            Phase::Refused { .. } => self.cover(custody),
            Phase::Failed => {}
            Phase::Asking => {}
            Phase::QuestionRefused { .. } => {}
            Phase::Apart { .. } => {}
        }
    }

    /// Handles a Refused.
    fn hear_refused(&mut self, number: u64, refusal: u8)
        ensures { self.new ≡ record self.old { phase = phase_refused self.old.phase self.old number refusal } }
    {
        match self.phase {
            Phase::Serving if self.is_on_its_way(number) => self.phase = Phase::Refused {
                number,
                refusal,
            },
            Phase::Asked if number == 0 => self.phase = Phase::QuestionRefused { refusal },
            _ => {}
        }
    }

    /// Opens the folder to the station's number, and removes the files up to it.
    fn open(&mut self, custody: u64)
        ensures { Opens F.state custody self.old self.new }
    {
        match self.inbox.open_again(custody) {
            Ok(Joined::To(_)) => {
                // A file whose call failed may be in `new/` still: the listing is taken anew, so the files stay in order.
                self.places.clear();
                self.sent = custody;
                self.phase = Phase::Serving;
                self.release(custody);
            }
            Ok(Joined::Apart { least, greatest }) => {
                self.phase = Phase::Apart {
                    custody,
                    least,
                    greatest,
                }
            }
            Err(_) => self.phase = Phase::Failed,
        }
    }

    /// Handles a Custody while the folder is open.
    fn cover(&mut self, custody: u64)
        ensures { CoversIf (is_further self.old custody) F.state custody self.old self.new }
    {
        if self.is_further(custody) {
            self.release(custody);
        }
    }

    /// Removes the files up to the station's number.
    fn release(&mut self, custody: u64)
        requires { IsToRelease self.old.inbox custody }
        ensures { CoversTo F.state custody self.old self.new }
    {
        self.sent = self.sent.max(custody);
        match self.inbox.release(custody) {
            Ok(_) => self.phase = phase_covered(self.phase, custody),
            Err(_) => self.phase = Phase::Failed,
        }
    }

    /// Asks for the station's last number.
    fn ask(&mut self, buffer: &mut [u8]) -> Option<usize>
        requires room { MAX_MESSAGE ≤ length buffer.old }
        ensures bound { IfSome result (λ count. count ≤ length buffer.new) }
        ensures packet { option_map (λ count. take count buffer.new) result ≡ Some (spelling (question self.old)) }
        ensures after { self.new ≡ record self.old { phase = Phase.Asked } }
    {
        self.phase = Phase::Asked;
        let payload = destination_bytes(self.probe);
        self.write_data(0, 0, &payload, buffer)
    }

    /// Gives the next Data, if one more may be on its way.
    fn serve(&mut self, buffer: &mut [u8]) -> Option<usize>
        requires room { MAX_MESSAGE ≤ length buffer.old }
        ensures bound { IfSome result (λ count. count ≤ length buffer.new) }
        ensures serves { ServesIf (has_window self.old) F.state (option_map (λ count. take count buffer.new) result)
            self.old self.new }
    {
        if !self.has_window() {
            return None;
        }
        match self.next_number() {
            Some(number) => self.give(number, buffer),
            None => self.enter_and_give(buffer),
        }
    }

    /// Gives the next file of `new/` a number, and then its Data.
    fn enter_and_give(&mut self, buffer: &mut [u8]) -> Option<usize>
        requires room { MAX_MESSAGE ≤ length buffer.old }
        requires reached { self.old.sent ≡ last_of self.old.inbox }
        ensures bound { IfSome result (λ count. count ≤ length buffer.new) }
        ensures gives { EntersAndGives F.state (option_map (λ count. take count buffer.new) result) self.old self.new }
    {
        match self.enter_next() {
            Some(number) => self.give(number, buffer),
            None => None,
        }
    }

    /// Gives the Data of the next number, whose file is durable.
    fn give(&mut self, number: u64, buffer: &mut [u8]) -> Option<usize>
        requires room { MAX_MESSAGE ≤ length buffer.old }
        requires next { number ≡ self.old.sent + 1 }
        requires durable { number ≤ last_of self.old.inbox }
        ensures bound { IfSome result (λ count. count ≤ length buffer.new) }
        ensures gives { GivesNumber F.state (option_map (λ count. take count buffer.new) result) self.old self.new }
    {
        match self.read(number) {
            Ok(Some(file)) => self.pass(number, &file, buffer),
            Ok(None) => {
                self.phase = Phase::Failed;
                None
            }
            Err(_) => {
                self.phase = Phase::Failed;
                None
            }
        }
    }

    /// Reads the file of a number, and one byte more than a message holds.
    fn read(&mut self, number: u64) -> Result<Option<FolderFile>, FolderFault>
        requires next { number ≡ self.old.sent + 1 }
        requires durable { number ≤ last_of self.old.inbox }
        ensures reads { IfOk result
            (λ found. Reads F.state (name_of Sent number) 8193 (option_map as_file found)
            (inbox_folder self.old.inbox) (inbox_folder self.new.inbox)) }
        ensures err { OnErr result (Makes F.state (ReadFile (name_of Sent number)) Faulted
            (inbox_folder self.old.inbox) (inbox_folder self.new.inbox)) }
        ensures numbers { HasSameNumbers self.old.inbox self.new.inbox }
        ensures rest { self.new ≡ record self.old { inbox = self.new.inbox } }
        ensures above { custody_of self.old.inbox + 1 ≤ number }
    {
        self.inbox.give(number, MAX_PAYLOAD as usize + 1)
    }

    /// Passes the file of the next number on as its Data. One that no message holds is as one that the station refuses.
    fn pass(&mut self, number: u64, file: &FolderFile, buffer: &mut [u8]) -> Option<usize>
        requires room { MAX_MESSAGE ≤ length buffer.old }
        requires next { number ≡ self.old.sent + 1 }
        requires durable { number ≤ last_of self.old.inbox }
        ensures bound { IfSome result (λ count. count ≤ length buffer.new) }
        ensures packet { option_map (λ count. take count buffer.new) result ≡ packet_read self.old (Some (as_file file.now)) }
        ensures after { self.new ≡ record self.old {
          phase = phase_read self.old (Some (as_file file.now));
          sent = sent_read self.old (Some (as_file file.now));
        } }
    {
        if self.rules.payload_length(&file.bytes) as u64 > MAX_PAYLOAD {
            let refusal = Refusal::TooLong.number();
            self.phase = Phase::Refused { number, refusal };
            return None;
        }
        self.sent = number;
        self.write_file(number, file, buffer)
    }

    /// Writes the Data of a file at the front of a buffer.
    fn write_file(&self, number: u64, file: &FolderFile, buffer: &mut [u8]) -> Option<usize>
        requires room { MAX_MESSAGE ≤ length buffer.old }
        requires short { length (payload_with self.now (as_file file.now).bytes) ≤ 8192 }
        ensures bound { IfSome result (λ count. count ≤ length buffer.new) }
        ensures packet { option_map (λ count. take count buffer.new) result
            ≡ Some (spelling (file_data self.now number (as_file file.now))) }
    {
        let limit = self.limit_of(file);
        let Some(destination) = self.rules.destination() else {
            return self.write_data(number, limit, &file.bytes, buffer);
        };
        let mut payload = [0; MAX_PAYLOAD as usize];
        let length = write_after(destination, &file.bytes, &mut payload);
        self.write_data(number, limit, &payload[..length], buffer)
    }

    /// The age limit of a file's Data: its own, or that of all files if it has none.
    fn limit_of(&self, file: &FolderFile) -> u64
        ensures limit { result ≡ limit_with self.now file.now.limit }
        ensures fits { result < 2 ^ 40 }
    {
        if file.limit == 0 {
            self.limit
        } else {
            file.limit
        }
    }

    /// Writes a Data of this station at the front of a buffer.
    fn write_data(
        &self,
        number: u64,
        limit: u64,
        payload: &[u8],
        buffer: &mut [u8],
    ) -> Option<usize>
        requires room { MAX_MESSAGE ≤ length buffer.old }
        requires limit { limit < 2 ^ 40 }
        requires short { length payload.now ≤ 8192 }
        ensures bound { IfSome result (λ count. count ≤ length buffer.new) }
        ensures packet { option_map (λ count. take count buffer.new) result
            ≡ Some (spelling (data_with self.now number limit payload.now)) }
    {
        let message = Message::Data {
            from: self.own,
            to: self.station,
            number,
            limit,
            payload,
        };
        write_packet(message, buffer)
    }

    /// Gives the next file of `new/` the next number, and returns that number: `None` if there is no file, it went aside or
    /// a call failed.
    fn enter_next(&mut self) -> Option<u64>
        requires { self.old.sent ≡ last_of self.old.inbox }
        ensures enters { EntersNext F.state result self.old self.new }
        ensures next { IfSome result (λ number. (number ≡ self.new.sent + 1) × (number ≤ last_of self.new.inbox)) }
    {
        match self.next_place() {
            Ok(Some(place)) => self.enter(place),
            Ok(None) => None,
            Err(_) => {
                self.phase = Phase::Failed;
                None
            }
        }
    }

    /// Gives a file of `new/` the next number, and returns that number.
    fn enter(&mut self, place: u64) -> Option<u64>
        requires { self.old.sent ≡ last_of self.old.inbox }
        ensures some { IfSome result (λ number. EntersPlace F.state place (Some number) self.old self.new) }
        ensures none { IfNone result (EntersPlace F.state place None self.old self.new
            ⊎ FailsAtPlace F.state place self.old self.new) }
        ensures next { IfSome result (λ number. (number ≡ self.new.sent + 1) × (number ≤ last_of self.new.inbox)) }
    {
        match self.inbox.enter_in_place(place, &self.rules) {
            Ok(Entry::Numbered(number)) => Some(number),
            Ok(Entry::Refused(_)) => None,
            Ok(Entry::Gone) => None,
            Err(_) => {
                self.phase = Phase::Failed;
                None
            }
        }
    }

    /// Returns the next file of `new/`.
    fn next_place(&mut self) -> Result<Option<u64>, FolderFault>
        ensures found { IfOk result (λ place. FindsIn self.old.places F.state place self.old self.new) }
        ensures fails { OnErr result (FailsToFind self.old.places F.state self.old self.new) }
        ensures numbers { HasSameNumbers self.old.inbox self.new.inbox }
        ensures rest { self.new ≡ record self.old { inbox = self.new.inbox; places = self.new.places } }
    {
        match self.places.pop_front() {
            Some(place) => Ok(Some(place)),
            None => self.list(),
        }
    }

    /// Lists `new/`, and returns its first file.
    fn list(&mut self) -> Result<Option<u64>, FolderFault>
        ensures found { IfOk result (λ place. Lists F.state place self.old self.new) }
        ensures fails { OnErr result (FailsToFind [] F.state self.old self.new) }
        ensures numbers { HasSameNumbers self.old.inbox self.new.inbox }
        ensures rest { self.new ≡ record self.old { inbox = self.new.inbox; places = self.new.places } }
    {
        let numbers = self.inbox.waiting()?;
        self.places = VecDeque::from_vec(numbers);
        Ok(self.places.pop_front())
    }

    /// Gives anew whatever isn't in the station's custody.
    fn restart(&mut self)
        ensures { self.new ≡ record self.old { phase = Phase.Serving; sent = custody_of self.old.inbox } }
    {
        self.phase = Phase::Serving;
        self.sent = self.inbox.custody();
    }

    /// The next number, if a file has it durably.
    fn next_number(&self) -> Option<u64>
        ensures number { result ≡ (if nat_lt self.now.sent (last_of self.now.inbox) then Some (self.now.sent + 1) else None) }
        ensures reached { IfNone result (self.now.sent ≡ last_of self.now.inbox) }
    {
        let last = self.inbox.last();
        if self.sent < last {
            Some(self.sent + 1)
        } else {
            None
        }
    }

    fn has_window(&self) -> bool
        ensures { result ≡ has_window self.now }
    {
        self.sent - self.inbox.custody() < self.window
    }

    fn is_serving(&self) -> bool
        ensures { result ≡ is_serving self.now.phase }
    {
        matches!(self.phase, Phase::Serving)
    }

    fn is_on_its_way(&self, number: u64) -> bool
        ensures { result ≡ is_on_its_way self.now number }
    {
        self.inbox.custody() < number && number <= self.sent
    }

    /// Whether a Custody goes on from the station's number, to one that a file has.
    fn is_further(&self, custody: u64) -> bool
        ensures { result ≡ is_further self.now custody }
    {
        self.inbox.custody() < custody && custody <= self.inbox.last()
    }
}

/// The news in a message from the station to this one.
fn news_in(message: Option<Message<&[u8]>>, own: StationId, station: StationId) -> Option<News>
    ensures { result ≡ news_of own station (option_map message_bytes message.entry) }
{
    match message {
        Some(Message::Custody { from, to, last }) => {
            news_if(own, station, from, to, News::Custody(last))
        }
        Some(
            Message::Refused {
                from,
                to,
                number,
                refusal,
            },
        ) => news_if(own, station, from, to, News::Refused { number, refusal }),
        Some(Message::Data { .. } | Message::Heard { .. }) | None => None,
    }
}

fn news_if(
    own: StationId,
    station: StationId,
    from: StationId,
    to: StationId,
    said: News,
) -> Option<News>
    ensures { result ≡ news_if own station from to said }
{
    if from == station && to == own {
        Some(said)
    } else {
        None
    }
}
