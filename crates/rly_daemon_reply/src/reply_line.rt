ghost use Rattle.std.specs.Prelude.{◌≡◌, ◌≤◌, Some, codes, length};
ghost use Rattle.hex.specs.Hex.{encode_lower};

use crate::status_line::StatusLine;
use rly_core::{HopId, PeerId};
use rly_machine::{Ask, Command, Ids, Payload, Query, Reply};
use std::fmt;

/// The parts of an ask that its reply line repeats.
#[derive(Clone, Copy, PartialEq, Eq)]
pub struct Subject {
    /// The peer of a Take; 0 in any other ask.
    pub peer: PeerId,
    /// The hop.
    pub hop: HopId,
    /// The custody number; 0 in an ask that has none.
    pub number: u64,
}

impl Subject {
    ghost use Rattle.rly_daemon_reply.specs.Replies.{subject_of};

    /// The parts of an ask that its reply repeats.
    pub fn of(ask: &Ask) -> Subject
        ensures { result ≡ subject_of ask.now }
    {
        match ask {
            Ask::Command(
                Command::Take {
                    peer,
                    number,
                    hop,
                    ..
                },
            ) => Subject {
                peer: *peer,
                hop: *hop,
                number: *number,
            },
            Ask::Command(Command::Release { hop, number })
            | Ask::Query(Query::Fetch { hop, number }) => Subject {
                peer: PeerId(0),
                hop: *hop,
                number: *number,
            },
            Ask::Command(Command::Pick { hop, .. })
            | Ask::Query(Query::Window { hop } | Query::Show { hop }) => Subject {
                peer: PeerId(0),
                hop: *hop,
                number: 0,
            },
        }
    }
}

/// A reply with the parts of its ask. It displays as its line, without a newline (`docs/COMMANDS.md`, "Replies").
#[derive(Drop)]
pub struct ReplyLine<'a> {
    /// The repeated parts of the ask.
    pub subject: Subject,
    /// The reply.
    pub reply: &'a Reply,
}

impl fmt::Display for ReplyLine<'_> {
    ghost use Rattle.rly_daemon_reply.specs.Replies.{reply_text};

    ghost output = { λ line. Some (reply_text line.subject line.reply.now) };

    fn fmt<W: fmt::Write>(&self, f: &mut fmt::Formatter<W>) -> fmt::Result {
        let Subject { peer, hop, number } = self.subject;
        let (peer, hop) = (peer.0, hop.0);
        match self.reply {
            Reply::Taken(id) => write!(f, "taken {peer} {id}"),
            Reply::Already(last) => write!(f, "already {peer} {last}"),
            Reply::Picked {
                number,
                id,
                expired,
                dropped,
            } => {
                let (expired, dropped) = (expired_ids(expired), dropped_ids(dropped));
                write!(f, "picked {hop} {number} {id}{expired}{dropped}")
            }
            Reply::Nothing { expired } => write!(f, "nothing {hop}{}", expired_ids(expired)),
            Reply::Released(count) => write!(f, "released {hop} {count}"),
            Reply::Unchanged => write!(f, "unchanged {hop}"),
            Reply::Bytes { payload, limit } => {
                let (payload, limit) = (Hexadecimal { payload }, Limit { limit: *limit });
                write!(f, "bytes {hop} {number} {payload}{limit}")
            }
            Reply::WindowIs { first, next } => write!(f, "window {hop} {first} {next}"),
            Reply::Shown(status) => {
                let hop = self.subject.hop;
                write!(f, "{}", StatusLine { hop, status })
            }
            Reply::Refused(refusal) => write!(f, "{refusal}"),
        }
    }
}

/// Ids after a word, if there are any.
#[derive(Drop)]
struct ListedIds<'a> {
    word: &'static str,
    ids: &'a Ids,
}

impl fmt::Display for ListedIds<'_> {
    ghost use Rattle.rly_daemon_reply.specs.Replies.{listed_text};

    ghost output = { λ listed. Some (listed_text listed.word.now listed.ids.now) };

    #[tactic(auto, unfolding(crate::specs::Replies::listed_text))]
    fn fmt<W: fmt::Write>(&self, f: &mut fmt::Formatter<W>) -> fmt::Result {
        let ids = self.ids.as_slice();
        if ids.is_empty() {
            return Ok(());
        }
        write!(f, " {}{}", self.word, SpacedIds { ids })
    }
}

/// The ids that expired.
fn expired_ids(ids: &Ids) -> ListedIds<'_>
    ensures word { result.word.now ≡ codes "expired" }
    ensures ids { result.ids.now ≡ ids.now }
{
    ListedIds {
        word: "expired",
        ids,
    }
}

/// The ids that were dropped.
fn dropped_ids(ids: &Ids) -> ListedIds<'_>
    ensures word { result.word.now ≡ codes "dropped" }
    ensures ids { result.ids.now ≡ ids.now }
{
    ListedIds {
        word: "dropped",
        ids,
    }
}

/// Ids, each after a space.
#[derive(Drop)]
struct SpacedIds<'a> {
    ids: &'a [u64],
}

impl fmt::Display for SpacedIds<'_> {
    ghost use Rattle.rly_daemon_reply.specs.Replies.{ids_text};

    ghost output = { λ spaced. Some (ids_text spaced.ids.now) };

    #[tactic(auto, using(std::proofs::lemmas::Grind::common_steps), unfolding(crate::specs::Replies::ids_text))]
    fn fmt<W: fmt::Write>(&self, f: &mut fmt::Formatter<W>) -> fmt::Result {
        for id in self.ids {
            write!(f, " {id}")?;
        }
        Ok(())
    }
}

/// A payload in hexadecimal, or a dash if it is empty.
#[derive(Drop)]
struct Hexadecimal<'a> {
    payload: &'a Payload,
}

impl fmt::Display for Hexadecimal<'_> {
    ghost use Rattle.rly_daemon_reply.specs.Replies.{payload_text};

    ghost output = { λ hexadecimal. Some (payload_text hexadecimal.payload.now) };

    #[tactic(auto, unfolding(crate::specs::Replies::payload_text))]
    fn fmt<W: fmt::Write>(&self, f: &mut fmt::Formatter<W>) -> fmt::Result {
        let bytes = self.payload.as_slice();
        if bytes.is_empty() {
            return write!(f, "-");
        }
        write!(f, "{}", Digits { bytes })
    }
}

/// The number of bytes of a payload that are written at once.
const PIECE: usize = 64;

/// Bytes, each as two hexadecimal digits.
#[derive(Drop)]
struct Digits<'a> {
    bytes: &'a [u8],
}

impl fmt::Display for Digits<'_> {
    ghost output = { λ digits. Some (encode_lower digits.bytes.now) };

    fn fmt<W: fmt::Write>(&self, f: &mut fmt::Formatter<W>) -> fmt::Result {
        let mut buffer = [0; 2 * PIECE];
        for piece in self.bytes.chunks(PIECE) {
            f.write_str(digits_of(piece, &mut buffer))?;
        }
        Ok(())
    }
}

/// The digits of at most 64 bytes, in a buffer.
fn digits_of<'a>(bytes: &[u8], buffer: &'a mut [u8; 2 * PIECE]) -> &'a str
    requires { length bytes.now ≤ 64 }
    ensures { result.now ≡ encode_lower bytes.now }
{
    let digits = &mut buffer[..2 * bytes.len()];
    hex::encode_to_slice(bytes, digits).unwrap();
    str::from_utf8(digits).unwrap()
}

/// A limit after a space, if there is one.
#[derive(Drop)]
struct Limit {
    limit: u64,
}

impl fmt::Display for Limit {
    ghost use Rattle.rly_daemon_reply.specs.Replies.{limit_text};

    ghost output = { λ limit. Some (limit_text limit.limit) };

    #[tactic(auto, unfolding(crate::specs::Replies::limit_text))]
    fn fmt<W: fmt::Write>(&self, f: &mut fmt::Formatter<W>) -> fmt::Result {
        let limit = self.limit;
        if limit == 0 {
            return Ok(());
        }
        write!(f, " {limit}")
    }
}
