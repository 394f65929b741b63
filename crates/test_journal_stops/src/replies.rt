//! The content of a reply, as a plain value for comparison.
use rly_core::Refusal;
use rly_machine::{HopStatus, Reply};

/// The content of a reply.
#[derive(Clone, Copy, PartialEq, Eq)]
pub(crate) enum Told<'a> {
    /// Taken under an id.
    Taken(u64),
    Already(u64),
    /// Picked under a number and an id; these expired and these were dropped.
    Picked(u64, u64, &'a [u64], &'a [u64]),
    /// Nothing; these expired.
    Nothing(&'a [u64]),
    /// This many were released.
    Released(u64),
    Unchanged,
    /// These bytes, and their limit.
    Bytes(&'a [u8], u64),
    WindowIs(u64, u64),
    /// All counters of a hop.
    Shown(HopStatus),
    Refused(Refusal),
}

impl<'a> Told<'a> {
    /// Returns the content of a reply.
    pub(crate) fn by(reply: &'a Reply) -> Self {
        match reply {
            Reply::Taken(id) => Told::Taken(*id),
            Reply::Already(number) => Told::Already(*number),
            Reply::Picked {
                number,
                id,
                expired,
                dropped,
            } => Told::Picked(*number, *id, expired.as_slice(), dropped.as_slice()),
            Reply::Nothing { expired } => Told::Nothing(expired.as_slice()),
            Reply::Released(count) => Told::Released(*count),
            Reply::Unchanged => Told::Unchanged,
            Reply::Bytes { payload, limit } => Told::Bytes(payload.as_slice(), *limit),
            Reply::WindowIs { first, next } => Told::WindowIs(*first, *next),
            Reply::Shown(status) => Told::Shown(*status),
            Reply::Refused(refusal) => Told::Refused(*refusal),
        }
    }
}
