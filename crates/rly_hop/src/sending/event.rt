use crate::message::Message;
use rly_core::Refusal;

/// The events of a sending core: its own, and the answers to the calls that it requested.
#[derive(Clone, Copy, PartialEq, Eq)]
pub enum OutEvent<P> {
    /// The core may request a call; `is_open` is whether a contact of its hop is open.
    Turn { is_open: bool },
    /// The numbers in flight are `first` to `next - 1`. An event with `first` above `next` is ignored.
    WindowIs { first: u64, next: u64 },
    /// A datagram entered the flight under this number.
    Picked(u64),
    /// No datagram was left to pick.
    Nothing,
    /// The payload of the datagram in flight under this number, and its limit.
    Fetched { number: u64, limit: u64, payload: P },
    /// The release changed the flight.
    Released,
    /// The release found nothing to release.
    Unchanged,
    /// The call was refused.
    Refused(Refusal),
    /// An answer that belongs to no call of a sending core.
    Other,
    /// A message arrived.
    Heard(Message<P>),
    /// The retransmission timer expired: send the flight again.
    Timeout,
}

/// The actions of a sending core.
#[derive(Clone, Copy, PartialEq, Eq)]
pub enum OutAction<P> {
    /// Ask for the window of the hop.
    AskWindow,
    /// Release the numbers in flight up to this one.
    Release(u64),
    /// Fetch the payload under this number.
    Fetch(u64),
    /// Pick the next datagram.
    Pick,
    /// Send the message. A failure isn't reported to the core: it sends again after a `Timeout`.
    Send(Message<P>),
}
