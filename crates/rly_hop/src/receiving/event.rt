use crate::message::Message;
use rly_core::Refusal;

/// The answer to a Take.
#[derive(Clone, Copy, PartialEq, Eq)]
pub enum TakeAnswer {
    /// The datagram is stored.
    Taken,
    /// It was stored before; the number is the last one that is stored.
    Already(u64),
    /// It isn't stored.
    Refused(Refusal),
    /// An answer that belongs to no Take.
    Other,
}

/// The events of a receiving core.
#[derive(Clone, Copy, PartialEq, Eq)]
pub enum InEvent<P> {
    /// A message was received.
    Heard(Message<P>),
    /// The Take that the core requested was answered.
    Answered(TakeAnswer),
    /// No answer will come; the datagram may or may not be stored.
    Lost,
}

/// The actions of a receiving core.
#[derive(Clone, Copy, PartialEq, Eq)]
pub enum InAction<P> {
    /// Take the datagram received under this number with this limit, and pass the answer to the core.
    Take { number: u64, limit: u64, payload: P },
    /// Send the message. A failure isn't reported to the core: the neighbour sends again.
    Send(Message<P>),
}
