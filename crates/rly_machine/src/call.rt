use crate::command::Ask;
use crate::reply::Reply;

/// The number of a client of a spool; 0 is the first.
#[derive(Clone, Copy, PartialEq, Eq)]
pub struct SeatId(pub u16);

/// A request of a client, with the client's own number.
#[derive(Drop)]
pub struct Call {
    /// The client.
    pub seat: SeatId,
    /// The client's number of the call, counted from 1.
    pub number: u64,
    /// The request.
    pub ask: Ask,
}

/// The reply to a call, with its sender and number.
#[derive(Drop)]
pub struct Answer {
    /// The client that sent the call.
    pub seat: SeatId,
    /// The client's number of the call.
    pub number: u64,
    /// The reply.
    pub reply: Reply,
    /// The number of accepted commands after the reply; if the reply is that the journal is Broken or the device failed
    /// in this round, their number before that round.
    pub position: u64,
}
