use crate::link::Link;
use crate::turn::{Turn, Worker};
use crate::waker::Waker;

/// A worker of a relay.
#[derive(Drop)]
pub struct Post<L: Link, T: Turn, W: Waker> {
    /// Its identity: a receiver of a peer of the plan, or a sender to a hop of it.
    pub worker: Worker,
    /// Its link to that neighbour.
    pub link: L,
    /// Its clock.
    pub turn: T,
    /// Its waker.
    pub waker: W,
}
