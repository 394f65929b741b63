//! The interfaces of a worker: `Link` sends and receives packets to and from one neighbour, and may
//! lose or reorder them; `Turn` is its clock, whose monotonic time never falls, and its stop flag;
//! `Waker` wakes the sender of a hop that has a new datagram. A `Post` is a worker's identity with
//! one of each. An implementation may record its calls for the contracts (a ghost history,
//! `specs/LinkHistory.antt`); `MemLink`, `MemTurn` and `MemWaker`, for tests, record all.
//! Callers: `rly_threads_workers`. Implementations: `rly_link_udp`, `rly_link_auth`,
//! `rly_link_reorder`, `rly_daemon_reporter`.
#![tactic(auto)]

mod link;
mod mem_link;
mod mem_turn;
mod mem_waker;
mod packet;
mod packet_log;
mod post;
mod turn;
mod waker;

pub use crate::link::{Link, LinkFault, Sleep};
pub use crate::mem_link::MemLink;
pub use crate::mem_turn::MemTurn;
pub use crate::mem_waker::MemWaker;
pub use crate::packet::{MAX_PACKET, law_longest_packet};
pub use crate::packet_log::{PacketLog, bytes_in};
pub use crate::post::Post;
pub use crate::turn::{Go, Point, Turn, Worker};
pub use crate::waker::Waker;
