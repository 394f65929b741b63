//! The asks of callers.

use rly_core::{HopId, PeerId};
use rly_machine::{Ask, Command, Payload, Query};
use std::alloc::Global;
use std::process::Abort;

/// Queries, or the takes of a peer under the numbers from 1 on.
#[derive(Clone, Copy)]
pub(super) enum Asks {
    Windows,
    Takes(u16),
}

/// The ask of this number. Each take has a datagram `A` to hop 1.
pub(super) fn ask_of<R: Abort>(rt: &R, alloc: Global, asks: Asks, number: u64) -> Ask {
    match asks {
        Asks::Windows => Ask::Query(Query::Window { hop: HopId(1) }),
        Asks::Takes(peer) => Ask::Command(Command::Take {
            peer: PeerId(peer),
            number,
            hop: HopId(1),
            stamp: 0,
            limit: 0,
            payload: Payload::new(b"A".to_vec(alloc).expect(rt, "memory")),
        }),
    }
}
