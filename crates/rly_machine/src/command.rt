use crate::content::Payload;
use rly_core::{HopId, PeerId};

/// A command, which may change the spool, over payloads of type `C`.
#[derive(Debug, Drop)]
pub enum Command<C> {
    /// A datagram arrives from a neighbour.
    Take {
        /// The neighbour that sent it.
        peer: PeerId,
        /// The neighbour's custody number for it, counted from 1.
        number: u64,
        /// The hop that it is queued for.
        hop: HopId,
        /// Its arrival time, in microseconds of the hop's link clock.
        stamp: u64,
        /// The longest time that it may wait in the queue before a Pick, in microseconds of the hop's link clock; 0 for
        /// no limit.
        limit: u64,
        /// Its payload.
        payload: C,
    },
    /// A contact of a hop is open: expired datagrams at the front of the queue are dropped, CoDel drops some of the
    /// rest, and the next one goes into flight.
    Pick {
        /// The hop whose queue is picked from.
        hop: HopId,
        /// The current time, in microseconds of the hop's link clock.
        now: u64,
    },
    /// The next hop took custody of each datagram in flight up to a number.
    Release {
        /// The hop that took custody.
        hop: HopId,
        /// The last custody number that it took.
        number: u64,
    },
}

/// A query, which changes nothing.
#[derive(Clone, Copy, Debug, PartialEq, Eq)]
pub enum Query {
    /// The payload in flight under a custody number.
    Fetch {
        /// The hop that it is in flight for.
        hop: HopId,
        /// Its custody number.
        number: u64,
    },
    /// The range of custody numbers in flight.
    Window {
        /// The hop.
        hop: HopId,
    },
    /// All counters of a hop.
    Show {
        /// The hop.
        hop: HopId,
    },
}

/// A request of a client.
#[derive(Debug, Drop)]
pub enum Ask {
    /// A command, which may change the spool.
    Command(Command<Payload>),
    /// A query, which changes nothing.
    Query(Query),
}
