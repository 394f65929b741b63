ghost use Rattle.std.specs.Prelude.{◌≡◌, ℕ, List};

use crate::content::Payload;
use rly_codel::CodelState;
use rly_core::Refusal;
use std::marker::Model;

/// The reply to a command or a query.
#[derive(Drop)]
pub enum Reply {
    /// The datagram was taken under this id.
    Taken(u64),
    /// The datagram was taken before; carries the last number taken from that peer.
    Already(u64),
    /// A datagram went into flight.
    Picked {
        /// Its custody number.
        number: u64,
        /// Its id.
        id: u64,
        /// The ids of the expired datagrams, in order.
        expired: Ids,
        /// The ids of the datagrams that CoDel dropped after those, in order.
        dropped: Ids,
    },
    /// No datagram waits, or all that waited expired.
    Nothing {
        /// The ids of the expired datagrams, in order.
        expired: Ids,
    },
    /// This many datagrams were released.
    Released(u64),
    /// All datagrams in flight have higher numbers.
    Unchanged,
    /// The payload in flight under the requested number, and its limit.
    Bytes {
        /// The payload.
        payload: Payload,
        /// The longest time that it could wait in the queue, 0 for no limit.
        limit: u64,
    },
    /// The custody numbers in flight.
    WindowIs {
        /// The least of them, or `next` if none is in flight.
        first: u64,
        /// The number of the next datagram that goes into flight.
        next: u64,
    },
    /// All counters of a hop.
    Shown(HopStatus),
    /// The request was refused; nothing was done.
    Refused(Refusal),
}

impl Reply {
    ghost use Rattle.std.specs.Prelude.{◌≡◌};
    ghost use Rattle.rly_machine.specs.Accepted.{is_accepted};

    /// Returns true iff it replies to an accepted command.
    pub fn is_accepted(&self) -> bool
        ensures { result ≡ is_accepted self.now }
    {
        matches!(
            self,
            Reply::Taken(_) | Reply::Picked { .. } | Reply::Nothing { .. } | Reply::Released(_)
        )
    }
}

/// All counters of a hop.
#[derive(Clone, Copy, PartialEq, Eq)]
pub struct HopStatus {
    /// Number of datagrams ever taken.
    pub taken: u64,
    /// Number of datagrams that wait in the queue.
    pub queued: u64,
    /// Number of datagrams in flight.
    pub flight: u64,
    /// Number of datagrams that CoDel dropped.
    pub dropped: u64,
    /// Number of datagrams that had expired when a Pick came.
    pub expired: u64,
    /// Number of datagrams that the next hop took custody of.
    pub released: u64,
    /// CoDel's state.
    pub codel: CodelState,
    /// The last time of the link clock, in microseconds.
    pub moment: u64,
}

/// Ids of datagrams, in order.
#[derive(Drop)]
pub struct Ids {
    ids: Vec<u64>,
}

impl Model for Ids {
    ghost Value = { List ℕ };

    ghost view = { λ i. i.ids.items };
}

impl Ids {
    /// Makes a list of these ids.
    pub fn new(ids: Vec<u64>) -> Ids
        ensures { result ≡ ids.items }
    {
        Ids { ids }
    }

    /// Returns the ids.
    pub fn as_slice(&self) -> &[u64]
        ensures { result.now ≡ self.now }
    {
        self.ids.as_slice()
    }
}
