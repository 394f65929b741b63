//! The steps of two simulated relays.

use crate::spool::Fault;
use rly_core::HopId;
use rly_disk::Torn;
use rly_machine::Ask;

/// A step of two relays. `packet` is an index in the order of sending. An impossible step changes nothing.
#[derive(Drop)]
pub enum Step {
    /// The sending core runs, at this time of the hop's link clock.
    Turns {
        is_open: bool,
        moment: u64,
    },
    /// It is to resend the datagrams in flight.
    Timeout,
    /// A payload is fetched for it before its request.
    FetchesAhead {
        number: u64,
    },
    /// A datagram is picked for it before its request, at this time of the hop's link clock.
    PicksAhead {
        moment: u64,
    },
    /// A packet arrives at the upper.
    UpperHears {
        packet: usize,
    },
    /// A packet arrives at the lower, at this core, which takes it for this hop with this stamp.
    LowerHears {
        packet: usize,
        core: usize,
        hop: HopId,
        stamp: u64,
    },
    /// The first waiting call of an end is made.
    UpperMakes,
    LowerMakes,
    /// The first call that was made at an end gets its reply. The core's message in return goes out, or the send fails.
    UpperAnswers {
        is_sent: bool,
    },
    LowerAnswers {
        is_sent: bool,
    },
    /// Another client's call is made at an end, with an immediate reply or none.
    UpperServes {
        ask: Ask,
        is_answered: bool,
    },
    LowerServes {
        ask: Ask,
        is_answered: bool,
    },
    /// An end crashes, which leaves this image of the pending writes, and is reopened on a device that fails as given.
    UpperCrashes {
        torn: Torn,
        fault: Fault,
    },
    LowerCrashes {
        torn: Torn,
        fault: Fault,
    },
}
