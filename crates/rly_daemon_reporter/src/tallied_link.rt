//! A neighbour's link that publishes its counts to the reporter.

ghost use Rattle.std.specs.Prelude.{◌≡◌};
ghost use Rattle.rly_daemon_reporter.specs.CountedLink.{new_counted};
ghost use Rattle.rly_daemon_reporter.specs.TalliedLink.{counted_below};

use crate::counted_link::CountedLink;
use crate::tally::Tally;
use rly_daemon_report::LinkReport;
use rly_hop::StationId;
use rly_link::{Link, LinkFault, Sleep, Worker};
use rly_link_auth::MeteredLink;
use std::alloc::Global;
use std::sync::Arc;
use std::time::Clock;

/// The link to a neighbour, which stores its counts in a tally after each call, and before it whether its sender rests.
#[derive(Drop)]
pub struct TalliedLink<L: MeteredLink, C: Clock + Drop> {
    link: CountedLink<L, C>,
    tally: Arc<Tally, Global>,
}

impl<L: MeteredLink, C: Clock + Drop> TalliedLink<L, C> {
    /// The link of a worker between this station and the neighbour's.
    pub fn new(
        link: L,
        worker: Worker,
        own: StationId,
        station: StationId,
        clock: C,
        tally: Arc<Tally, Global>,
    ) -> TalliedLink<L, C>
        ensures { counted_below result ≡ new_counted link worker own station }
    {
        TalliedLink {
            link: CountedLink::new(link, worker, own, station, clock),
            tally,
        }
    }

    /// Stores its counts in the tally.
    fn tell(&self) {
        let below = self.link.link();
        let report = LinkReport::of(&self.link.counts(), below.wrong_tags(), below.heards_sent());
        self.tally.set_link(self.link.worker(), &report);
    }
}

impl<L: MeteredLink, C: Clock + Drop> Link for TalliedLink<L, C> {
    ghost use Rattle.rly_daemon_reporter.specs.TalliedLink.{link_below};

    ghost heard = { λ l. L.heard (link_below l) };

    ghost sent = { λ l. L.sent (link_below l) };

    ghost failed = { λ l. L.failed (link_below l) };

    fn recv(&mut self, sleep: Sleep, buffer: &mut [u8]) -> Result<Option<usize>, LinkFault> {
        self.tally.note_receive(self.link.worker(), sleep);
        let outcome = self.link.recv(sleep, buffer);
        self.tell();
        outcome
    }

    fn send(&mut self, packet: &[u8]) -> Result<(), LinkFault> {
        self.tally.note_send(self.link.worker());
        let outcome = self.link.send(packet);
        self.tell();
        outcome
    }

    fn failures(&self) -> u64 {
        self.link.failures()
    }
}
