//! The log of packets that come from another address than the one that a link sends to.

ghost use Rattle.std.specs.Prelude.{◌≡◌};
ghost use Rattle.rly_link_log.specs.SourceLog.{HasNotedSource};
ghost use Rattle.rly_station.specs.Kinds.{no_kind};

use rly_link::Worker;
use rly_station::{KindCount, LinkCause, Logger, Warning};
use std::net::SocketAddr;

/// Logs the packets of a worker's link that come from another address than `remote`: the first, and each thousandth.
#[derive(Drop)]
pub struct SourceLog {
    worker: Worker,
    remote: SocketAddr,
    kind: KindCount,
    teller: Logger,
}

impl SourceLog {
    /// None yet.
    pub fn new(worker: Worker, remote: SocketAddr, teller: Logger) -> SourceLog
        ensures { result ≡ record { worker = worker; remote = remote; kind = no_kind; teller = teller } }
    {
        SourceLog {
            worker,
            remote,
            kind: KindCount::new(),
            teller,
        }
    }

    /// A packet came from an address at a moment, in microseconds of the monotonic clock.
    pub fn note(&mut self, from: SocketAddr, now: u64)
        ensures { HasNotedSource from now self.old self.new }
    {
        if from == self.remote {
            return;
        }
        let worker = self.worker;
        let remote = self.remote;
        if let Some(count) = self.kind.add(now) {
            let cause = LinkCause::OtherAddress { from, remote };
            self.teller.log(Warning::Link {
                worker,
                cause,
                count,
            });
        }
    }
}
