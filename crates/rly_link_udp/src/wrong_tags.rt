ghost use Rattle.std.specs.Prelude.{◌≡◌};
ghost use Rattle.rly_link_udp.specs.WrongTags.{HasNotedTags};
ghost use Rattle.rly_station.specs.Kinds.{no_kind};

use rly_link::Worker;
use rly_station::{KindCount, Logger, Warning};

/// Logs the packets with a wrong tag of a worker's link: the first, and each thousandth.
#[derive(Drop)]
pub(crate) struct WrongTags {
    worker: Worker,
    kind: KindCount,
    teller: Logger,
}

impl WrongTags {
    /// None yet.
    pub(crate) fn new(worker: Worker, teller: Logger) -> WrongTags
        ensures { result ≡ record { worker = worker; kind = no_kind; teller = teller } }
    {
        WrongTags {
            worker,
            kind: KindCount::new(),
            teller,
        }
    }

    /// Their count rose from `before` to `count` at a moment, if it did.
    pub(crate) fn note(&mut self, before: u64, count: u64, now: u64)
        ensures { HasNotedTags before count now self.old self.new }
    {
        if before >= count {
            return;
        }
        let worker = self.worker;
        if self.kind.add(now).is_some() {
            self.teller.log(Warning::WrongTag { worker, count });
        }
    }
}
