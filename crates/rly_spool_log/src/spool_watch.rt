//! The watch of a station's spool.

ghost use Rattle.std.specs.Prelude.{◌≡◌, [], IfOk, false};
ghost use Rattle.rly_spool_log.specs.SpoolLog.{first_hops, first_log};
ghost use Rattle.rly_station.specs.Warnings.{logged_warnings};

use crate::hop_log::HopLog;
use crate::spool_log::SpoolLog;
use rly_core::HopId;
use rly_disk::Disk;
use rly_flush::RoundWatch;
use rly_journal::Journal;
use rly_machine::{Answer, Call, Reply};
use rly_station::{Load, Logger, moment_of};
use std::alloc::{AllocError, Global};
use std::marker::Model;
use std::time::Clock;

/// Shows the rounds of a station to the log of its spool, at the moments of a clock. The model is the log's.
#[derive(Drop)]
pub struct SpoolWatch<K: Clock> {
    log: SpoolLog,
    clock: K,
}

impl<K: Clock> Model for SpoolWatch<K> {
    ghost use Rattle.rly_spool_log.specs.SpoolLog.{SpoolView};

    ghost Value = { SpoolView };

    ghost view = { λ w. w.log };
}

impl<K: Clock + Drop> SpoolWatch<K> {
    /// The watch of a journal's spool, which logs to `teller`: nothing yet. Later calls take no memory.
    pub fn new<D: Disk>(
        alloc: Global,
        clock: K,
        journal: &Journal<D>,
        teller: Logger,
    ) -> Result<SpoolWatch<K>, AllocError>
        requires whole { journal.now.broken ≡ false }
        requires none { logged_warnings teller ≡ [] }
        ensures { IfOk result (λ watch. watch ≡ first_log journal.now.state) }
    {
        journal.law_sound();
        let params = journal.params();
        let limits = Load {
            items: params.items,
            bytes: params.bytes,
        };
        let hops = hops_of(alloc, journal)?;
        let log = SpoolLog::new(alloc, limits, hops, teller)?;
        Ok(SpoolWatch { log, clock })
    }
}

impl<K: Clock> RoundWatch for SpoolWatch<K> {
    ghost use Rattle.std.specs.Prelude.{◌≡◌, ◌≤◌, ℕ, None, length, map};
    ghost use Rattle.rly_spool_log.specs.SpoolLog.{after_answers, after_load, asked_of};

    // What it is shown is in the log's model.
    ghost shown = { λ _. None };

    fn begin(&mut self, calls: &[Call])
        requires few { length calls.now ≤ 64 }
        ensures log { self.new ≡ record self.old { asked = map (λ call. asked_of call.ask) calls.now } }
    {
        self.log.begin(calls);
    }

    // At a moment of the clock.
    fn end(&mut self, answers: &[Answer], items: u64, bytes: u64)
        ensures log { (now : ℕ) × (self.new
            ≡ after_load (after_answers self.old answers.now now) (record { items = items; bytes = bytes })) }
    {
        let now = moment_of(self.clock.monotonic().ok());
        self.log.end(answers, Load { items, bytes }, now);
    }
}

/// What a log knows at first of each hop of an opened spool, by their numbers: 0 is none.
fn hops_of<D: Disk>(alloc: Global, journal: &Journal<D>) -> Result<Vec<HopLog>, AllocError>
    requires { journal.now.broken ≡ false }
    ensures { IfOk result (λ hops. hops.items ≡ first_hops journal.now.state) }
{
    journal.law_sound();
    let mut hops = Vec::new(alloc);
    hops.push(HopLog::new(0))?;
    for index in 0..journal.params().hops as u16 {
        let Reply::Shown(status) = journal.ask_show(HopId(index + 1)) else {
            unreachable!()
        };
        hops.push(HopLog::new(status.queued + status.flight))?;
    }
    Ok(hops)
}
