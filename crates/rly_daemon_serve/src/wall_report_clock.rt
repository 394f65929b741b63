ghost use Rattle.std.specs.Prelude.{◌≡◌, []};
ghost use Rattle.rly_daemon_serve.specs.WallReportClock.{due_moments};

use http_server::Log;
use rly_daemon_reporter::ReportClock;
use rly_station::moment_of;
use std::sync::{OnceLock, Wait};
use std::thread;
use std::time::{Clock, Duration};

/// The length of one sleep if the sleeps are limited, and the most otherwise, in microseconds: the maximum delay until it
/// notices that the relay has ended.
const NAP: u64 = 10_000;

const LONGEST_NAP: u64 = 500_000;

/// Schedules reports by the monotonic clock: one at once, and one every `seconds` seconds. It ends once the stop flag of
/// the relay is set, or after a number of sleeps.
#[derive(Drop)]
pub struct WallReportClock<'a, C: Clock + Drop> {
    clock: C,
    stop_flag: &'a OnceLock<bool>,
    /// Microseconds between two reports, if there are any.
    every: Option<u64>,
    /// The time of the next one, by the monotonic clock. The first one is due at once.
    due: Option<u64>,
    /// The remaining sleeps: no limit if there is no number.
    naps: Option<u64>,
    // The schedule so far, which takes no memory.
    told: Log<Option<u64>, ()>,
}

impl<'a, C: Clock + Drop> WallReportClock<'a, C> {
    /// A report every `seconds` seconds: none if 0. There are at most `naps` sleeps: no limit if 0.
    pub fn new(
        clock: C,
        stop_flag: &'a OnceLock<bool>,
        seconds: u64,
        naps: u64,
    ) -> WallReportClock<'a, C>
        ensures { due_moments result.told ≡ [] }
    {
        WallReportClock {
            clock,
            stop_flag,
            every: interval_of(seconds),
            due: None,
            naps: if naps == 0 { None } else { Some(naps) },
            told: Log::new(),
        }
    }

    /// Sleeps until a report is due, and returns the moment, unless no more are due.
    fn wait<R: Wait>(&mut self, rt: &R) -> Option<u64>
        ensures { self.new ≡ record self.old { due = self.new.due; naps = self.new.naps } }
    {
        let every = self.every?;
        for _nap in rt.forever() {
            if self.stop_flag.get().is_some() {
                return None;
            }
            let passed = moment_of(self.clock.monotonic().ok());
            let due = self.due.unwrap_or(passed);
            if due <= passed {
                self.due = Some(next_due(due, passed, every));
                return Some(moment_of(self.clock.since_1970().ok()));
            }
            if !self.nap(due - passed) {
                return None;
            }
        }
        unreachable!()
    }

    /// Sleeps once, if a sleep is left, at most until the next report is due.
    fn nap(&mut self, left: u64) -> bool
        ensures { self.new ≡ record self.old { naps = self.new.naps } }
    {
        let nap = match self.naps {
            Some(0) => return false,
            Some(naps) => {
                self.naps = Some(naps - 1);
                NAP
            }
            None => left.min(LONGEST_NAP),
        };
        thread::sleep(&self.clock, Duration::from_micros(nap));
        true
    }
}

/// This many seconds in microseconds: none if 0.
fn interval_of(seconds: u64) -> Option<u64> {
    match seconds {
        0 => None,
        _ => Some(seconds.saturating_mul(1_000_000)),
    }
}

/// The time of the next report: one interval after the last due time, or from now if that is past.
fn next_due(due: u64, passed: u64, every: u64) -> u64 {
    let next = due.saturating_add(every);
    if next > passed {
        next
    } else {
        passed.saturating_add(every)
    }
}

impl<'a, C: Clock + Drop> ReportClock for WallReportClock<'a, C> {
    ghost use Rattle.std.specs.Prelude.{Some, map};
    ghost use Rattle.rly_daemon_serve.specs.WallReportClock.{due_moments};

    ghost told = { λ p. Some (due_moments p.told) };

    fn next<R: Wait>(&mut self, rt: &R) -> Option<u64> {
        let moment = self.wait(rt);
        self.told = self.told.and(&moment, &());
        moment
    }
}
