//! The log of a spool.

ghost use Rattle.std.specs.Prelude.{◌≡◌, ◌≤◌, [], IfOk, length, map};
ghost use Rattle.rly_spool_log.specs.SpoolLog.{after_answer, after_answers, after_asked, after_discard, after_discards};
ghost use Rattle.rly_spool_log.specs.SpoolLog.{after_gone, after_load, after_stored, asked_of, is_filling, is_relieved};
ghost use Rattle.rly_spool_log.specs.SpoolLog.{new_log};
ghost use Rattle.rly_station.specs.Warnings.{logged_warnings};

use crate::asked::{Asked, add_all};
use crate::hop_log::HopLog;
use crate::takes::{Stored, Takes};
use rly_core::{HopId, limits};
use rly_machine::{Answer, Call, Reply};
use rly_station::{Discard, Load, Logger, SpoolWarning, Warning};
use std::alloc::{AllocError, Global};
use std::collections::VecDeque;
use std::marker::Model;

/// The log of a spool: it sees the calls of each round, and then their answers. The model: what it knows, and the warnings
/// logged.
#[derive(Drop)]
pub struct SpoolLog {
    /// The most that the spool may hold.
    limits: Load,
    /// 90 % were logged, and 80 % not since.
    is_full: bool,
    /// The calls of the round under way that aren't answered yet.
    asked: VecDeque<Asked>,
    takes: Takes,
    /// The hops, by their numbers: 0 is none.
    hops: Vec<HopLog>,
    teller: Logger,
}

impl Model for SpoolLog {
    ghost use Rattle.std.specs.Prelude.{◌≤◌};
    ghost use Rattle.std.specs.VecDeque.{deque_capacity};
    ghost use Rattle.rly_spool_log.specs.SpoolLog.{SpoolView};
    ghost use Rattle.rly_station.specs.Warnings.{logged_warnings};

    ghost Value = { SpoolView };

    ghost view = { λ s. record {
      limits = s.limits;
      is_full = s.is_full;
      asked = s.asked.items;
      takes = s.takes;
      hops = s.hops.items;
      told = logged_warnings s.teller;
    } };

    ghost invariant = { λ s. 64 ≤ deque_capacity s.asked };
}

impl SpoolLog {
    /// The log of a spool that may hold at most `limits`, with its hops by their numbers, 0 for none. It remembers as many
    /// of the datagrams that are stored from now on. Later calls take no memory.
    pub fn new(
        alloc: Global,
        limits: Load,
        hops: Vec<HopLog>,
        teller: Logger,
    ) -> Result<SpoolLog, AllocError>
        requires items { (1 ≤ limits.items) × (limits.items ≤ 16384) }
        requires none { logged_warnings teller ≡ [] }
        ensures { IfOk result (λ log. log ≡ new_log limits hops.items) }
    {
        let asked = VecDeque::with_capacity(alloc, limits::MAX_ROUND as usize)?;
        let takes = Takes::reserve(alloc, limits.items as usize)?;
        Ok(SpoolLog {
            limits,
            is_full: false,
            asked,
            takes,
            hops,
            teller,
        })
    }

    /// A round of at most 64 calls begins.
    pub fn begin(&mut self, calls: &[Call])
        requires { length calls.now ≤ 64 }
        ensures { self.new ≡ record self.old { asked = map (λ call. asked_of call.ask) calls.now } }
    {
        self.asked.clear();
        add_all(&mut self.asked, calls);
    }

    /// The round was made, and its calls answered so, in order; the spool holds this much after it. `now` is the moment of
    /// the monotonic clock, in microseconds.
    pub fn end(&mut self, answers: &[Answer], used: Load, now: u64)
        ensures { self.new ≡ after_load (after_answers self.old answers.now now) used }
    {
        for answer in answers {
            self.answer(&answer.reply, now);
        }
        self.note_load(used);
    }

    /// The next call of the round was answered so.
    fn answer(&mut self, reply: &Reply, now: u64)
        ensures { self.new ≡ after_answer self.old reply.now now }
    {
        let Some(asked) = self.asked.pop_front() else {
            return;
        };
        match asked {
            Asked::Take {
                peer,
                hop,
                destination,
                stamp,
            } => {
                if let Reply::Taken(id) = reply {
                    let stored = Stored {
                        id: *id,
                        peer,
                        destination,
                        stamp,
                    };
                    self.store(hop, stored);
                }
            }
            Asked::Pick { hop, now: clock } => self.pick(hop, clock, reply, now),
            Asked::Release(hop) => {
                if let Reply::Released(count) = reply {
                    self.release(hop, *count);
                }
            }
            Asked::Query => {}
        }
    }

    /// A Pick was answered so.
    fn pick(&mut self, hop: HopId, clock: u64, reply: &Reply, now: u64)
        ensures { self.new ≡ after_asked self.old (Asked.Pick hop clock) reply.now now }
    {
        match reply {
            Reply::Picked {
                expired,
                dropped,
                ..
            } => {
                self.discard_all(hop, Discard::Expired, clock, expired.as_slice(), now);
                self.discard_all(hop, Discard::Dropped, clock, dropped.as_slice(), now);
            }
            Reply::Nothing { expired } => {
                self.discard_all(hop, Discard::Expired, clock, expired.as_slice(), now);
            }
            _ => {}
        }
    }

    /// A datagram was stored for a hop.
    fn store(&mut self, hop: HopId, stored: Stored)
        ensures { self.new ≡ after_stored self.old hop stored }
    {
        self.takes.push(stored);
        let index = usize::from(hop.0);
        if index >= self.hops.len() {
            return;
        }
        let limit = self.limits.items;
        if let Some(items) = self.hops[index].store(limit) {
            let warning = SpoolWarning::Crowding { hop, items, limit };
            self.teller.log(Warning::Spool(warning));
        }
    }

    /// Datagrams of a hop were discarded, at a moment of its link clock.
    fn discard_all(&mut self, hop: HopId, cause: Discard, clock: u64, ids: &[u64], now: u64)
        ensures { self.new ≡ after_discards self.old hop cause clock ids.now now }
    {
        for id in ids {
            self.discard(hop, cause, clock, *id, now);
        }
        self.release(hop, ids.len() as u64);
    }

    /// A datagram of a hop was discarded.
    fn discard(&mut self, hop: HopId, cause: Discard, clock: u64, id: u64, now: u64)
        ensures { self.new ≡ after_discard self.old hop cause clock id now }
    {
        let index = usize::from(hop.0);
        if index >= self.hops.len() {
            return;
        }
        if let Some(count) = self.hops[index].discard(cause, now) {
            let origin = self.takes.origin(id, clock);
            let warning = SpoolWarning::Discarded {
                hop,
                cause,
                id,
                origin,
                count,
            };
            self.teller.log(Warning::Spool(warning));
        }
    }

    /// This many datagrams of a hop left the spool.
    fn release(&mut self, hop: HopId, count: u64)
        ensures { self.new ≡ after_gone self.old hop count }
    {
        let index = usize::from(hop.0);
        if index < self.hops.len() {
            self.hops[index].release(count, self.limits.items);
        }
    }

    /// The spool holds this much.
    fn note_load(&mut self, used: Load)
        ensures { self.new ≡ after_load self.old used }
    {
        let limits = self.limits;
        if !self.is_full && is_filling(used, limits) {
            self.is_full = true;
            let warning = SpoolWarning::Filling { used, limits };
            self.teller.log(Warning::Spool(warning));
        } else if self.is_full && is_relieved(used, limits) {
            self.is_full = false;
            let warning = SpoolWarning::Relieved { used, limits };
            self.teller.log(Warning::Spool(warning));
        }
    }
}

/// At least 90 % of the datagrams or of the bytes are in use.
fn is_filling(used: Load, limits: Load) -> bool
    ensures { result ≡ is_filling used limits }
{
    u128::from(limits.items) * 9 <= u128::from(used.items) * 10
        || u128::from(limits.bytes) * 9 <= u128::from(used.bytes) * 10
}

/// Fewer than 80 % of both are.
fn is_relieved(used: Load, limits: Load) -> bool
    ensures { result ≡ is_relieved used limits }
{
    u128::from(used.items) * 10 < u128::from(limits.items) * 8
        && u128::from(used.bytes) * 10 < u128::from(limits.bytes) * 8
}
