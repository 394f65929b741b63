//! The counts of a station's workers, in atomics that its reporter reads.

use crate::counters::Counters;
use rly_core::PeerId;
use rly_daemon_events::{Rests, rest_at};
use rly_daemon_report::{Counted, LinkReport, PeerReport};
use rly_link::{Sleep, Worker};
use rly_plan::Plan;
use std::alloc::{AllocError, Global};
use std::sync::Arc;
use std::sync::atomic::{AtomicU64, Ordering};

/// The counts of a station's workers. Each atomic has one writer, and a read of several may mix moments: contracts
/// state nothing about values that another thread reads.
#[derive(Drop)]
pub struct Tally {
    peers: Vec<LinkTally>,
    hops: Vec<LinkTally>,
    rounds: AtomicU64,
    segments: AtomicU64,
    /// The senders that rest, if they are watched.
    rests: Option<Arc<Rests, Global>>,
}

/// The counts of a neighbour's link.
#[derive(Drop)]
struct LinkTally {
    heard: AtomicU64,
    custody: AtomicU64,
    refused: AtomicU64,
    malformed: AtomicU64,
    wrong: AtomicU64,
    repeats: AtomicU64,
    heards: AtomicU64,
    /// The moment at which the last packet was received, if one was.
    last: AtomicU64,
}

impl Tally {
    /// A new tally for a plan, all zero.
    pub fn new(alloc: Global, plan: &Plan) -> Result<Tally, AllocError> {
        Ok(Tally {
            peers: new_links(alloc, plan.peer_count())?,
            hops: new_links(alloc, plan.hop_count())?,
            rounds: AtomicU64::new(0),
            segments: AtomicU64::new(0),
            rests: None,
        })
    }

    /// The same, which marks the senders that rest.
    pub fn with_rests(mut self, rests: Arc<Rests, Global>) -> Tally {
        self.rests = Some(rests);
        self
    }

    /// Stores the counts of a worker's link.
    pub fn set_link(&self, worker: Worker, report: &LinkReport) {
        let link = match worker {
            Worker::Receiver(peer) => self.peers.get(place_of(peer.0)),
            Worker::Sender(hop) => self.hops.get(place_of(hop.0)),
        };
        if let Some(link) = link {
            link.set(report);
        }
    }

    /// Stores the number of rounds and of opened segments.
    pub fn set_rounds(&self, rounds: u64, segments: u64) {
        self.rounds.store(rounds, Ordering::SeqCst);
        self.segments.store(segments, Ordering::SeqCst);
    }
}

impl Tally {
    /// A worker's link is about to receive, and waits this long.
    pub fn note_receive(&self, worker: Worker, sleep: Sleep) {
        if let Some(rests) = rest_at(sleep) {
            self.set_rest(worker, rests);
        }
    }

    /// A worker's link sends: its sender doesn't rest.
    pub fn note_send(&self, worker: Worker) {
        self.set_rest(worker, false);
    }

    /// Marks whether a worker rests, if it is a sender and they are watched.
    fn set_rest(&self, worker: Worker, is_resting: bool) {
        if let (Some(rests), Worker::Sender(hop)) = (&self.rests, worker) {
            rests.set(hop, is_resting);
        }
    }
}

/// The counts of this many links, all zero.
fn new_links(alloc: Global, count: usize) -> Result<Vec<LinkTally>, AllocError> {
    let mut links = Vec::new(alloc);
    for _link in 0..count {
        links.push(LinkTally::new())?;
    }
    Ok(links)
}

/// The report of the link at a place: all zero if there is none.
fn report_at(links: &[LinkTally], place: usize) -> LinkReport {
    match links.get(place) {
        Some(link) => link.report(),
        None => LinkReport::new(),
    }
}

impl LinkTally {
    fn new() -> LinkTally {
        LinkTally {
            heard: AtomicU64::new(0),
            custody: AtomicU64::new(0),
            refused: AtomicU64::new(0),
            malformed: AtomicU64::new(0),
            wrong: AtomicU64::new(0),
            repeats: AtomicU64::new(0),
            heards: AtomicU64::new(0),
            last: AtomicU64::new(0),
        }
    }

    /// The moment of a received packet is stored before its count.
    fn set(&self, report: &LinkReport) {
        if let Some(moment) = report.last {
            self.last.store(moment, Ordering::SeqCst);
        }
        self.heard.store(report.heard, Ordering::SeqCst);
        self.custody.store(report.custody, Ordering::SeqCst);
        self.refused.store(report.refused, Ordering::SeqCst);
        self.malformed.store(report.malformed, Ordering::SeqCst);
        self.wrong.store(report.wrong, Ordering::SeqCst);
        self.repeats.store(report.repeats, Ordering::SeqCst);
        self.heards.store(report.heards, Ordering::SeqCst);
    }

    fn report(&self) -> LinkReport {
        let heard = self.heard.load(Ordering::SeqCst);
        let moment = self.last.load(Ordering::SeqCst);
        LinkReport {
            heard,
            custody: self.custody.load(Ordering::SeqCst),
            refused: self.refused.load(Ordering::SeqCst),
            malformed: self.malformed.load(Ordering::SeqCst),
            wrong: self.wrong.load(Ordering::SeqCst),
            repeats: self.repeats.load(Ordering::SeqCst),
            heards: self.heards.load(Ordering::SeqCst),
            last: if heard > 0 { Some(moment) } else { None },
        }
    }
}

/// The index of an id in a list.
fn place_of(id: u16) -> usize {
    usize::from(id).wrapping_sub(1)
}

impl Counters for Arc<Tally, Global> {
    ghost use Rattle.std.specs.Prelude.{None};

    ghost seen = { λ _. None };

    fn look(&mut self) -> Counted {
        let unused = PeerReport {
            peer: PeerId(1),
            link: LinkReport::new(),
        };
        let mut peers = [unused; 64];
        for (place, report) in peers.iter_mut().enumerate() {
            *report = PeerReport {
                peer: PeerId(place as u16 + 1),
                link: report_at(&self.peers, place),
            };
        }
        let mut hops = [LinkReport::new(); 64];
        for (place, report) in hops.iter_mut().enumerate() {
            *report = report_at(&self.hops, place);
        }
        Counted {
            peers,
            hops,
            rounds: self.rounds.load(Ordering::SeqCst),
            segments: self.segments.load(Ordering::SeqCst),
        }
    }
}
