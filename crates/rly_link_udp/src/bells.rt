//! The bells of a station's workers: each ends the wait of its worker.

use libc::net::{EFD_CLOEXEC, EFD_NONBLOCK, POLLIN, eventfd, poll};
use libc::types::pollfd;
use os::FromRawFd;
use rly_core::{HopId, PeerId};
use rly_link::Worker;
use rly_plan::Plan;
use rly_station::ServeFault;
use std::alloc::{AllocError, Global};
use std::os::fd::{AsRawFd, OwnedFd};
use std::sync::atomic::{AtomicU64, Ordering};

/// The worker asked nothing since its last wait (e.g. while no contact is open): a stored datagram is nothing to wake it
/// for.
const IDLE: u64 = 0;

/// It asked something since its last wait, so a datagram stored from now on may find it waiting.
const LISTENING: u64 = 1;

/// The same, and it waits.
const WAITING: u64 = 2;

/// A datagram was stored since it asked.
const WOKEN: u64 = 3;

/// A bell for each worker of a plan.
#[derive(Drop)]
pub(crate) struct Bells {
    peers: Vec<Bell>,
    hops: Vec<Bell>,
}

impl Bells {
    /// A bell for each worker. `Err` if the system or memory refuses one.
    pub(crate) fn open(alloc: Global, plan: &Plan) -> Result<Bells, ServeFault> {
        let peers = bells_of(alloc, plan.peer_count())?;
        let hops = bells_of(alloc, plan.hop_count())?;
        Ok(Bells { peers, hops })
    }

    /// A datagram was stored for a hop: if the hop's sender asked something since its last wait, this ends its current
    /// wait, or else the next one.
    pub(crate) fn wake(&self, hop: HopId) {
        if let Some(bell) = self.of(Worker::Sender(hop)) {
            bell.wake();
        }
    }

    /// Ends the current wait of a worker, or else its next one.
    pub(crate) fn ring(&self, worker: Worker) {
        if let Some(bell) = self.of(worker) {
            bell.ring();
        }
    }

    /// Ends the current wait of each worker, or else its next one.
    pub(crate) fn wake_all(&self) {
        for bell in &self.peers {
            bell.ring();
        }
        for bell in &self.hops {
            bell.ring();
        }
    }

    /// A hop's sender is about to ask something.
    pub(crate) fn listen(&self, hop: HopId) {
        if let Some(bell) = self.of(Worker::Sender(hop)) {
            bell.listen();
        }
    }

    /// The bell of a worker.
    pub(crate) fn of(&self, worker: Worker) -> Option<&Bell> {
        match worker {
            Worker::Receiver(PeerId(peer)) => at_number(&self.peers, peer),
            Worker::Sender(HopId(hop)) => at_number(&self.hops, hop),
        }
    }
}

/// This many bells.
fn bells_of(alloc: Global, count: usize) -> Result<Vec<Bell>, ServeFault> {
    let mut bells = Vec::new(alloc);
    for _place in 0..count {
        let Some(bell) = Bell::new() else {
            return Err(ServeFault::Worker);
        };
        bells.push(bell).map_err(|_| AllocError)?;
    }
    Ok(bells)
}

/// The bell of the worker with this number, from 1.
fn at_number(bells: &[Bell], number: u16) -> Option<&Bell> {
    bells.get(usize::from(number).checked_sub(1)?)
}

/// A bell: a counter of the system's (`eventfd(2)`), which is readable from a ring until the wait that it ends is over,
/// and a word by which it is rung for a stored datagram only during a wait, and at most once in each. Each of its steps is
/// one atomic (`specs/Bells.antt`, `law_stored_datagram_ends_the_sleep`).
#[derive(Drop)]
pub(crate) struct Bell {
    counter: OwnedFd,
    state: AtomicU64,
}

impl Bell {
    /// A bell that wasn't rung: `None` if the system has no counter for it.
    fn new() -> Option<Bell> {
        let counter = eventfd(0, EFD_CLOEXEC | EFD_NONBLOCK);
        if counter < 0 {
            return None;
        }
        Some(Bell {
            counter: unsafe { OwnedFd::from_raw_fd(counter) },
            state: AtomicU64::new(IDLE),
        })
    }

    /// The worker is about to ask something (`Listens`).
    fn listen(&self) {
        self.state.store(LISTENING, Ordering::SeqCst);
    }

    /// The worker is about to wait (`Begins`). Returns whether it may: not if it was woken.
    pub(crate) fn begin_wait(&self) -> bool {
        let before = self
            .state
            .compare_exchange(LISTENING, WAITING, Ordering::SeqCst, Ordering::SeqCst);
        before != Err(WOKEN)
    }

    /// The worker no longer waits (`Ends`). A ring in between is no loss: what it tells was stored before the next ask.
    pub(crate) fn end_wait(&self) {
        self.state.store(IDLE, Ordering::SeqCst);
        let _count = libc::read(self.counter.as_raw_fd(), &mut [0; 8]);
    }

    /// The worker waits for a ring, at most this many milliseconds, or without an end if -1, unless it was woken.
    pub(crate) fn wait(&self, timeout: i32) {
        if self.begin_wait() {
            let ring = pollfd {
                fd: self.fd(),
                events: POLLIN,
                revents: 0,
            };
            let _ready = poll(&mut [ring], timeout);
        }
        self.end_wait();
    }

    /// The descriptor of its counter.
    pub(crate) fn fd(&self) -> i32 {
        self.counter.as_raw_fd()
    }

    /// A datagram was stored for the worker (`Stores`). One that is idle finds it when it next asks.
    fn wake(&self) {
        if self.state.swap(WOKEN, Ordering::SeqCst) == WAITING {
            self.ring();
        }
    }

    /// Ends the current wait, or else the next one (`Rings`). A counter that is full is readable as well.
    fn ring(&self) {
        let _count = libc::write(self.counter.as_raw_fd(), &1_u64.to_ne_bytes());
    }
}
