//! Which senders rest, in atomics, with a bell for a change.

ghost use Rattle.std.specs.Prelude.{◌≡◌};
ghost use Rattle.rly_daemon_events.specs.Rests.{rest_at};

use libc::net::{EFD_CLOEXEC, EFD_NONBLOCK, POLLIN, eventfd, poll};
use libc::types::pollfd;
use os::FromRawFd;
use rly_core::HopId;
use rly_link::Sleep;
use std::alloc::{AllocError, Global};
use std::os::fd::{AsRawFd, OwnedFd};
use std::sync::atomic::{AtomicU64, Ordering};

/// The most hops of a plan.
const MOST: usize = 64;

/// The marks of a sender: it doesn't rest, or it does.
const BUSY: u64 = 0;

const RESTING: u64 = 1;

/// Whether the sender of each hop rests, and whether the station has ended. Each mark has one writer. A change of one rings a
/// counter of the system's (`eventfd(2)`), which ends the wait of a reader, or else its next one.
#[derive(Drop)]
pub struct Rests {
    hops: Vec<AtomicU64>,
    ended: AtomicU64,
    bell: OwnedFd,
}

impl Rests {
    /// The marks of this many hops: none rests. `None` if the system has no counter for them.
    pub fn open(alloc: Global, hops: usize) -> Result<Option<Rests>, AllocError> {
        let mut marks = Vec::new(alloc);
        for _hop in 0..hops {
            marks.push(AtomicU64::new(BUSY))?;
        }
        let bell = eventfd(0, EFD_CLOEXEC | EFD_NONBLOCK);
        if bell < 0 {
            return Ok(None);
        }
        Ok(Some(Rests {
            hops: marks,
            ended: AtomicU64::new(0),
            bell: unsafe { OwnedFd::from_raw_fd(bell) },
        }))
    }

    /// A hop's sender rests, or doesn't.
    pub fn set(&self, hop: HopId, rests: bool) {
        let mark = if rests { RESTING } else { BUSY };
        if let Some(place) = self.hops.get(usize::from(hop.0).wrapping_sub(1)) {
            if place.swap(mark, Ordering::SeqCst) != mark {
                self.ring();
            }
        }
    }

    /// Whether each hop's sender rests now, in the order of their ids.
    pub fn now(&self) -> [bool; MOST] {
        let mut marks = [false; MOST];
        for (place, mark) in marks.iter_mut().enumerate() {
            if let Some(hop) = self.hops.get(place) {
                *mark = hop.load(Ordering::SeqCst) == RESTING;
            }
        }
        marks
    }

    /// The station has ended.
    pub fn end(&self) {
        self.ended.store(1, Ordering::SeqCst);
        self.ring();
    }

    /// Whether the station has ended.
    pub fn has_ended(&self) -> bool {
        self.ended.load(Ordering::SeqCst) != 0
    }

    /// Waits until a mark changes or the station ends, at most this many microseconds. A change since the last wait ends it
    /// at once.
    pub fn wait(&self, longest: u64) {
        let mut asked = [pollfd {
            fd: self.bell.as_raw_fd(),
            events: POLLIN,
            revents: 0,
        }];
        let timeout = longest.div_ceil(1_000).min(i32::MAX as u64) as i32;
        let _ready = poll(&mut asked, timeout);
        let _count = libc::read(self.bell.as_raw_fd(), &mut [0; 8]);
    }

    /// Ends the current wait, or else the next one. A counter that is full is readable as well.
    fn ring(&self) {
        let _count = libc::write(self.bell.as_raw_fd(), &1_u64.to_ne_bytes());
    }
}

/// Whether the sender of a link rests while it waits so: unknown if it doesn't wait.
pub fn rest_at(sleep: Sleep) -> Option<bool>
    ensures { result ≡ rest_at sleep }
{
    match sleep {
        Sleep::No => None,
        Sleep::Until(_) => Some(false),
        Sleep::Woken => Some(true),
    }
}
