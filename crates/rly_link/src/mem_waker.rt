//! A waker in memory. In proofs it records the hops whose senders it woke.

ghost use Rattle.std.specs.Prelude.{◌≡◌, []};
ghost use Rattle.rly_link.specs.Memory.{woken_of};

use crate::waker::Waker;
use http_server::Log;
use rly_core::HopId;

/// A waker in memory: it wakes no thread, and counts its wakes.
#[derive(Drop)]
pub struct MemWaker {
    wakes: u64,
    woken: Log<HopId, ()>,
}

impl MemWaker {
    /// A waker without wakes.
    pub fn new() -> MemWaker
        ensures woken { woken_of result.woken ≡ [] }
        ensures wakes { result.wakes ≡ 0 }
    {
        MemWaker {
            wakes: 0,
            woken: Log::new(),
        }
    }

    /// The number of its wakes.
    pub fn wakes(&self) -> u64
        ensures { result ≡ self.now.wakes }
    {
        self.wakes
    }
}

impl Waker for MemWaker {
    ghost use Rattle.std.specs.Prelude.{Some};
    ghost use Rattle.rly_link.specs.Memory.{woken_of};

    ghost woken = { λ w. Some (woken_of w.woken) };

    fn listen(&mut self, hop: HopId) {
        let _ = hop;
    }

    fn wake(&mut self, hop: HopId) {
        self.wakes = self.wakes.saturating_add(1);
        self.woken = self.woken.and(&hop, &());
    }

    fn wake_all(&mut self) {}
}
