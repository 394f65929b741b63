//! The waker of a worker: it ends the waits of workers by their bells.

use crate::bells::Bells;
use http_server::Log;
use rly_core::HopId;
use rly_link::Waker;
use std::alloc::Global;
use std::sync::Arc;

/// The waker of a worker at a station, with the bells of all workers.
#[derive(Drop)]
pub struct SenderWaker {
    bells: Arc<Bells, Global>,
    // The hops whose senders it woke, which take no memory.
    woken: Log<HopId, ()>,
}

impl SenderWaker {
    /// A waker with these bells.
    pub(crate) fn new(bells: Arc<Bells, Global>) -> SenderWaker {
        SenderWaker {
            bells,
            woken: Log::new(),
        }
    }
}

impl Waker for SenderWaker {
    ghost use Rattle.std.specs.Prelude.{Some};
    ghost use Rattle.rly_link.specs.Memory.{woken_of};

    ghost woken = { λ w. Some (woken_of w.woken) };

    fn listen(&mut self, hop: HopId) {
        self.bells.listen(hop);
    }

    fn wake(&mut self, hop: HopId) {
        self.bells.wake(hop);
        self.woken = self.woken.and(&hop, &());
    }

    fn wake_all(&mut self) {
        self.bells.wake_all();
    }
}
