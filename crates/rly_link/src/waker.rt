// The waker of a worker.
ghost use Rattle.std.specs.Prelude.{◌≡◌, ◌∷◌, [], List, Option};
ghost use Rattle.rly_core.specs.declared.ids.HopId.{HopId as AHop};
ghost use Rattle.rly_link.specs.LinkHistory.{TellsMore};

use rly_core::HopId;

/// Wakes workers. A receiver calls `wake` on its waker, a sender `listen` on its own, and the relay `wake_all`.
pub trait Waker {
    /// The hops whose senders it woke, in order, if it records them.
    ghost woken: { Self → Option (List AHop) };

    /// The sender of this hop is about to ask something: a datagram that is stored for the hop after that wakes it.
    fn listen(&mut self, hop: HopId)
        ensures woken { woken self.new ≡ woken self.old };

    /// A datagram was stored for this hop, whose sender now has work.
    fn wake(&mut self, hop: HopId)
        ensures woken { TellsMore (woken self.old) (woken self.new) (hop ∷ []) };

    /// Ends the current wait of each worker, or else its next one: their relay ends.
    fn wake_all(&mut self)
        ensures woken { woken self.new ≡ woken self.old };
}
