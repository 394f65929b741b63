// The clock and the stop flag of a worker.
ghost use Rattle.std.specs.Prelude.{◌≡◌, ◌≤◌, ◌∷◌, [], Bool, List, Option, true, ℕ};
ghost use Rattle.rly_link.specs.declared.turn.Go.{Go as AGo};
ghost use Rattle.rly_link.specs.declared.turn.Point.{Point as APoint};
ghost use Rattle.rly_link.specs.declared.turn.Worker.{Worker as AWorker};
ghost use Rattle.rly_link.specs.LinkHistory.{TellsMore};

use rly_core::{HopId, PeerId};
use std::sync::Wait;

/// The identity of a worker.
#[derive(Clone, Copy, Debug, PartialEq, Eq)]
pub enum Worker {
    /// The one that receives from this peer.
    Receiver(PeerId),
    /// The one that sends to this hop.
    Sender(HopId),
}

/// A point in a worker's loop.
#[derive(Clone, Copy, PartialEq, Eq)]
pub enum Point {
    /// Before a turn.
    Start,
    /// After its link returned from a receive.
    Heard,
    /// Before a call.
    Call,
    /// After a call was answered, or failed because the queue is closed.
    Answered,
}

/// A tick: the time that a worker gets at a point.
#[derive(Clone, Copy, PartialEq, Eq)]
pub struct Go {
    /// The wall clock, in microseconds since the Unix epoch, for contacts, stamps and picks. It falls if the clock
    /// is set back.
    pub now: u64,
    /// The monotonic clock, in microseconds since some moment, for waiting times.
    pub since: u64,
    /// Whether the worker continues, at the start of a turn.
    pub on: bool,
}

/// Gives a worker the time of each turn, and stops it; it has no other effect.
pub trait Turn {
    /// The ticks so far, with their worker and point, if it records them.
    ghost told: { Self → Option (List (AWorker × APoint × AGo)) };

    /// Whether it never stops a worker. No call changes that.
    ghost endless: { Self → Bool };

    /// The monotonic time of the last tick.
    ghost latest: { Self → ℕ };

    /// A worker has reached this point. It ends if `on` is false at `Start`. The time at `Heard` is that of the
    /// turn; the time at `Answered` is that of the call's answer.
    fn between<R: Wait>(&mut self, rt: &R, worker: Worker, point: Point) -> Go
        ensures told { TellsMore (told self.old) (told self.new) ((worker, point, result) ∷ []) }
        ensures endless { (endless self.new ≡ endless self.old) × (endless self.old ≡ true → result.on ≡ true) }
        // The monotonic time never falls, whether ticks are recorded or not.
        ensures since { (latest self.old ≤ result.since) × (latest self.new ≡ result.since) };
}
