// The interface of what opens a worker's link.
ghost use Rattle.std.specs.Prelude.{◌≡◌, ◌∷◌, ◌++◌, [], IfOk, List};
ghost use Rattle.std.specs.Result.{result_err};
ghost use Rattle.rly_link_udp.specs.declared.opener.OpenerCall.{OpenerCall as ACall};
ghost use Rattle.rly_link_udp.specs.declared.opener.OpenerCall.TheVariants as call;

use rly_link::{Link, Sleep};
use rly_station::{EndFault, Opening};

/// A call of an opener.
#[derive(Clone, Copy)]
pub enum OpenerCall {
    /// The monotonic clock was read, in microseconds.
    Read(u64),
    /// The system was asked for the link: it opened it, or refused it.
    Tried(Option<EndFault>),
    /// The worker waited.
    Waited(Sleep),
    /// A line was logged.
    Told(Opening),
}

/// Opens the link of a worker, and serves it while there is none.
pub trait Opener<L: Link> {
    /// Its calls so far.
    ghost calls: { Self → List ACall };

    /// Returns the moment of the monotonic clock, in microseconds.
    fn now(&mut self) -> u64
        ensures { calls self.new ≡ calls self.old ++ call.Read result ∷ [] };

    /// Asks the system for the link, once. No call of it failed yet. `Err`: the address that the system refused.
    fn open(&mut self) -> Result<L, EndFault>
        ensures calls { calls self.new ≡ calls self.old ++ call.Tried (result_err result) ∷ [] }
        ensures fresh { IfOk result (λ link. L.failed link ≡ 0) };

    /// Waits at most this long for a wake-up.
    fn wait(&mut self, sleep: Sleep)
        ensures { calls self.new ≡ calls self.old ++ call.Waited sleep ∷ [] };

    /// Logs what became of the link.
    fn log(&mut self, opening: Opening)
        ensures { calls self.new ≡ calls self.old ++ call.Told opening ∷ [] };
}
