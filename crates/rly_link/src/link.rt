// The interface of a link to one neighbour.
ghost use Rattle.std.specs.Prelude.{◌≡◌, ◌≤◌, ◌∷◌, [], IfOk, IfSome, List, OnErr, OnOk, Option, length, ℕ};
ghost use Rattle.rly_link.specs.LinkHistory.{FailuresRose, Hearing, TellsMore, new_hearing, packet_of};

/// A call of a link failed.
#[derive(Clone, Copy, PartialEq, Eq, Drop)]
pub struct LinkFault;

/// How long a receive waits for a packet.
#[derive(Clone, Copy, Debug, PartialEq, Eq)]
pub enum Sleep {
    /// Not at all.
    No,
    /// Until this moment of the monotonic clock, in microseconds (`Go::since`), or a wake-up.
    Until(u64),
    /// Until a wake-up.
    Woken,
}

/// A link to one neighbour. It carries packets, whole or not at all, in any order.
pub trait Link {
    /// How long each receive might wait, and the packet that it returned, if the link records them.
    ghost heard: { Self → Option (List Hearing) };

    /// The packets passed to `send`, if the link records them.
    ghost sent: { Self → Option (List (List ℕ)) };

    /// The number of failed calls.
    ghost failed: { Self → ℕ };

    /// Waits for a packet, at most this long, copies it to the front of the buffer, and returns its length in bytes:
    /// `None` if none came. Bytes that don't fit into the buffer are lost.
    fn recv(&mut self, sleep: Sleep, buffer: &mut [u8]) -> Result<Option<usize>, LinkFault>
        ensures bound { IfOk result (λ found. IfSome found (λ count. count ≤ length buffer.new)) }
        ensures heard { TellsMore (heard self.old) (heard self.new)
            (new_hearing sleep (packet_of result buffer.new) ∷ []) }
        ensures sent { sent self.new ≡ sent self.old }
        ensures rise { OnErr result (FailuresRose (failed self.old) (failed self.new)) }
        ensures no_failure { OnOk result (failed self.new ≡ failed self.old) };

    /// Sends a packet, which may be lost on its way.
    fn send(&mut self, packet: &[u8]) -> Result<(), LinkFault>
        ensures sent { TellsMore (sent self.old) (sent self.new) (packet.now ∷ []) }
        ensures heard { heard self.new ≡ heard self.old }
        ensures rise { OnErr result (FailuresRose (failed self.old) (failed self.new)) }
        ensures no_failure { OnOk result (failed self.new ≡ failed self.old) };

    /// The number of failed calls, in 64 bits: once it is at its last value each further call fails.
    fn failures(&self) -> u64
        ensures { result ≡ failed self.now };
}
