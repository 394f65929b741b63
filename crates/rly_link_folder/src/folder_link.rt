// A link whose far end is a folder.
ghost use Rattle.std.specs.Option.{option_map};
ghost use Rattle.std.specs.Prelude.{◌≡◌, ◌≤◌, IfNone, IfOk, IfSome, IsOk, None, OnErr, OnOk, Some, length, take};
ghost use Rattle.rly_link.specs.LinkHistory.{FailuresRose};
ghost use Rattle.rly_link_folder.specs.FolderLink.{FindsNone, FindsNothing, IsAfter, Rests, bell_sleep};

use crate::Neighbour;
use rly_hop::MAX_MESSAGE;
use rly_link::{Link, LinkFault, Sleep};

/// A link whose far end is a folder, which plays the neighbour station. A packet that comes to its bell, another link, says
/// that another program changed the folder, and carries nothing. If a wait of the bell ends with nothing the neighbour
/// tries again. While it has something to try again each wait has an end, the last moment of a clock; so a bell has to end such
/// a wait by itself after a while.
#[derive(Drop)]
pub struct FolderLink<N, L> {
    neighbour: N,
    bell: L,
}

impl<N: Neighbour, L: Link> FolderLink<N, L> {
    /// Makes a link over a neighbour and a bell. Nothing is sent or waited for yet.
    pub fn new(neighbour: N, bell: L) -> Self
        ensures neighbour { result.neighbour ≡ neighbour }
        ensures bell { result.bell ≡ bell }
    {
        FolderLink { neighbour, bell }
    }

    /// Returns the neighbour, for a report.
    pub fn neighbour(&self) -> &N
        ensures { result.now ≡ self.now.neighbour }
    {
        &self.neighbour
    }

    /// Returns the neighbour and the bell.
    pub fn into_parts(self) -> (N, L)
        ensures { result ≡ (self.neighbour, self.bell) }
    {
        let FolderLink { neighbour, bell } = self;
        (neighbour, bell)
    }

    /// Waits at the bell, with an end if the neighbour has something to try again.
    fn rest(&mut self, sleep: Sleep, buffer: &mut [u8]) -> Result<(), LinkFault>
        ensures rests { OnOk result (Rests L.heard N.pending N.wakes N.tries_again sleep
            self.old.bell self.new.bell self.old.neighbour self.new.neighbour) }
        ensures fails { OnErr result (self.new.neighbour ≡ self.old.neighbour) }
        ensures rise { OnErr result (FailuresRose (L.failed self.old.bell) (L.failed self.new.bell)) }
        ensures no_failure { OnOk result (L.failed self.new.bell ≡ L.failed self.old.bell) }
    {
        let sleep = bell_sleep(self.neighbour.is_pending(), sleep);
        match self.bell.recv(sleep, buffer) {
            Ok(Some(_)) => {
                self.neighbour.wake();
                Ok(())
            }
            Ok(None) => {
                self.silence(sleep);
                Ok(())
            }
            Err(fault) => Err(fault),
        }
    }

    /// A receive of the bell ended with nothing.
    fn silence(&mut self, sleep: Sleep)
        ensures neighbour { IsAfter N.wakes N.tries_again None sleep self.old.neighbour self.new.neighbour }
        ensures bell { self.new.bell ≡ self.old.bell }
    {
        match sleep {
            Sleep::No => {}
            Sleep::Until(_) => self.neighbour.again(),
            Sleep::Woken => self.neighbour.again(),
        }
    }
}

impl<N: Neighbour, L: Link> Link for FolderLink<N, L> {
    ghost heard = { λ _. None };

    ghost sent = { λ _. None };

    ghost failed = { λ l. L.failed l.bell };

    /// Returns the neighbour's next packet, if there is one and a message of any length fits into the buffer. If there is
    /// none it waits at the bell, and returns none.
    fn recv(&mut self, sleep: Sleep, buffer: &mut [u8]) -> Result<Option<usize>, LinkFault>
        ensures bound { IfOk result (λ found. IfSome found (λ count. count ≤ length buffer.new)) }
        ensures rise { OnErr result (FailuresRose (L.failed self.old.bell) (L.failed self.new.bell)) }
        ensures no_failure { OnOk result (L.failed self.new.bell ≡ L.failed self.old.bell) }
        ensures packet { IfOk result (λ found. IfSome found (λ count. (self.new.bell ≡ self.old.bell)
            × N.gives (Some (take count buffer.new)) self.old.neighbour self.new.neighbour)) }
        ensures none { IfOk result (λ found. IfNone found (FindsNone L.heard N.gives N.more N.pending N.wakes N.tries_again
            sleep (length buffer.old) self.old.bell self.new.bell self.old.neighbour self.new.neighbour)) }
        ensures fails { OnErr result (FindsNothing N.gives (length buffer.old) self.old.neighbour self.new.neighbour) }
    {
        if buffer.len() < MAX_MESSAGE {
            self.rest(sleep, buffer)?;
            return Ok(None);
        }
        if let Some(count) = self.neighbour.next_packet(buffer) {
            return Ok(Some(count));
        }
        if !self.neighbour.has_more() {
            self.rest(sleep, buffer)?;
        }
        Ok(None)
    }

    /// Passes a packet to the neighbour. It doesn't fail.
    fn send(&mut self, packet: &[u8]) -> Result<(), LinkFault>
        ensures rise { OnErr result (FailuresRose (L.failed self.old.bell) (L.failed self.new.bell)) }
        ensures no_failure { OnOk result (L.failed self.new.bell ≡ L.failed self.old.bell) }
        ensures ok { IsOk result }
        ensures hears { N.hears packet.now self.old.neighbour self.new.neighbour }
        ensures bell { self.new.bell ≡ self.old.bell }
    {
        self.neighbour.hear(packet);
        Ok(())
    }

    /// The number of failed calls of the bell.
    fn failures(&self) -> u64 {
        self.bell.failures()
    }
}

/// The wait at the bell of a neighbour that has something to try again, or not.
fn bell_sleep(is_pending: bool, sleep: Sleep) -> Sleep
    ensures { result ≡ bell_sleep is_pending sleep }
{
    match sleep {
        Sleep::Woken if is_pending => Sleep::Until(u64::MAX),
        _ => sleep,
    }
}
