// The neighbour station at the far end of a folder's link.
ghost use Rattle.std.specs.Option.{option_map};
ghost use Rattle.std.specs.Prelude.{◌≡◌, ◌≤◌, Bool, IfSome, List, Option, length, take, ℕ};

use crate::{HopNeighbour, PeerNeighbour};
use rly_folder::Folder;
use rly_hop::MAX_MESSAGE;

/// A neighbour station that a folder plays.
pub trait Neighbour {
    /// A packet of the station came.
    ghost hears: { List ℕ → Self → Self → Type 0 };

    /// This is the next packet for the station, or there was none.
    ghost gives: { Option (List ℕ) → Self → Self → Type 0 };

    /// There may be a packet at once, though the last call gave none.
    ghost more: { Self → Bool };

    /// There is something to try again if nothing comes.
    ghost pending: { Self → Bool };

    /// Another program may have changed the folder.
    ghost wakes: { Self → Self → Type 0 };

    /// Nothing came for a while.
    ghost tries_again: { Self → Self → Type 0 };

    /// Handles a packet of the station.
    fn hear(&mut self, packet: &[u8])
        ensures { hears packet.now self.old self.new };

    /// Writes the next packet for the station at the front of a buffer, and returns its length in bytes, if there is one.
    fn next_packet(&mut self, buffer: &mut [u8]) -> Option<usize>
        requires room { MAX_MESSAGE ≤ length buffer.old }
        ensures bound { IfSome result (λ count. count ≤ length buffer.new) }
        ensures gives { gives (option_map (λ count. take count buffer.new) result) self.old self.new };

    /// Returns whether there may be a packet at once, though the last call gave none.
    fn has_more(&self) -> bool
        ensures { result ≡ more self.now };

    /// Returns whether there is something to try again if nothing comes, so that a wait has to end in a while.
    fn is_pending(&self) -> bool
        ensures { result ≡ pending self.now };

    /// Another program may have changed the folder.
    fn wake(&mut self)
        ensures { wakes self.old self.new };

    /// Nothing came for a while.
    fn again(&mut self)
        ensures { tries_again self.old self.new };
}

impl<F: Folder> Neighbour for HopNeighbour<F> {
    ghost use Rattle.std.specs.Prelude.{false};
    ghost use Rattle.rly_link_folder.specs.HopNeighbour.{GivesReply, HearsPacket, Offers};

    ghost hears = { λ packet old new. HearsPacket F.state packet old new };

    ghost gives = { λ packet old new. GivesReply packet old new };

    ghost more = { λ _. false };

    ghost pending = { λ _. false };

    ghost wakes = { λ old new. Offers F.state old new };

    ghost tries_again = { λ old new. Offers F.state old new };

    fn hear(&mut self, packet: &[u8]) {
        HopNeighbour::hear(self, packet);
    }

    fn next_packet(&mut self, buffer: &mut [u8]) -> Option<usize> {
        HopNeighbour::next_packet(self, buffer)
    }

    fn has_more(&self) -> bool {
        false
    }

    /// The hop gives a Data again that wasn't answered, and whoever makes room wakes the link.
    fn is_pending(&self) -> bool {
        false
    }

    fn wake(&mut self) {
        self.offer();
    }

    fn again(&mut self) {
        self.offer();
    }
}

impl<F: Folder> Neighbour for PeerNeighbour<F> {
    ghost use Rattle.rly_link_folder.specs.PeerNeighbour.{GivesPacket, HearsPacket, IsSame, IsTriedAgain, has_more, is_pending};

    ghost hears = { λ packet old new. HearsPacket F.state packet old new };

    ghost gives = { λ packet old new. GivesPacket F.state packet old new };

    ghost more = { has_more };

    ghost pending = { is_pending };

    ghost wakes = { λ old new. IsSame old new };

    ghost tries_again = { λ old new. IsTriedAgain old new };

    fn hear(&mut self, packet: &[u8]) {
        PeerNeighbour::hear(self, packet);
    }

    fn next_packet(&mut self, buffer: &mut [u8]) -> Option<usize> {
        PeerNeighbour::next_packet(self, buffer)
    }

    fn has_more(&self) -> bool {
        PeerNeighbour::has_more(self)
    }

    fn is_pending(&self) -> bool {
        PeerNeighbour::is_pending(self)
    }

    /// The next packet is looked for in `new/` anyway.
    fn wake(&mut self) {}

    fn again(&mut self) {
        PeerNeighbour::again(self);
    }
}
