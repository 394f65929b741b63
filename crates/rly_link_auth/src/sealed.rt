//! A link with a key.

ghost use Rattle.std.specs.Prelude.{◌≡◌, ◌≤◌, IfSome, length, option_and_then};
ghost use Rattle.rly_link_auth.specs.SealedLink.{new_sealed, wrong_after};
ghost use Rattle.rly_link_auth.specs.Seal.{unsealed_packet};
ghost use Rattle.rly_link.specs.LinkHistory.{packet_in};

use crate::key::{Key, TAG_BYTES};
use http_server::Log;
use rly_link::{Link, LinkFault, MAX_PACKET, PacketLog, Sleep, bytes_in};
use std::marker::Model;

/// Maximum size of a sealed packet in bytes.
const MAX_SEALED: usize = MAX_PACKET + TAG_BYTES;

/// A link with a key over another link. Its model: the link below, the keys, and the count of wrong tags.
#[derive(Drop)]
pub struct Sealed<L: Link> {
    link: L,
    key: Key,
    wrong: u64,
    given: Log<PacketLog, ()>,
    long: u64,
    /// Each packet is sealed here before it goes out. It isn't cleared between two packets.
    sealed: [u8; MAX_SEALED],
}

impl<L: Link> Model for Sealed<L> {
    ghost use Rattle.rly_link_auth.specs.SealedLink.{SealedView};
    ghost use Rattle.rly_link.specs.Memory.{sent_of};

    ghost Value = { SealedView L };

    ghost view = { λ s. record {
      link = s.link;
      keys = s.key;
      wrong = s.wrong;
      given = sent_of s.given;
      long = s.long;
    } };
}

impl<L: Link> Sealed<L> {
    /// A link that seals and unseals the packets of another.
    pub fn new(link: L, key: Key) -> Sealed<L>
        ensures { result ≡ new_sealed link key }
    {
        Sealed {
            link,
            key,
            wrong: 0,
            given: Log::new(),
            long: 0,
            sealed: [0; MAX_SEALED],
        }
    }

    /// Unwraps the link below.
    pub fn into_link(self) -> L
        ensures { result ≡ self.link }
    {
        self.link
    }

    /// The number of packets dropped for a wrong tag. The count stops at its last value.
    pub fn wrong_tags(&self) -> u64
        ensures { result ≡ self.now.wrong }
    {
        self.wrong
    }

    /// The length in bytes of the packet at the front of a buffer without its tag, if the tag is right. Otherwise
    /// counts a wrong tag.
    fn unseal(&mut self, found: Option<usize>, buffer: &[u8]) -> Option<usize>
        requires { IfSome found (λ count. count ≤ length buffer.now) }
        ensures bound { IfSome result (λ count. count ≤ length buffer.now) }
        ensures packet { packet_in result buffer.now
            ≡ option_and_then (unsealed_packet self.old.keys) (packet_in found buffer.now) }
        ensures wrong { self.new.wrong ≡ wrong_after self.old.keys (packet_in found buffer.now) self.old.wrong }
        ensures same { self.new ≡ record self.old { wrong = self.new.wrong } }
    {
        let count = found?;
        match self.key.unseal(&buffer[..count]) {
            Some(packet) => Some(packet.len()),
            None => {
                self.wrong = self.wrong.saturating_add(1);
                None
            }
        }
    }
}

impl<L: Link> Link for Sealed<L> {
    ghost use Rattle.rly_link_auth.specs.SealedLink.{sealed_failed, sealed_heard, sealed_sent};

    ghost heard = { sealed_heard L.heard };

    ghost sent = { sealed_sent L.sent };

    ghost failed = { sealed_failed L.failed };

    fn recv(&mut self, sleep: Sleep, buffer: &mut [u8]) -> Result<Option<usize>, LinkFault> {
        let found = self.link.recv(sleep, buffer)?;
        Ok(self.unseal(found, buffer))
    }

    /// A packet that is longer than `MAX_PACKET` isn't sent.
    fn send(&mut self, packet: &[u8]) -> Result<(), LinkFault> {
        self.given = self.given.and(&bytes_in(packet), &());
        if packet.len() > MAX_PACKET {
            self.long = self.long.saturating_add(1);
            return Err(LinkFault);
        }
        let count = self.key.seal(packet, &mut self.sealed);
        self.link.send(&self.sealed[..count])
    }

    fn failures(&self) -> u64 {
        self.link.failures().saturating_add(self.long)
    }
}
