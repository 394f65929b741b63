//! The key of a link.

ghost use Rattle.std.specs.Prelude.{◌≡◌, ◌+◌, ◌-◌, ◌≤◌, ◌++◌, ◌∷◌, [], IfSome, None, Some, drop, length, take};
ghost use Rattle.std.specs.Option.{option_map};
ghost use Rattle.hex.specs.Hex.{encode_lower};
ghost use Rattle.rly_link_auth.specs.Keys.{keys_in, keys_in_lines, line_key, one_key, two_keys, without_end};
ghost use Rattle.rly_link_auth.specs.Seal.{sealed_packet, tag_of, unsealed_packet};
ghost use Rattle.std.specs.Str.{bytes_eq};

use crate::hmac::ReadyKey;
use hex::FromHex;
use std::marker::Model;

/// The size of a key in bytes.
pub const KEY_BYTES: usize = 32;

/// The number of digits in a key's line.
const DIGITS: usize = 64;

/// The size of a key's line in bytes: its digits and the newline.
pub const LINE_BYTES: usize = 65;

/// The size of a tag in bytes.
pub const TAG_BYTES: usize = 16;

/// The keys of a link: the one that it sends with, and an optional second one that it also accepts, for the time of
/// a key change.
#[derive(Drop)]
pub struct Key {
    first: ReadyKey,
    second: Option<ReadyKey>,
}

impl Model for Key {
    ghost use Rattle.rly_link_auth.specs.Keys.{Keys};

    ghost Value = { Keys };

    ghost view = { λ k. record { first = k.first; second = k.second } };
}

impl Key {
    /// Parses the keys of a file: one line of 64 hex digits, or two lines. The last newline may be missing. `None`:
    /// the file has another form.
    #[tactic(auto, unfolding(crate::specs::Keys::keys_in))]
    pub fn read(text: &[u8]) -> Option<Key>
        ensures { result ≡ keys_in text.now }
    {
        keys_in_lines(without_end(text))
    }

    /// The tag of a packet under the sending key.
    pub fn tag(&self, packet: &[u8]) -> [u8; TAG_BYTES]
        ensures { result ≡ tag_of self.now.first packet.now }
    {
        tag_under(&self.first, packet)
    }

    /// Writes a packet with its tag to the front of `out`, and returns the length in bytes.
    pub fn seal(&self, packet: &[u8], out: &mut [u8]) -> usize
        requires { length packet.now + TAG_BYTES ≤ length out.old }
        ensures written { out.new ≡ sealed_packet self.now.first packet.now ++ drop result out.old }
        ensures length { result ≡ length packet.now + TAG_BYTES }
    {
        let tag = self.tag(packet);
        let end = packet.len() + TAG_BYTES;
        out[..packet.len()].copy_from_slice(packet);
        out[packet.len()..end].copy_from_slice(&tag);
        end
    }

    /// The packet before the tag, if the tag is right under an accepted key.
    #[tactic(auto, unfolding(crate::specs::Seal::unsealed_packet))]
    pub fn unseal<'a>(&self, packet: &'a [u8]) -> Option<&'a [u8]>
        ensures value { option_map (λ front. front.now) result ≡ unsealed_packet self.now packet.now }
        ensures front { IfSome result (λ front. front.now ≡ take (length packet.now - TAG_BYTES) packet.now) }
        ensures length { IfSome result (λ front. length front.now + TAG_BYTES ≡ length packet.now) }
    {
        if packet.len() < TAG_BYTES {
            return None;
        }
        let (front, tag) = packet.split_at(packet.len() - TAG_BYTES);
        let is_heard = has_tag(&self.first, front, tag)
            || match &self.second {
                Some(second) => has_tag(second, front, tag),
                None => false,
            };
        is_heard.then_some(front)
    }
}

/// The line of a key in a file.
pub fn key_line(key: &[u8; KEY_BYTES]) -> [u8; LINE_BYTES]
    ensures line { result ≡ encode_lower key.now ++ 10 ∷ [] }
    ensures read { keys_in result ≡ Some (record { first = key.now; second = None }) }
{
    let mut line = [b'\n'; LINE_BYTES];
    let _written = hex::encode_to_slice(key, &mut line[..DIGITS]);
    line
}

/// A text without its last newline.
fn without_end(text: &[u8]) -> &[u8]
    ensures { result.now ≡ without_end text.now }
{
    match text.len().checked_sub(1) {
        Some(last) if text[last] == b'\n' => &text[..last],
        _ => text,
    }
}

/// The keys in one line or two.
fn keys_in_lines(lines: &[u8]) -> Option<Key>
    ensures { result ≡ keys_in_lines lines.now }
{
    if lines.len() == DIGITS {
        return one_key(lines);
    }
    if lines.len() == 2 * DIGITS + 1 && lines[DIGITS] == b'\n' {
        let (first, rest) = lines.split_at(DIGITS);
        return two_keys(first, &rest[1..]);
    }
    None
}

/// The key in a line.
fn one_key(line: &[u8]) -> Option<Key>
    ensures { result ≡ one_key (line_key line.now) }
{
    let first = key_in_line(line)?;
    Some(Key {
        first: ReadyKey::new(first),
        second: None,
    })
}

/// The keys in two lines.
fn two_keys(line: &[u8], other: &[u8]) -> Option<Key>
    ensures { result ≡ two_keys (line_key line.now) (line_key other.now) }
{
    let first = key_in_line(line)?;
    let second = key_in_line(other)?;
    Some(Key {
        first: ReadyKey::new(first),
        second: Some(ReadyKey::new(second)),
    })
}

/// The key that a line of hex digits encodes.
fn key_in_line(line: &[u8]) -> Option<[u8; KEY_BYTES]>
    ensures { result ≡ line_key line.now }
{
    <[u8; KEY_BYTES] as FromHex>::from_hex(line).ok()
}

/// The tag of a packet under a key.
#[tactic(auto, unfolding(crate::specs::Seal::tag_of))]
fn tag_under(key: &ReadyKey, packet: &[u8]) -> [u8; TAG_BYTES]
    ensures { result ≡ tag_of key.now packet.now }
{
    let mut tag = [0; TAG_BYTES];
    tag.copy_from_slice(&key.hmac(packet)[..TAG_BYTES]);
    tag
}

/// Whether this is the tag of a packet under a key.
fn has_tag(key: &ReadyKey, packet: &[u8], tag: &[u8]) -> bool
    requires { length tag.now ≡ TAG_BYTES }
    ensures { result ≡ bytes_eq tag.now (tag_of key.now packet.now) }
{
    is_same(tag, &tag_under(key, packet))
}

/// Whether two tags are equal. Compares all bytes, wherever they differ.
fn is_same(tag: &[u8], right: &[u8; TAG_BYTES]) -> bool
    requires { length tag.now ≡ TAG_BYTES }
    ensures { result ≡ bytes_eq tag.now right.now }
{
    let mut differing = 0;
    for (i, byte) in right.iter().enumerate() {
        differing |= tag[i] ^ *byte;
    }
    differing == 0
}
