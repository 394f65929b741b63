//! HMAC-SHA-256 (RFC 2104).

ghost use Rattle.std.specs.Prelude.{◌≡◌, ◌-◌, ◌≤◌, ◌++◌, List, length, replicate, ℕ};
ghost use Rattle.sha2.specs.Hashers.{Holds256};
ghost use Rattle.sha2.specs.Sha256.{sha256};
ghost use Rattle.rly_link_auth.specs.Hmac.{hmac_sha256, key_block, xor_block};

use sha2::{Digest, Sha256};
use std::marker::Model;

/// The size of a SHA-256 block in bytes.
const BLOCK: usize = 64;

/// The size of a digest in bytes.
const DIGEST: usize = 32;

/// The key is mixed with these before the text, and before the inner digest.
const INNER_PAD: u8 = 0x36;

const OUTER_PAD: u8 = 0x5c;

/// The HMAC-SHA-256 of a text under a key of any length (RFC 2104, section 2).
#[tactic(auto, unfolding(crate::specs::Hmac::hmac_sha256))]
pub fn hmac_sha256(key: &[u8], text: &[u8]) -> [u8; DIGEST]
    ensures { result ≡ hmac_sha256 key.now text.now }
{
    let block = key_block(key);
    let inner = digest_of(&xor_block(INNER_PAD, &block), text);
    digest_of(&xor_block(OUTER_PAD, &block), &inner)
}

/// A key as a block.
fn key_block(key: &[u8]) -> [u8; BLOCK]
    ensures { result ≡ key_block key.now }
{
    if key.len() <= BLOCK {
        padded_block(key)
    } else {
        padded_block(&Sha256::digest(key))
    }
}

/// Bytes padded with zeros to a whole block.
fn padded_block(bytes: &[u8]) -> [u8; BLOCK]
    requires { length bytes.now ≤ BLOCK }
    ensures { result ≡ bytes.now ++ replicate (64 - length bytes.now) 0 }
{
    let mut block = [0; BLOCK];
    block[..bytes.len()].copy_from_slice(bytes);
    block
}

/// A block, each of its bytes mixed with a byte.
fn xor_block(pad: u8, block: &[u8; BLOCK]) -> [u8; BLOCK]
    ensures { result ≡ xor_block pad block.now }
{
    let mut mixed = [0; BLOCK];
    for (i, byte) in block.iter().enumerate() {
        mixed[i] = byte ^ pad;
    }
    mixed
}

/// The digest of two pieces, concatenated.
fn digest_of(first: &[u8], second: &[u8]) -> [u8; DIGEST]
    ensures { result ≡ sha256 (first.now ++ second.now) }
{
    let mut hasher = Sha256::new();
    hasher.update(first);
    hasher.update(second);
    hasher.finalize()
}

/// A prepared key: its two blocks are hashed once, not for each text. Its model is the key.
#[derive(Drop)]
pub(crate) struct ReadyKey {
    key: [u8; DIGEST],
    inner: Sha256,
    outer: Sha256,
}

impl Model for ReadyKey {
    ghost use Rattle.std.specs.Prelude.{List, ℕ};
    ghost use Rattle.sha2.specs.Hashers.{Holds256};
    ghost use Rattle.rly_link_auth.specs.Hmac.{key_block, xor_block};

    ghost Value = { List ℕ };

    ghost view = { λ k. k.key };

    ghost invariant = { λ k. Holds256 k.inner (xor_block 0x36 (key_block k.key))
        × Holds256 k.outer (xor_block 0x5c (key_block k.key)) };
}

impl ReadyKey {
    /// Prepares this key.
    pub(crate) fn new(key: [u8; DIGEST]) -> ReadyKey
        ensures { result ≡ key }
    {
        let block = key_block(&key);
        ReadyKey {
            key,
            inner: digest_begin(&xor_block(INNER_PAD, &block)),
            outer: digest_begin(&xor_block(OUTER_PAD, &block)),
        }
    }

    /// The HMAC-SHA-256 of a text under the key.
    #[tactic(auto, unfolding(crate::specs::Hmac::hmac_sha256))]
    pub(crate) fn hmac(&self, text: &[u8]) -> [u8; DIGEST]
        ensures { result ≡ hmac_sha256 self.now text.now }
    {
        let inner = digest_end(&self.inner, text);
        digest_end(&self.outer, &inner)
    }
}

/// A digest of this piece, to be continued.
fn digest_begin(first: &[u8]) -> Sha256
    ensures { Holds256 result first.now }
{
    let mut hasher = Sha256::new();
    hasher.update(first);
    hasher
}

/// The digest of what was begun, with this piece after it.
fn digest_end(begun: &Sha256, last: &[u8]) -> [u8; DIGEST]
    ensures { (first : List ℕ) → Holds256 begun.now first → result ≡ sha256 (first ++ last.now) }
{
    let Ok(mut hasher) = begun.clone() else {
        unreachable!();
    };
    hasher.update(last);
    hasher.finalize()
}
