//! Authenticated links: a packet carries a 16-byte tag, the front of its HMAC-SHA-256
//! (docs/PROTOCOL.md, "Sealed packets").
//!
//! `Key` is read from a file of one or two lines and seals and unseals packets (`specs/Keys.antt`,
//! `specs/Seal.antt`); `hmac_sha256` meets RFC 2104. `Sealed` is a link over any link: it drops
//! and counts packets with a wrong tag. `StationLink` is a link with or without a key. A
//! `MeteredLink` has counts of its own. That nobody makes a tag without the key is assumed, not
//! proved. Callers: the stations' links, `rly_station`, `rly_daemon_commands`, and the law of
//! keyed links in `rly_world`.
#![tactic(auto)]

mod hmac;
mod key;
mod laws;
mod metered_link;
mod sealed;
mod station_link;

pub use crate::hmac::hmac_sha256;
pub use crate::key::{KEY_BYTES, Key, LINE_BYTES, TAG_BYTES, key_line};
pub use crate::laws::law_seal;
pub use crate::metered_link::MeteredLink;
pub use crate::sealed::Sealed;
pub use crate::station_link::StationLink;
