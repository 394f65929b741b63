//! The test assertion, and the device at the start of the tests.
use rly_core::{Geometry, Params};
use std::process::Abort;

/// One hop and one peer, a window of 8, in the smallest device that holds 16 datagrams and 4,096 bytes of payload.
pub(crate) const SMALL: Geometry = Geometry {
    params: Params {
        hops: 1,
        peers: 1,
        items: 16,
        bytes: 4_096,
        ..Params::DEFAULT
    },
    segments: 2,
    length: 82_908,
};

/// Fails the test unless the condition holds, with this message.
pub(crate) fn expect<R: Abort>(rt: &R, holds: bool, what: &str) {
    assert!(rt; holds, "not so: {what}");
}
