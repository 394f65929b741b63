//! Payloads give back the bytes of which they are made.
use rly_machine::Payload;
use std::alloc::Global;
use std::process::Abort;

/// Makes payloads of bytes, and reads them back. Reserves at most twice the length for a copy, and nothing for an empty
/// one.
fn expect_given_back<R: Abort>(rt: &R, alloc: Global, bytes: &[u8]) {
    let payload = Payload::copy_of(alloc, bytes).expect(rt, "memory");
    let is_same = payload.as_slice() == bytes;
    let copy = Payload::new(payload.into_bytes()).into_bytes();
    let is_small = copy.capacity() / 2 <= bytes.len();
    expect!(*rt; is_same && is_small && copy.as_slice() == bytes);
}

#[test]
fn payloads_give_their_bytes_back(rt: HostRuntime) {
    for bytes in [[].as_slice(), b"abcdefghijklmnop", &[7; 1_200], &[7; 8_192]] {
        expect_given_back(&rt, rt.alloc(), bytes);
    }
}
