//! The vectors of RFC 4231 for HMAC-SHA-256, section 4.
use rly_link_auth::hmac_sha256;
use std::process::Abort;

/// A vector, its key, its text, and the hex digits with which the HMAC begins.
type Vector = (&'static str, &'static [u8], &'static [u8], &'static str);

const VECTORS: [Vector; 7] = [
    (
        "a key of twenty bytes",
        &[0x0b; 20],
        b"Hi There",
        "b0344c61d8db38535ca8afceaf0bf12b881dc200c9833da726e9376c2e32cff7",
    ),
    (
        "a key of four letters",
        b"Jefe",
        b"what do ya want for nothing?",
        "5bdcc146bf60754e6a042426089575c75a003f089d2739839dec58b964ec3843",
    ),
    (
        "a text of fifty bytes",
        &[0xaa; 20],
        &[0xdd; 50],
        "773ea91e36800e46854db8ebd09181a72959098b3ef8c122d9635514ced565fe",
    ),
    (
        "a key of twenty-five bytes",
        &[
            1, 2, 3, 4, 5, 6, 7, 8, 9, 10, 11, 12, 13, 14, 15, 16, 17, 18, 19, 20, 21, 22, 23, 24,
            25,
        ],
        &[0xcd; 50],
        "82558a389a443c0ea4cc819899f2083a85f0faa3e578f8077a2e3ff46729665b",
    ),
    (
        "the first sixteen bytes",
        &[0x0c; 20],
        b"Test With Truncation",
        "a3b6167473100ee06e0c796c2955552b",
    ),
    (
        "a key longer than a block",
        &[0xaa; 131],
        b"Test Using Larger Than Block-Size Key - Hash Key First",
        "60e431591ee0b67f0d8a26aacbf5b77f8e0bc6213728c5140546040f0ee37f54",
    ),
    (
        "a key and a text longer than a block",
        &[0xaa; 131],
        b"This is a test using a larger than block-size key and a larger than block-size data. The key needs to be hashed before being used by the HMAC algorithm.",
        "9b09ffa71b942fcb27635fbcd5b0e944bfdc63644f0713938a7f51535c3a35e2",
    ),
];

fn expect_vector<R: Abort>(rt: &R, (vector, key, text, digits): Vector) {
    let mut spelled = [0; 64];
    let is_spelled = hex::encode_to_slice(hmac_sha256(key, text), &mut spelled).is_ok();
    crate::expect::expect(
        rt,
        is_spelled && spelled.starts_with(digits.as_bytes()),
        vector,
    );
}

#[test]
fn the_vectors_of_the_standard(rt: HostRuntime) {
    for vector in &VECTORS {
        expect_vector(&rt, *vector);
    }
}
