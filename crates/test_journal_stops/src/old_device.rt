//! A device with a header of version 1 and heads of the first form, as the program wrote it before
//! age limits (commit facb250).
//!
//! These commands wrote it. Each call of `rly play` is one round.
//!
//! ```text
//! takes() {
//!     for n in $(seq $1 $2); do
//!         printf 'take 1 %d 1 0 ' $n; printf "$(printf %02x $((n & 255)))%.0s" $(seq 1200); echo
//!     done
//! }
//! picks() { for n in $(seq 32); do echo pick 1 0; done; }
//! rly format old.rly --hops 1 --peers 1 --window 64 --segments 3 --items 64 --bytes 76800 \
//!     --length 118508
//! takes 1 32     | rly play old.rly --batch 64
//! picks          | rly play old.rly --batch 64
//! takes 33 64    | rly play old.rly --batch 64
//! picks          | rly play old.rly --batch 64    # opens segment 1, with a head of 1,828 bytes
//! echo done 1 32 | rly play old.rly
//! takes 65 96    | rly play old.rly --batch 64
//! picks          | rly play old.rly --batch 64    # opens segment 2, with a head of 39,972 bytes
//! echo pick 1 0  | rly play old.rly               # refused 7 windowfull; opens segment 0, with
//!                                                 # a head of 39,972 bytes
//! ```
//!
//! So 64 datagrams are in flight: 33 to 64 lie in the head of segment 2, and 65 to 96 are inline
//! in that of segment 0, the newest.

use sha2::{Digest, Sha256};
use std::alloc::Global;
use std::process::Abort;

/// Its size in bytes.
const SIZE: usize = 355_588;

/// Their SHA-256.
const DIGEST: &[u8] = b"d3be1477eadb5de2a7311051167891a84eef35d5642efcae0f4f44d0faceda95";

/// The bytes at an offset; in a run of several items, those of the first.
#[derive(Clone, Copy)]
enum Item {
    /// Bytes, in hexadecimal.
    Text(&'static [u8]),
    /// A number of eight bytes, and the increment from each item of the run to the next.
    Number(u64, u64),
    /// 1,200 times this byte, which rises by one from each item to the next.
    Payload(u8),
}

use Item::{Number, Payload, Text};

/// The bytes in the order of their writes: an offset, the number of items from there on, and their distance. All others
/// are 00.
///
/// A head is followed by 32 entries twice, of 27 bytes by device address (id, stamp, length with form 01, address) or
/// of 1,219 inline (id, stamp, length with form 00, payload). A group's gate, length and count are followed by records:
/// of 1,223 bytes a Take, of 11 a Pick or a Release.
static ITEMS: [(usize, u64, usize, Item); 36] = [
    // the header
    (
        0,
        1,
        0,
        Text(
            b"a5524c594445563031000100010001004000030001ceec0000004000012c00000005dc000000000000138800\
            000000000186a0",
        ),
    ),
    // the end of the first generation: a group of Takes
    (39_673, 32, 1_223, Text(b"010001")),
    (39_676, 32, 1_223, Number(33, 1)),
    (39_684, 32, 1_223, Text(b"0001000000000000000004b0")),
    (39_696, 32, 1_223, Payload(33)),
    // over it the fourth, and a closed gate
    (
        64,
        1,
        0,
        Text(
            b"a5000000000000000400009c1700000000000000c10000000000000060000000000000000000000000000000\
            0000000000000000000000000000000000000000000000000000000000000000006000000000000000000000\
            0000000000200040",
        ),
    ),
    (164, 32, 27, Number(65, 1)),
    (180, 32, 27, Text(b"04b001")),
    (183, 32, 27, Number(237_199, 1_219)),
    (1_028, 32, 1_219, Number(130, 1)),
    (1_044, 32, 1_219, Text(b"04b0")),
    (1_047, 32, 1_219, Payload(65)),
    (40_036, 1, 0, Text(b"00")),
    // the second: a head, and groups of Picks, of a Release and of Takes
    (
        118_572,
        1,
        0,
        Text(
            b"a500000000000000020000071700000000000000600000000000000040000000000000000000000000000000\
            0000000000000000000000000000000000000000000000000000000000000000004000000000000000000000\
            000000000000002000000020",
        ),
    ),
    (118_672, 32, 27, Number(1, 1)),
    (118_688, 32, 27, Text(b"04b001")),
    (118_691, 32, 27, Number(194, 1_223)),
    (119_536, 32, 27, Number(65, 1)),
    (119_552, 32, 27, Text(b"04b001")),
    (119_555, 32, 27, Number(39_696, 1_223)),
    (120_400, 1, 0, Text(b"a5000001620020")),
    (120_407, 32, 11, Text(b"020001")),
    (
        120_759,
        1,
        0,
        Text(b"a50000000d00010300010000000000000020a5000098e20020"),
    ),
    (120_784, 32, 1_223, Text(b"010001")),
    (120_787, 32, 1_223, Number(65, 1)),
    (120_795, 32, 1_223, Text(b"0001000000000000000004b0")),
    (120_807, 32, 1_223, Payload(65)),
    // the third: a head, and a group of Picks
    (
        237_080,
        1,
        0,
        Text(
            b"a5000000000000000300009c1700000000000000a10000000000000060000000000000000000000000000000\
            0000000000000000000000000000000000000000000000000000000000000000006000000000000000000000\
            000000000020002000000020",
        ),
    ),
    (237_180, 32, 1_219, Number(65, 1)),
    (237_196, 32, 1_219, Text(b"04b0")),
    (237_199, 32, 1_219, Payload(33)),
    (276_188, 32, 27, Number(130, 1)),
    (276_204, 32, 27, Text(b"04b001")),
    (276_207, 32, 27, Number(120_807, 1_223)),
    (277_052, 1, 0, Text(b"a5000001620020")),
    (277_059, 32, 11, Text(b"020001")),
];

/// All of it, by a call: if a loop names the constant, the prover sees it at each step.
fn items() -> &'static [(usize, u64, usize, Item)] {
    &ITEMS
}

/// Returns the bytes of an item with this index in its run.
fn spelled(rt: &impl Abort, alloc: Global, item: Item, index: u64) -> Vec<u8> {
    match item {
        Text(text) => hex::decode(alloc, text)
            .ok()
            .expect(rt, "hexadecimal digits"),
        Number(first, more) => {
            let number = first.wrapping_add(more.wrapping_mul(index));
            Vec::from_slice(alloc, &number.to_be_bytes()).expect(rt, "memory")
        }
        Payload(first) => {
            vec![in alloc; first.wrapping_add((index & 0xff) as u8); 1_200].expect(rt, "memory")
        }
    }
}

/// Writes bytes at an offset.
fn put(rt: &impl Abort, bytes: &mut [u8], place: usize, part: &[u8]) {
    assert!(rt; place <= bytes.len() && part.len() <= bytes.len() - place);
    bytes[place..place + part.len()].copy_from_slice(part);
}

/// Returns the bytes of the device.
pub(crate) fn stored(rt: &impl Abort, alloc: Global) -> Vec<u8> {
    let mut bytes = vec![in alloc; 0u8; SIZE].expect(rt, "memory");
    for (first, count, apart, item) in items() {
        let mut place = *first;
        for index in 0..*count {
            put(rt, &mut bytes, place, &spelled(rt, alloc, *item, index));
            place = place.wrapping_add(*apart);
        }
    }
    bytes
}

/// These are the bytes that the older version wrote.
pub(crate) fn expect_written(rt: &impl Abort, alloc: Global, bytes: &[u8]) {
    let digest = spelled(rt, alloc, Text(DIGEST), 0);
    expect!(rt; Sha256::digest(bytes).as_slice() == digest.as_slice());
}
