//! A device with a header of version 1 and heads of the first form is carried on: the next segment
//! that is opened has a head of the second form. `tests/test_old_device.py` shows that it opens
//! unchanged, and accepts limits at once.
use crate::old_device::{expect_written, stored};
use crate::script::{Round, Step};
use crate::stops::Trial;
use crate::walks::{Device, Walk, walk_all};
use Round::Of;
use Step::{Fetch, Pick, Release, Take};
use Trial::{Costs, Fails, Head};

/// Seven rounds that wrote the device, and thirteen more: the older 32 are released, and there are three whole cycles,
/// the first and the last of which have limits.
const ROUNDS: [Round; 20] = [
    Of(Take(1, 0, 0, 1_200), 32),
    Of(Pick(0), 32),
    Of(Take(33, 0, 0, 1_200), 32),
    Of(Pick(0), 32),
    Of(Release(32), 1),
    Of(Take(65, 0, 0, 1_200), 32),
    Of(Pick(0), 32),
    Of(Release(64), 1),
    Of(Take(97, 0, 5_000, 1_200), 32),
    Of(Pick(0), 32),
    Of(Fetch(65), 64),
    Of(Release(96), 1),
    Of(Take(129, 0, 0, 1_200), 32),
    Of(Pick(0), 32),
    Of(Fetch(97), 64),
    Of(Release(128), 1),
    Of(Take(161, 0, 1_099_511_627_775, 1_200), 32),
    Of(Pick(0), 32),
    Of(Fetch(129), 64),
    Of(Release(160), 1),
];

/// The thirteen make 328 calls. Opening makes 8; each of the ten rounds with commands 4; fetches of all in flight 64,
/// three times; and each of the four segments that are opened 6, since its gate is open, and two of them 32 reads. Each
/// head that is written has the second form. Those opened before the third, seventh, ninth and eleventh round have
/// 1,757 bytes if each datagram is by device address, and 39,997 if 32 are inline; their length fields are 13 less.
const SECOND_FORM: [Walk; 1] = [(
    Device::Old(7),
    &ROUNDS,
    &[
        Head(10, 1, [0xa5, 0, 0, 0, 0, 0, 0, 0, 5, 0x80, 0, 0x06, 0xd0]),
        Head(14, 2, [0xa5, 0, 0, 0, 0, 0, 0, 0, 6, 0x80, 0, 0x9c, 0x30]),
        Head(16, 0, [0xa5, 0, 0, 0, 0, 0, 0, 0, 7, 0x80, 0, 0x9c, 0x30]),
        Head(18, 1, [0xa5, 0, 0, 0, 0, 0, 0, 0, 8, 0x80, 0, 0x06, 0xd0]),
        Costs(328, 33, &[7, 8, 6]),
    ],
)];

/// The rounds' replies are the plain machine's, for either form of the head.
#[test]
fn the_next_segments_are_of_the_second_form(rt: HostRuntime) {
    expect_written(&rt, rt.alloc(), &stored(&rt, rt.alloc()));
    walk_all(&rt, rt.alloc(), &SECOND_FORM);
}

/// From the opening of the device to the takes of the second cycle, with one segment opened.
static UP_TO_98: [Walk; 1] = [(Device::Old(7), &ROUNDS, &[Fails(1, 98)])];

#[test]
fn thirteen_rounds_up_to_call_98(rt: HostRuntime) {
    walk_all(&rt, rt.alloc(), &UP_TO_98);
}

/// The picks of the second cycle, for which a segment is opened and 32 payloads are read, and its fetches.
static UP_TO_204: [Walk; 1] = [(Device::Old(7), &ROUNDS, &[Fails(99, 204)])];

#[test]
fn thirteen_rounds_up_to_call_204(rt: HostRuntime) {
    walk_all(&rt, rt.alloc(), &UP_TO_204);
}

/// Its release, with the same calls, and the takes and picks of the third cycle, with one more segment opened.
static UP_TO_260: [Walk; 1] = [(Device::Old(7), &ROUNDS, &[Fails(205, 260)])];

#[test]
fn thirteen_rounds_up_to_call_260(rt: HostRuntime) {
    walk_all(&rt, rt.alloc(), &UP_TO_260);
}

/// The fetches of the third cycle, and its release.
static UP_TO_328: [Walk; 1] = [(Device::Old(7), &ROUNDS, &[Fails(261, 328)])];

#[test]
fn thirteen_rounds_up_to_call_328(rt: HostRuntime) {
    walk_all(&rt, rt.alloc(), &UP_TO_328);
}
