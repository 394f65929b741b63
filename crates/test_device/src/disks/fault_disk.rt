//! Devices whose calls fail.
use super::{counts, expect_read, get, mem_disk, put};
use rly_disk::{After, Disk, DiskFault, FaultDisk, MemDisk, Torn};
use std::alloc::Global;
use std::process::Abort;

/// The call that fails, the behaviour after it, the calls that succeed, and the counters.
type Failure = (u64, After, [bool; 4], [u64; 4]);

const FAILURES: [Failure; 11] = [
    (0, After::GoesOn, [true; 4], [4, 0, 1, 0]),
    (0, After::Stops, [true; 4], [4, 0, 1, 0]),
    (1, After::GoesOn, [false, true, true, true], [4, 1, 1, 0]),
    (2, After::GoesOn, [true, false, true, true], [4, 1, 1, 0]),
    (3, After::GoesOn, [true, true, false, true], [4, 1, 1, 1]),
    (4, After::GoesOn, [true, true, true, false], [4, 1, 1, 0]),
    (5, After::GoesOn, [true; 4], [4, 0, 1, 0]),
    (1, After::Stops, [false; 4], [4, 4, 1, 1]),
    (2, After::Stops, [true, false, false, false], [4, 3, 1, 1]),
    (3, After::Stops, [true, true, false, false], [4, 2, 1, 1]),
    (4, After::Stops, [true, true, true, false], [4, 1, 1, 0]),
];

/// Makes a disk of these bytes, one of whose calls fails: a failing write writes the first bytes.
fn failing<R: Abort>(
    rt: &R,
    alloc: Global,
    bytes: &[u8],
    (at, torn): (u64, u64),
    after: After,
) -> FaultDisk<MemDisk> {
    FaultDisk::new(mem_disk(rt, alloc, bytes), at, torn, after)
}

/// Makes a write of three bytes at 2, a sync, a read, and a write of one at 7. Returns which ones succeed.
fn four_calls<R: Abort, D: Disk>(rt: &R, disk: &mut D) -> [bool; 4] {
    let first = put(disk, 2, &[1, 2, 3]).is_ok();
    let synced = disk.sync().is_ok();
    let read = get(rt, disk, 0, &mut [0]).is_ok();
    let second = put(disk, 7, &[4]).is_ok();
    [first, synced, read, second]
}

/// On a disk of eight zeros these calls succeed, with these counters.
fn expect_calls<R: Abort, D: Disk>(rt: &R, disk: &mut D, (at, _, done, counted): Failure) {
    expect!(*rt; disk.size() == 8 && four_calls(rt, disk) == done, at);
    expect!(*rt; counts(disk) == counted, at);
}

/// The same on a new one.
fn expect_failure<R: Abort>(rt: &R, alloc: Global, row: Failure) {
    let mut disk = failing(rt, alloc, &[0; 8], (row.0, 0), row.1);
    expect_calls(rt, &mut disk, row);
}

#[test]
fn the_chosen_call_fails(rt: HostRuntime) {
    for row in &FAILURES {
        expect_failure(&rt, rt.alloc(), *row);
    }
}

/// 1 and 2 are written at offset 1 of four nines, and synced. The call that fails, and the bytes that it writes if it
/// is the write; the bytes that a read then returns, and those after a crash that keeps the first byte of the write.
const TORN: [(u64, u64, [u8; 4], [u8; 4]); 5] = [
    (1, 0, [9, 9, 9, 9], [9, 9, 9, 9]),
    (1, 1, [9, 1, 9, 9], [9, 1, 9, 9]),
    (1, 2, [9, 1, 2, 9], [9, 1, 9, 9]),
    (1, 3, [9, 1, 2, 9], [9, 1, 9, 9]),
    (2, 0, [9, 1, 2, 9], [9, 1, 9, 9]),
];

/// Makes the calls up to the one that fails, and a read.
fn break_off<R: Abort, D: Disk>(rt: &R, alloc: Global, disk: &mut D, at: u64, image: &[u8; 4]) {
    expect!(*rt; put(disk, 1, &[1, 2]).is_ok() == (at != 1), at);
    expect!(*rt; at == 1 || disk.sync() == Err(DiskFault), at);
    expect_read(rt, alloc, disk, 0, image);
}

/// The bytes that were written are pending, the rest isn't. None of them is durable, and the disk inside gets no sync.
fn expect_torn<R: Abort>(rt: &R, disk: &MemDisk, image: &[u8; 4]) {
    expect!(*rt; disk.is_image(image) && disk.is_image(&[9; 4]));
    expect!(*rt; disk.is_image(&[9, 77, image[2], 9]) == (image[1] == 1));
    expect!(*rt; !disk.is_image(&[8, image[1], image[2], 9]));
    expect!(*rt; counts(disk) == [2, 0, 0, 0]);
}

/// Makes all these calls, and crashes.
fn expect_broken<R: Abort>(
    rt: &R,
    alloc: Global,
    (at, torn): (u64, u64),
    image: &[u8; 4],
    left: &[u8; 4],
) {
    let mut disk = failing(rt, alloc, &[9; 4], (at, torn), After::GoesOn);
    break_off(rt, alloc, &mut disk, at, image);
    let disk = disk.into_inner();
    expect_torn(rt, &disk, image);
    expect_read(rt, alloc, &mut disk.crash(Torn::Split(1)), 0, left);
}

#[test]
fn what_a_failing_call_put_is_not_settled(rt: HostRuntime) {
    for (at, torn, image, left) in &TORN {
        expect_broken(&rt, rt.alloc(), (*at, *torn), image, left);
    }
}

/// A read that fails, into a buffer of sevens.
fn expect_buffer<R: Abort, D: Disk>(rt: &R, disk: &mut D) {
    let mut buffer = [7; 2];
    let outcome = get(rt, disk, 0, &mut buffer);
    expect!(*rt; outcome == Err(DiskFault) && buffer == [7; 2]);
}

#[test]
fn a_failing_read_leaves_its_buffer(rt: HostRuntime) {
    let mut disk = failing(&rt, rt.alloc(), &[9; 2], (1, 0), After::GoesOn);
    expect_buffer(&rt, &mut disk);
}
