//! Disks in memory, and the images that a crash may leave.
use super::client::write_both;
use super::{counts, expect_read, mem_disk, put};
use rly_disk::{Disk, MemDisk, Torn};
use std::alloc::Global;
use std::process::Abort;

/// Images, and whether a crash may leave each.
type Images<'a> = &'a [(&'a [u8], bool)];

/// A call of a disk, or a check of it.
#[derive(Clone, Copy)]
enum Act<'a> {
    /// Writes these bytes at an offset.
    Put(u64, &'a [u8]),
    /// Writes 1 and 2 at offset 0 and 3 at offset 4, by the client.
    PutBoth,
    /// Writes the numbers from 0 to 199, each at that offset and by its own write.
    PutMany,
    Sync,
    /// A read at an offset returns these bytes.
    Read(u64, &'a [u8]),
    /// A crash may leave some of these images, and not others.
    Images(Images<'a>),
    /// The counters of calls, failures, syncs and failed reads.
    Counts([u64; 4]),
}

/// Makes the act on a disk none of whose calls fails.
fn make<R: Abort>(rt: &R, alloc: Global, disk: &mut MemDisk, act: Act) {
    match act {
        Act::Put(place, bytes) => put(disk, place, bytes).expect(rt, "no fault"),
        Act::PutBoth => put_both(rt, disk),
        Act::PutMany => put_many(rt, disk),
        Act::Sync => disk.sync().expect(rt, "no fault"),
        Act::Read(place, bytes) => expect_read(rt, alloc, disk, place, bytes),
        Act::Images(images) => expect_images(rt, disk, images),
        Act::Counts(counted) => expect!(*rt; counts(disk) == counted),
    }
}

fn put_both<R: Abort>(rt: &R, disk: &mut MemDisk) {
    assert!(rt; disk.size() == 6);
    write_both(disk, 0, &[1, 2], 4, &[3]).expect(rt, "no fault");
}

fn put_many<R: Abort>(rt: &R, disk: &mut MemDisk) {
    for byte in 0..200u8 {
        put(disk, u64::from(byte), &[byte]).expect(rt, "no fault");
    }
}

fn expect_images<R: Abort>(rt: &R, disk: &MemDisk, images: Images) {
    for (image, may_be) in images {
        assert!(rt; disk.is_image(image) == *may_be, "at {image:?}");
    }
}

/// Makes these in turn.
fn make_all<R: Abort>(rt: &R, alloc: Global, disk: &mut MemDisk, acts: &[Act]) {
    for each in acts {
        make(rt, alloc, disk, *each);
    }
}

/// Makes them on a new disk of these bytes.
fn expect_acts<R: Abort>(rt: &R, alloc: Global, bytes: &[u8], acts: &[Act]) {
    let mut disk = mem_disk(rt, alloc, bytes);
    expect!(*rt; disk.size() == bytes.len() as u64);
    make_all(rt, alloc, &mut disk, acts);
}

#[test]
fn reads_after_writes(rt: HostRuntime) {
    let acts = [
        Act::Put(2, &[1, 2, 3]),
        Act::Read(0, &[0, 0, 1, 2, 3, 0, 0, 0]),
        Act::Put(4, &[9, 9]),
        Act::Sync,
        Act::Read(0, &[0, 0, 1, 2, 9, 9, 0, 0]),
        Act::Read(3, &[2, 9]),
        Act::Read(8, &[]),
        Act::Counts([7, 0, 1, 0]),
    ];
    expect_acts(&rt, rt.alloc(), &[0; 8], &acts);
}

/// The images of a new disk of 10, 11, 12, 13.
const NEW: [(&[u8], bool); 5] = [
    (&[10, 11, 12, 13], true),
    (&[10, 11, 12, 14], false),
    (&[9, 11, 12, 13], false),
    (&[10, 11, 12], false),
    (&[10, 11, 12, 13, 0], false),
];

/// After a write of 7 at offset 1.
const ONE_WRITE: [(&[u8], bool); 6] = [
    (&[10, 7, 12, 13], true),
    (&[10, 11, 12, 13], true),
    (&[10, 99, 12, 13], true),
    (&[9, 7, 12, 13], false),
    (&[10, 7, 0, 13], false),
    (&[10, 7, 12, 0], false),
];

/// And of 8 at offset 3.
const TWO_WRITES: [(&[u8], bool); 4] = [
    (&[10, 7, 12, 8], true),
    (&[10, 200, 12, 201], true),
    (&[10, 7, 13, 8], false),
    (&[0, 7, 12, 8], false),
];

/// After a sync of these.
const SYNCED: [(&[u8], bool); 3] = [
    (&[10, 7, 12, 8], true),
    (&[10, 11, 12, 8], false),
    (&[10, 7, 12, 13], false),
];

/// After a write of 1 and 2 at offset 0.
const THIRD_WRITE: [(&[u8], bool); 5] = [
    (&[1, 2, 12, 8], true),
    (&[10, 7, 12, 8], true),
    (&[0, 0, 12, 8], true),
    (&[1, 2, 12, 13], false),
    (&[1, 2, 0, 8], false),
];

#[test]
fn images_before_between_and_after_syncs(rt: HostRuntime) {
    let acts = [
        Act::Images(&NEW),
        Act::Put(1, &[7]),
        Act::Images(&ONE_WRITE),
        Act::Put(3, &[8]),
        Act::Images(&TWO_WRITES),
        Act::Sync,
        Act::Images(&SYNCED),
        Act::Put(0, &[1, 2]),
        Act::Images(&THIRD_WRITE),
    ];
    expect_acts(&rt, rt.alloc(), &[10, 11, 12, 13], &acts);
}

/// The client's writes are read, and are durable.
#[test]
fn a_client_of_the_trait(rt: HostRuntime) {
    let acts = [
        Act::PutBoth,
        Act::Read(0, &[1, 2, 0, 0, 3, 0]),
        Act::Images(&[(&[1, 2, 0, 0, 3, 0], true), (&[0, 2, 0, 0, 3, 0], false)]),
    ];
    expect_acts(&rt, rt.alloc(), &[0; 6], &acts);
}

/// A crash may leave none of two hundred bytes before the sync, and keeps all after it.
#[test]
fn many_writes_before_a_sync(rt: HostRuntime) {
    let acts = [
        Act::PutMany,
        Act::Images(&[(&[5; 256], true)]),
        Act::Counts([200, 0, 0, 0]),
        Act::Sync,
        Act::Read(0, &[0, 1, 2, 3]),
        Act::Read(197, &[197, 198, 199, 5]),
        Act::Images(&[(&[5; 256], false)]),
    ];
    expect_acts(&rt, rt.alloc(), &[5; 256], &acts);
}

/// Writes five bytes on a disk of six that has 3 at offset 2 and was synced, one offset of them twice.
const PENDING: [Act; 6] = [
    Act::Put(2, &[3]),
    Act::Sync,
    Act::Put(0, &[11, 12]),
    Act::Put(1, &[21, 22]),
    Act::Put(5, &[]),
    Act::Put(4, &[31]),
];

/// The bytes after each crash.
const CRASHES: [(Torn, [u8; 6]); 10] = [
    (Torn::AsRead, [11, 21, 22, 4, 31, 6]),
    (Torn::AsSynced, [1, 2, 3, 4, 5, 6]),
    (Torn::Fill(0xa5), [0xa5, 0xa5, 0xa5, 4, 0xa5, 6]),
    (Torn::Split(0), [1, 2, 3, 4, 5, 6]),
    (Torn::Split(1), [11, 2, 3, 4, 5, 6]),
    (Torn::Split(2), [11, 12, 3, 4, 5, 6]),
    (Torn::Split(3), [11, 21, 3, 4, 5, 6]),
    (Torn::Split(4), [11, 21, 22, 4, 5, 6]),
    (Torn::Split(5), [11, 21, 22, 4, 31, 6]),
    (Torn::Split(u64::MAX), [11, 21, 22, 4, 31, 6]),
];

/// After a crash no write is pending: there is one image.
fn expect_left<R: Abort>(rt: &R, alloc: Global, disk: &mut MemDisk, image: &[u8; 6]) {
    make(rt, alloc, disk, Act::Counts([0; 4]));
    make(rt, alloc, disk, Act::Read(0, image));
    expect!(*rt; disk.is_image(image));
    for at in 0..6 {
        let mut other = *image;
        other[at] ^= 1;
        expect!(*rt; !disk.is_image(&other), at as u64);
    }
}

/// Crashes, and compares the bytes.
fn expect_crash<R: Abort>(rt: &R, alloc: Global, torn: Torn, image: &[u8; 6]) {
    let mut disk = mem_disk(rt, alloc, &[1, 2, 0, 4, 5, 6]);
    make_all(rt, alloc, &mut disk, &PENDING);
    assert!(rt; disk.is_image(image), "at {torn:?}");
    expect_left(rt, alloc, &mut disk.crash(torn), image);
}

#[test]
fn a_crash_leaves_the_image_that_is_named(rt: HostRuntime) {
    for (torn, image) in &CRASHES {
        expect_crash(&rt, rt.alloc(), *torn, image);
    }
}

/// Syncs a disk with this first byte, which then has one image. Returns true iff the sync succeeds.
fn is_synced<R: Abort>(rt: &R, disk: &mut MemDisk, first: u8) -> bool {
    if disk.sync().is_err() {
        return false;
    }
    expect!(*rt; disk.is_image(&[first, 5, 5, 5]) && !disk.is_image(&[first ^ 1, 5, 5, 5]));
    true
}

/// Twenty first bytes, each of which is synced.
fn expect_tries<R: Abort>(rt: &R, disk: &mut MemDisk) {
    let (mut first, mut failures) = (5, 0u64);
    for byte in 6..26 {
        if put(disk, 0, &[byte]).is_ok() {
            first = byte;
        } else {
            failures = failures.saturating_add(1);
        }
        if !is_synced(rt, disk, first) {
            failures = failures.saturating_add(1);
        }
    }
    expect!(*rt; counts(disk) == [40, failures, 20, 0]);
}

// With an allocation that fails (`rt try --test --fail-alloc N`) a write or a sync fails, and changes nothing.
#[test]
fn a_refused_growth_changes_nothing(rt: HostRuntime) {
    expect_tries(&rt, &mut mem_disk(&rt, rt.alloc(), &[5; 4]));
}
