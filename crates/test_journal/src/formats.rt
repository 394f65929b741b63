//! A format that stops at each of its device calls.
use crate::device::{DEVICE_E, SIZE, bytes_of};
use crate::rounds::{CRASHES, left};
use rly_disk::{After, FaultDisk, MemDisk, Torn};
use rly_segment::format;
use std::alloc::Global;
use std::process::Abort;

/// The bytes that a format of a disk of one byte leaves after a crash, and whether it is made. Its call of this number
/// fails, and all after it; with 0 none does.
fn formatted(
    rt: &impl Abort,
    alloc: Global,
    fill: u8,
    at: u64,
    crash: Option<Torn>,
) -> (bool, Vec<u8>) {
    let bytes = vec![in alloc; fill; SIZE].expect(rt, "memory");
    let mut disk = FaultDisk::new(MemDisk::new(alloc, bytes), at, 0, After::Stops);
    let is_made = format(alloc, &mut disk, &DEVICE_E).is_ok();
    (is_made, bytes_of(rt, alloc, &mut left(disk, crash)))
}

/// A format that stops at one of its calls isn't made, and leaves the old bytes, no device, or the new one.
fn expect_stops(rt: &impl Abort, alloc: Global, (fill, calls): (u8, u64)) {
    let (is_made, new) = formatted(
        rt,
        alloc,
        fill,
        calls.saturating_add(1),
        Some(Torn::AsSynced),
    );
    expect!(rt; is_made);
    let old = vec![in alloc; fill; SIZE].expect(rt, "memory");
    for at in 1..=calls {
        for crash in &CRASHES {
            let (is_made, bytes) = formatted(rt, alloc, fill, at, *crash);
            let is_closed = bytes.first() != Some(&0xa5);
            expect!(rt; !is_made && (is_closed || bytes == new || bytes == old), at);
        }
    }
}

/// At gates that read open, and at closed ones, with a call less. `tests/test_devices.py` has the bytes.
#[test]
fn a_format_that_stops(rt: HostRuntime) {
    for row in [(0xa5, 15), (0, 14)] {
        expect_stops(&rt, rt.alloc(), row);
    }
}
