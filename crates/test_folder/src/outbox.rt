//! A folder that plays the neighbour of a hop: its answers, a failure and a crash at each call.
use crate::expect_listed;
use rly_folder::{After, Area, FaultFolder, Folder, MemFolder, Name};
use rly_hop::TakeAnswer;
use rly_link_folder::Outbox;
use std::process::Abort;

const MOST: u64 = 3;

/// The payloads of Data 1 and Data 2.
const PAYLOADS: [&[u8]; 2] = [&[7, 7], &[8]];

fn opened<R: Abort, F: Folder + Drop>(rt: &R, folder: F) -> Outbox<F> {
    match Outbox::open(folder, MOST) {
        Ok(outbox) => outbox,
        Err(_) => panic!(rt; "the folder opens"),
    }
}

fn expect_answer<R: Abort, F: Folder>(
    rt: &R,
    outbox: &mut Outbox<F>,
    number: u64,
    payload: &[u8],
    answer: TakeAnswer,
    row: u64,
) {
    let answered = outbox.take(number, 0, payload);
    expect!(*rt; answered == answer, row);
}

fn expect_file<R: Abort, F: Folder>(rt: &R, folder: &mut F, number: u64, file: &[u8], row: u64) {
    let area = Area::Out;
    match folder.read(Name { area, number }, 9).expect(rt, "no fault") {
        Some(found) => expect!(*rt; found.bytes.as_slice() == file, row),
        None => expect!(*rt; false, row),
    }
}

/// Data 1 and Data 2 are files, and 2 is the greatest number.
fn expect_both<R: Abort, F: Folder>(rt: &R, folder: &mut F, row: u64) {
    expect_listed(rt, folder, Area::Out, &[1, 2], row);
    expect_listed(rt, folder, Area::Kept, &[2], row);
    expect_file(rt, folder, 1, PAYLOADS[0], row);
    expect_file(rt, folder, 2, PAYLOADS[1], row);
}

#[test]
fn each_data_is_a_file_once(rt: HostRuntime) {
    let mut outbox = opened(&rt, MemFolder::new(rt.alloc()));
    expect_answer(&rt, &mut outbox, 0, &[9], TakeAnswer::Already(0), 0);
    expect_answer(&rt, &mut outbox, 2, &[9], TakeAnswer::Already(0), 1);
    expect_answer(&rt, &mut outbox, 1, PAYLOADS[0], TakeAnswer::Taken, 2);
    expect_answer(&rt, &mut outbox, 1, PAYLOADS[0], TakeAnswer::Already(1), 3);
    expect_answer(&rt, &mut outbox, 2, PAYLOADS[1], TakeAnswer::Taken, 4);
    expect_answer(&rt, &mut outbox, 0, &[9], TakeAnswer::Already(2), 5);
    let mut folder = outbox.into_folder();
    // Three for the opening, eight for Data 1, five for Data 2, for which there is room by the list before Data 1.
    expect!(rt; folder.calls() == 16 && folder.syncs() == 5);
    expect_both(&rt, &mut folder, 6);
}

/// Opens a folder, a second time if a call failed.
fn opened_at_last<R: Abort, F: Folder + Drop>(rt: &R, folder: F) -> Outbox<F> {
    match Outbox::open(folder, MOST) {
        Ok(outbox) => outbox,
        Err(folder) => opened(rt, folder),
    }
}

/// Takes a Data, a second time if a call failed.
fn take_at_last<R: Abort, F: Folder>(
    rt: &R,
    outbox: &mut Outbox<F>,
    number: u64,
    payload: &[u8],
    row: u64,
) {
    let answer = outbox.take(number, 0, payload);
    if answer == TakeAnswer::Other {
        expect_answer(rt, outbox, number, payload, TakeAnswer::Taken, row);
    } else {
        expect!(*rt; answer == TakeAnswer::Taken, row);
    }
}

/// Each of the 16 calls fails once, and is made nevertheless or not.
#[test]
fn a_failure_at_each_call(rt: HostRuntime) {
    for at in 1..17_u64 {
        for made in &[false, true] {
            let folder = FaultFolder::new(MemFolder::new(rt.alloc()), at, *made, After::GoesOn);
            let mut outbox = opened_at_last(&rt, folder);
            take_at_last(&rt, &mut outbox, 1, PAYLOADS[0], at);
            take_at_last(&rt, &mut outbox, 2, PAYLOADS[1], at);
            let mut inside = outbox.into_folder().into_inner();
            expect_both(&rt, &mut inside, at);
        }
    }
}

/// Which pending changes stand.
const STANDS: [&[bool]; 4] = [&[], &[true, true], &[true, false], &[false, true]];

/// Returns the number of Data taken before the folder stops, and the folder.
fn stopped(folder: FaultFolder<MemFolder>) -> (u64, MemFolder) {
    match Outbox::open(folder, MOST) {
        Err(folder) => (0, folder.into_inner()),
        Ok(mut outbox) => {
            let first = outbox.take(1, 0, PAYLOADS[0]) == TakeAnswer::Taken;
            let second = outbox.take(2, 0, PAYLOADS[1]) == TakeAnswer::Taken;
            (
                u64::from(first) + u64::from(second),
                outbox.into_folder().into_inner(),
            )
        }
    }
}

/// The folder opens to each number that was answered, and goes on after it.
fn expect_reopened<R: Abort>(rt: &R, taken: u64, folder: MemFolder, row: u64) {
    let mut outbox = opened(rt, folder);
    let TakeAnswer::Already(greatest) = outbox.take(0, 0, &[]) else {
        panic!(rt; "Data 0 is answered");
    };
    expect!(*rt; taken <= greatest, row);
    if greatest < 1 {
        expect_answer(rt, &mut outbox, 1, PAYLOADS[0], TakeAnswer::Taken, row);
    }
    if greatest < 2 {
        expect_answer(rt, &mut outbox, 2, PAYLOADS[1], TakeAnswer::Taken, row);
    }
    let mut folder = outbox.into_folder();
    expect_both(rt, &mut folder, row);
}

/// The folder stops at each of the 16 calls, that one made or not, and a crash leaves some of what was pending.
#[test]
fn a_crash_at_each_call(rt: HostRuntime) {
    for at in 1..18_u64 {
        for made in &[false, true] {
            for stands in &STANDS {
                let folder = FaultFolder::new(MemFolder::new(rt.alloc()), at, *made, After::Stops);
                let (taken, inside) = stopped(folder);
                let left = inside.crash(stands).expect(&rt, "memory");
                expect_reopened(&rt, taken, left, at);
            }
        }
    }
}
