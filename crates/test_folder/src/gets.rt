//! Files that a reader prints: a failure and a crash at each call.
use crate::expect_listed;
use rly_folder::{After, Area, FaultFolder, Folder, FolderFile, MemFolder, Name};
use rly_folder_clients::{Form, GetFault, get};
use std::alloc::Global;
use std::process::Abort;

/// The files as they are.
const RAW: Form = Form {
    raw: true,
    lines: false,
};

/// A file under each of these numbers.
fn handed_out<R: Abort>(rt: &R, alloc: Global, files: &[&[u8]], numbers: &[u64]) -> MemFolder {
    let mut folder = MemFolder::new(alloc);
    for (file, number) in files.iter().zip(numbers) {
        let bytes = file.to_vec(alloc).expect(rt, "memory");
        let (area, number) = (Area::Out, *number);
        folder
            .put(Name { area, number }, FolderFile::new(bytes, 0))
            .expect(rt, "memory");
    }
    folder.sync().expect(rt, "no fault");
    folder
}

/// A reader that prints so many files prints this.
fn expect_got<R: Abort, F: Folder>(
    rt: &R,
    alloc: Global,
    folder: &mut F,
    form: Form,
    most: u64,
    got: Result<u64, GetFault>,
    printed: &[u8],
    row: u64,
) {
    let mut out = Vec::new(alloc);
    let outcome = get(folder, &mut out, form, most);
    expect!(*rt; outcome == got, row);
    expect!(*rt; out.as_slice() == printed, row);
}

/// The text that is printed up to a failure of this call. The 13 calls: sync, two lists; read, rename, write, link, sync,
/// remove; read, rename, sync, remove.
fn first_text(at: u64) -> &'static [u8] {
    if at < 5 {
        b""
    } else if at < 11 {
        b"1"
    } else {
        b"12"
    }
}

/// The text that is printed after that, if a name that was pending stands, or not: only the last payload again.
fn second_text(at: u64, stands: bool) -> &'static [u8] {
    match (at, stands) {
        (1..=6, _) | (7..=8, false) => b"12",
        (7..=8, true) | (9..=10, _) | (11..=12, false) => b"2",
        _ => b"",
    }
}

/// Each call fails, and is made nevertheless or not. After a sync that failed the name is there.
#[test]
fn a_failure_at_each_call_of_a_reader(rt: HostRuntime) {
    let alloc = rt.alloc();
    for at in 1..14_u64 {
        for made in &[false, true] {
            let inside = handed_out(&rt, alloc, &[b"1", b"2"], &[1, 2]);
            let mut folder = FaultFolder::new(inside, at, *made, After::GoesOn);
            let stopped = Err(GetFault::Folder);
            expect_got(&rt, alloc, &mut folder, RAW, 9, stopped, first_text(at), at);
            let mut folder = folder.into_inner();
            let text = second_text(at, *made || at == 8 || at == 12);
            let count = text.len() as u64;
            expect_got(&rt, alloc, &mut folder, RAW, 9, Ok(count), text, at);
            expect_listed(&rt, &mut folder, Area::Out, &[], at);
        }
    }
}

/// The folder stops at each call, and a crash leaves what was pending or not.
#[test]
fn a_crash_at_each_call_of_a_reader(rt: HostRuntime) {
    let alloc = rt.alloc();
    for at in 1..14_u64 {
        for stands in &[false, true] {
            let inside = handed_out(&rt, alloc, &[b"1", b"2"], &[1, 2]);
            let mut folder = FaultFolder::new(inside, at, *stands, After::Stops);
            let stopped = Err(GetFault::Folder);
            expect_got(&rt, alloc, &mut folder, RAW, 9, stopped, first_text(at), at);
            let left = folder.into_inner().crash(&[*stands, *stands]);
            let mut left = left.expect(&rt, "memory");
            let text = second_text(at, *stands);
            let count = text.len() as u64;
            expect_got(&rt, alloc, &mut left, RAW, 9, Ok(count), text, at);
            expect_listed(&rt, &mut left, Area::Out, &[], at);
        }
    }
}
