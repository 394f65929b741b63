//! Folders in memory, and what a crash may leave of them.
use crate::expect_listed;
use rly_folder::{Area, Folder, FolderFile, MemFolder, Name};
use std::alloc::Global;
use std::process::Abort;

/// A call of a folder with what it returns, a change by another program, or a check.
#[derive(Clone, Copy)]
enum Act<'a> {
    Write(&'a [u8]),
    Link(Name, bool),
    Rename(Name, Name, bool),
    Remove(Name, bool),
    Sync,
    /// The first bytes of a file, at most this many.
    Read(Name, usize, Option<&'a [u8]>),
    /// The numbers of an area's files.
    Listed(Area, &'a [u64]),
    /// Another program puts this file under a name.
    Put(Name, &'a [u8]),
    /// Another program removes a file.
    Take(Name),
    /// The counters of calls, failures and syncs.
    Counts([u64; 3]),
}

const fn name(area: Area, number: u64) -> Name {
    Name { area, number }
}

fn expect_read<R: Abort>(
    rt: &R,
    folder: &mut MemFolder,
    name: Name,
    most: usize,
    file: Option<&[u8]>,
) {
    match (folder.read(name, most).expect(rt, "no fault"), file) {
        (Some(found), Some(file)) => expect!(*rt; found.bytes.as_slice() == file),
        (found, file) => expect!(*rt; found.is_none() && file.is_none()),
    }
}

fn expect_counts<R: Abort>(rt: &R, folder: &MemFolder, counts: [u64; 3]) {
    let counted = [folder.calls(), folder.failures(), folder.syncs()];
    expect!(*rt; counted == counts);
}

fn put<R: Abort>(rt: &R, alloc: Global, folder: &mut MemFolder, name: Name, file: &[u8]) {
    let file = file.to_vec(alloc).expect(rt, "memory");
    folder
        .put(name, FolderFile::new(file, 0))
        .expect(rt, "memory");
}

fn make<R: Abort>(rt: &R, alloc: Global, folder: &mut MemFolder, act: Act, row: u64) {
    match act {
        Act::Write(bytes) => folder.write(bytes, 0).expect(rt, "no fault"),
        Act::Link(to, done) => expect!(*rt; folder.link(to) == Ok(done), row),
        Act::Rename(from, to, done) => expect!(*rt; folder.rename(from, to) == Ok(done), row),
        Act::Remove(name, done) => expect!(*rt; folder.remove(name) == Ok(done), row),
        Act::Sync => folder.sync().expect(rt, "no fault"),
        Act::Read(name, most, file) => expect_read(rt, folder, name, most, file),
        Act::Listed(area, numbers) => expect_listed(rt, folder, area, numbers, row),
        Act::Put(name, file) => put(rt, alloc, folder, name, file),
        Act::Take(name) => folder.take(name).expect(rt, "memory"),
        Act::Counts(counts) => expect_counts(rt, folder, counts),
    }
}

fn make_all<R: Abort>(rt: &R, alloc: Global, folder: &mut MemFolder, acts: &[Act]) {
    let mut row = 0;
    for act in acts {
        make(rt, alloc, folder, *act, row);
        row = row.wrapping_add(1);
    }
}

#[test]
fn each_call(rt: HostRuntime) {
    let first = name(Area::Out, 1);
    let new = name(Area::New, 7);
    let sent = name(Area::Sent, 3);
    let mut folder = MemFolder::new(rt.alloc());
    make_all(
        &rt,
        rt.alloc(),
        &mut folder,
        &[
            Act::Link(first, false),
            Act::Write(&[1, 2]),
            Act::Write(&[3, 4, 5]),
            Act::Link(first, true),
            Act::Link(name(Area::Out, 2), false),
            Act::Write(&[6]),
            Act::Link(first, false),
            Act::Read(first, 9, Some(&[3, 4, 5])),
            Act::Read(first, 2, Some(&[3, 4])),
            Act::Read(name(Area::Kept, 1), 9, None),
            Act::Put(new, &[8]),
            Act::Put(name(Area::New, 5), &[]),
            Act::Listed(Area::New, &[5, 7]),
            Act::Rename(new, sent, true),
            Act::Rename(new, sent, false),
            Act::Read(sent, 9, Some(&[8])),
            Act::Listed(Area::New, &[5]),
            Act::Take(name(Area::New, 5)),
            Act::Listed(Area::New, &[]),
            Act::Remove(sent, true),
            Act::Remove(sent, false),
            Act::Sync,
            Act::Listed(Area::Out, &[1]),
            Act::Listed(Area::Sent, &[]),
            Act::Counts([21, 0, 1]),
        ],
    );
}

/// Which of three pending changes stand, and the numbers of the files then handed out and kept: file 2 is handed out,
/// the greatest number goes from 1 to 2, file 1 is removed.
const CRASHES: [([bool; 3], &[u64], &[u64]); 5] = [
    ([false, false, false], &[1], &[1]),
    ([true, true, true], &[2], &[2]),
    ([true, false, false], &[1, 2], &[1]),
    ([false, true, false], &[1], &[2]),
    ([false, true, true], &[], &[2]),
];

fn pending<R: Abort>(rt: &R, alloc: Global) -> MemFolder {
    let mut folder = MemFolder::new(alloc);
    make_all(
        rt,
        alloc,
        &mut folder,
        &[
            Act::Write(&[1]),
            Act::Link(name(Area::Out, 1), true),
            Act::Write(&[]),
            Act::Link(name(Area::Kept, 1), true),
            Act::Sync,
            Act::Write(&[2]),
            Act::Link(name(Area::Out, 2), true),
            Act::Rename(name(Area::Kept, 1), name(Area::Kept, 2), true),
            Act::Remove(name(Area::Out, 1), true),
        ],
    );
    folder
}

#[test]
fn a_crash_leaves_the_changes_that_stand(rt: HostRuntime) {
    for (stands, out, kept) in &CRASHES {
        let mut left = pending(&rt, rt.alloc()).crash(stands).expect(&rt, "memory");
        expect_listed(&rt, &mut left, Area::Out, out, 0);
        expect_listed(&rt, &mut left, Area::Kept, kept, 1);
        expect_counts(&rt, &left, [2, 0, 0]);
    }
}
