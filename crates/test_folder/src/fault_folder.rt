//! Folders whose calls fail.
use crate::expect_listed;
use rly_folder::{After, Area, FaultFolder, Folder, MemFolder, Name};
use std::process::Abort;

/// The call that fails, whether it is made nevertheless, and the behaviour after it; the calls that succeed, the
/// counters of calls, failures and syncs, and the numbers of the files handed out.
type Failure = (u64, bool, After, [bool; 4], [u64; 3], &'static [u64]);

const FAILURES: [Failure; 9] = [
    (0, false, After::GoesOn, [true; 4], [4, 0, 1], &[2]),
    (5, true, After::Stops, [true; 4], [4, 0, 1], &[2]),
    (
        1,
        true,
        After::GoesOn,
        [false, true, true, true],
        [4, 1, 1],
        &[],
    ),
    (
        2,
        false,
        After::GoesOn,
        [true, false, true, true],
        [4, 1, 1],
        &[],
    ),
    (
        2,
        true,
        After::GoesOn,
        [true, false, true, true],
        [4, 1, 1],
        &[2],
    ),
    (
        4,
        false,
        After::GoesOn,
        [true, true, true, false],
        [4, 1, 1],
        &[1],
    ),
    (
        4,
        true,
        After::GoesOn,
        [true, true, true, false],
        [4, 1, 1],
        &[2],
    ),
    (
        2,
        false,
        After::Stops,
        [true, false, false, false],
        [4, 3, 1],
        &[],
    ),
    (
        3,
        false,
        After::Stops,
        [true, true, false, false],
        [4, 2, 1],
        &[1],
    ),
];

/// Writes a file, hands it out under 1, syncs, and renames it to 2. Returns which calls succeed.
fn four_calls<F: Folder>(folder: &mut F) -> [bool; 4] {
    let (area, from) = (Area::Out, 1);
    let written = folder.write(&[9], 0).is_ok();
    let linked = folder.link(Name { area, number: from }).is_ok();
    let synced = folder.sync().is_ok();
    let renamed = folder.rename(Name { area, number: from }, Name { area, number: 2 });
    [written, linked, synced, renamed.is_ok()]
}

fn expect_calls<R: Abort, F: Folder>(rt: &R, folder: &mut F, row: Failure) {
    let done = four_calls(folder);
    expect!(*rt; done == row.3, row.0);
    let counted = [folder.calls(), folder.failures(), folder.syncs()];
    expect!(*rt; counted == row.4, row.0);
}

#[test]
fn the_chosen_call_fails(rt: HostRuntime) {
    for row in &FAILURES {
        let mut folder = FaultFolder::new(MemFolder::new(rt.alloc()), row.0, row.1, row.2);
        expect_calls(&rt, &mut folder, *row);
        let mut inside = folder.into_inner();
        expect_listed(&rt, &mut inside, Area::Out, row.5, row.0);
    }
}
