//! A folder that plays the neighbour of a peer: a crash at each call of a Custody. What it makes of files is tested with
//! the packets that it gives, and with the program.
use rly_folder::{After, Area, FaultFolder, Folder, FolderFile, MemFolder, Name};
use rly_link_folder::{Inbox, NotOpen};
use std::alloc::Global;
use std::process::Abort;

/// Three files that have numbers, durably.
fn numbered<R: Abort>(rt: &R, alloc: Global) -> MemFolder {
    let mut folder = MemFolder::new(alloc);
    for number in &[3, 4, 5] {
        let file = FolderFile::new([0, 7].to_vec(alloc).expect(rt, "memory"), 0);
        let (area, number) = (Area::Sent, *number);
        folder.put(Name { area, number }, file).expect(rt, "memory");
    }
    folder.sync().expect(rt, "no fault");
    folder
}

/// Returns the folder after the custody of all three, if it opens, and however far that came.
fn released(folder: FaultFolder<MemFolder>) -> MemFolder {
    match Inbox::open(folder, 2) {
        Ok(mut inbox) => {
            let _ = inbox.release(5);
            inbox.into_folder().into_inner()
        }
        Err(NotOpen::Failed(folder)) | Err(NotOpen::Apart(folder)) => folder.into_inner(),
    }
}

/// The last file is there as long as any is, of those whose number is above the station's or not.
#[test]
fn a_crash_in_a_custody_leaves_a_folder_that_opens(rt: HostRuntime) {
    for at in 1..9_u64 {
        for stands in &[[false, true], [true, false], [true, true], [false, false]] {
            let folder = numbered(&rt, rt.alloc());
            let left = released(FaultFolder::new(folder, at, false, After::Stops));
            let left = left.crash(stands).expect(&rt, "memory");
            let opened = Inbox::open(left, 5);
            expect!(rt; opened.is_ok_and(|inbox| inbox.last() == 5), at);
        }
    }
}
