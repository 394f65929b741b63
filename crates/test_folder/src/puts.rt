//! Files that a program puts into a folder: a failure and a crash at each call.
use crate::expect_listed;
use rly_folder::{After, Area, FaultFolder, MemFolder};
use rly_folder_clients::{PutFault, put};

const MOST: u64 = 3;

/// Each of the four calls fails, and is made nevertheless or not: the file is there once or not at all.
#[test]
fn a_failure_at_each_call_of_a_put(rt: HostRuntime) {
    for at in 1..5_u64 {
        for made in &[false, true] {
            let inside = MemFolder::new(rt.alloc());
            let mut folder = FaultFolder::new(inside, at, *made, After::GoesOn);
            expect!(rt; put(&mut folder, &[5], 0, MOST, 0) == Err(PutFault::Folder), at);
            let there = at == 4 || (at == 3 && *made);
            let numbers: &[u64] = if there { &[1] } else { &[] };
            expect_listed(&rt, &mut folder.into_inner(), Area::New, numbers, at);
        }
    }
}

/// The folder stops at each call, and a crash leaves what was pending or not. A put that ended is there.
#[test]
fn a_crash_at_each_call_of_a_put(rt: HostRuntime) {
    for at in 1..6_u64 {
        for stands in &[false, true] {
            let inside = MemFolder::new(rt.alloc());
            let mut folder = FaultFolder::new(inside, at, *stands, After::Stops);
            let ended = put(&mut folder, &[5], 0, MOST, 0).is_ok();
            expect!(rt; ended == (at == 5), at);
            let left = folder.into_inner().crash(&[*stands]);
            let mut left = left.expect(&rt, "memory");
            // The link is pending at the sync; a link that failed is pending if it was made.
            let there = ended || (*stands && (at == 3 || at == 4));
            let numbers: &[u64] = if there { &[1] } else { &[] };
            expect_listed(&rt, &mut left, Area::New, numbers, at);
        }
    }
}
