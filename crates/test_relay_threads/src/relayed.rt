//! A relay that runs to its end, and its result.

use rly_core::PeerId;
use rly_disk::Disk;
use rly_flush::NoWatch;
use rly_journal::Journal;
use rly_link::{MemLink, MemWaker, Post, Turn};
use rly_plan::Plan;
use rly_threads::{Relayed, run_relay};
use std::alloc::Global;
use std::process::Abort;
use std::sync::Wait;
use std::thread::Threads;
use std::time::{Clock, Duration};

/// Station 7, with stations 3 and 4 upstream and station 9 as the next hop.
const PLAN: &str = r#"
station = 7
[[peer]]
id = 1
station = 3
listen = "127.0.0.1:4001"
remote = "127.0.0.1:4002"
[[peer]]
id = 2
station = 4
listen = "127.0.0.1:4005"
remote = "127.0.0.1:4006"
[[hop]]
id = 1
station = 9
listen = "127.0.0.1:4003"
remote = "127.0.0.1:4004"
contacts = [[100, 200]]
[[route]]
destination = 12
hop = 1
"#;

/// The result of a relay.
#[derive(Clone, Copy)]
pub(super) struct Left {
    pub(super) broken: bool,
    pub(super) is_cut: bool,
    pub(super) complete: bool,
    /// The number of its workers, of those that had a thread, and of packets sent.
    pub(super) workers: usize,
    pub(super) ran: usize,
    pub(super) sent: usize,
    /// The last numbers of the first two peers.
    pub(super) lasts: (Option<u64>, Option<u64>),
}

/// The numbers of a relay's result.
fn left_in<D: Disk, T: Turn>(relayed: &Relayed<D, MemLink, T, MemWaker>) -> Left {
    let journal = &relayed.finished.journal;
    let mut left = Left {
        broken: relayed.finished.broken,
        is_cut: relayed.is_cut,
        complete: relayed.complete,
        workers: relayed.ended.len(),
        ran: 0,
        sent: 0,
        lasts: (journal.last(PeerId(1)).ok(), journal.last(PeerId(2)).ok()),
    };
    for ended in &relayed.ended {
        if let Some(worker) = ended {
            left.ran = left.ran.saturating_add(1);
            left.sent = left
                .sent
                .saturating_add(worker.post.link.deliveries().len());
        }
    }
    left
}

/// The plan of station 7.
fn plan<R: Abort>(rt: &R, alloc: Global) -> Plan {
    Plan::from_toml(alloc, PLAN).ok().expect(rt, "a plan")
}

/// Runs a relay of these posts to its end.
fn relayed<R: Abort + Threads + Wait + Clock + Sync, D: Disk + Drop, T: Turn + Drop + Send>(
    rt: &R,
    alloc: Global,
    journal: Journal<D>,
    posts: Vec<Post<MemLink, T, MemWaker>>,
) -> Relayed<D, MemLink, T, MemWaker> {
    let plan = plan(rt, alloc);
    if posts.is_empty() || posts.len() > 256 {
        panic!(rt; "1 to 256 posts");
    }
    let mut bell = MemWaker::new();
    let gather = Duration::ZERO;
    run_relay(
        rt,
        alloc,
        journal,
        gather,
        &plan,
        posts,
        &mut bell,
        &mut NoWatch,
    )
    .ok()
    .expect(rt, "a relay")
}

/// Runs a relay of these posts to its end, and returns its result and its journal.
pub(super) fn run<R: Abort + Threads + Wait + Clock + Sync, D: Disk + Drop, T: Turn + Drop + Send>(
    rt: &R,
    alloc: Global,
    journal: Journal<D>,
    posts: Vec<Post<MemLink, T, MemWaker>>,
) -> (Left, Journal<D>) {
    let relayed = relayed(rt, alloc, journal, posts);
    (left_in(&relayed), relayed.finished.journal)
}

/// The same without the journal.
pub(super) fn left_by<
    R: Abort + Threads + Wait + Clock + Sync,
    D: Disk + Drop,
    T: Turn + Drop + Send,
>(rt: &R, alloc: Global, journal: Journal<D>, posts: Vec<Post<MemLink, T, MemWaker>>) -> Left {
    let (left, _journal) = run(rt, alloc, journal, posts);
    left
}
