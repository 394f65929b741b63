//! Three stations in a row, three in a ring, and one change at a time.
use rly_core::Params;
use rly_network::{StationPlan, check, lines_of};
use rly_plan::Plan;
use std::alloc::{AllocError, Global};
use std::process::Abort;

/// A buoy, whose application sends to station 9.
const BUOY: &str = "station = 3
peer = [{id = 1, station = 103, folder = 'in', destination = 9}]
hop = [{id = 1, station = 7, listen = 'a:1', remote = 'b:1', key = 'k', contacts = [[0, 9]]}]
route = [{destination = 'rest', hop = 1}]
";

/// A gateway.
const GATEWAY: &str = "station = 7
peer = [
  {id = 1, station = 3, listen = 'b:1', remote = 'a:1', key = 'k'},
  {id = 2, station = 9, listen = '[::]:2', remote = 'c:2'},
]
hop = [
  {id = 1, station = 9, listen = 'b:3', remote = 'c:1', contacts = [[0, 9]]},
  {id = 2, station = 107, folder = 'out', contacts = [[0, 9]]},
]
route = [
  {destination = 9, hop = 1},
  {destination = 7, hop = 2},
  {destination = 'rest', hop = 2},
]
";

/// A shore station, for which 50 is a destination of its own.
const SHORE: &str = "station = 9
peer = [{id = 1, station = 7, listen = '0.0.0.0:1', remote = 'b:3'}]
hop = [
  {id = 1, station = 109, folder = 'out', contacts = [[0, 9]]},
  {id = 2, station = 7, listen = 'c:2', remote = 'b:2', contacts = [[0, 9]]},
]
route = [
  {destination = 9, hop = 1},
  {destination = 7, hop = 2},
  {destination = 50, hop = 1},
]
";

/// Three stations in a ring, of which the last hands out what the rest brings.
const FIRST: &str = "station = 1
peer = [{id = 1, station = 3, listen = 'a:3', remote = 'c:3'}]
hop = [{id = 1, station = 2, listen = 'a:1', remote = 'b:1', contacts = [[0, 9]]}]
route = [{destination = 'rest', hop = 1}]
";

const SECOND: &str = "station = 2
peer = [{id = 1, station = 1, listen = 'b:1', remote = 'a:1'}]
hop = [{id = 1, station = 3, listen = 'b:2', remote = 'c:2', contacts = [[0, 9]]}]
route = [{destination = 'rest', hop = 1}]
";

const THIRD: &str = "station = 3
peer = [{id = 1, station = 2, listen = 'c:2', remote = 'b:2'}]
hop = [
  {id = 1, station = 103, folder = 'out', contacts = [[0, 9]]},
  {id = 2, station = 1, listen = 'c:3', remote = 'a:3', contacts = [[0, 9]]},
]
route = [{destination = 'rest', hop = 1}]
";

/// The plans of a network as texts.
type Texts = [&'static str; 3];

const ROW: Texts = [BUOY, GATEWAY, SHORE];

const RING: Texts = [FIRST, SECOND, THIRD];

/// A change of the plan at an index, a part and what stands in its place, and the lines of what is found.
type Change = (usize, &'static str, &'static str, &'static str);

fn row_changes() -> [Change; 16] {
    [
        (0, "station = 3\n", "station = 3\n", ""),
        (
            1,
            "  {destination = 9, hop = 1},\n",
            "",
            "station 3: peer[1].destination: destination 9 ends at station 7, which isn't its own\n",
        ),
        (
            2,
            "  {destination = 9, hop = 1},\n",
            "",
            "station 3: peer[1].destination: destination 9 stops at station 9, which has no route for it
station 7: route[1].hop: destination 9 stops at station 9, which has no route for it\n",
        ),
        (
            2,
            "{destination = 9, hop = 1}",
            "{destination = 9, hop = 2}",
            "station 3: peer[1].destination: destination 9 goes in a circle through station 7
station 7: route[1].hop: destination 9 goes in a circle through station 9
station 9: route[1].hop: destination 9 goes in a circle through station 7\n",
        ),
        (
            1,
            "station = 3,",
            "station = 4,",
            "station 3: hop[1].station: station 7 has no peer at a socket for this station\n",
        ),
        (
            0,
            "station = 7,",
            "station = 8,",
            "station 3: hop[1].station: no plan of station 8 is given\n",
        ),
        (
            1,
            "listen = 'b:1'",
            "listen = 'b:11'",
            "station 3: hop[1].remote: not where station 7 listens for this one\n",
        ),
        (
            1,
            "remote = 'a:1'",
            "remote = 'b:1'",
            "station 3: hop[1].listen: not where station 7 sends to this one\n",
        ),
        (
            1,
            ", key = 'k'",
            "",
            "station 3: hop[1].key: only one of this station and station 7 has a key\n",
        ),
        (
            1,
            "  {destination = 'rest', hop = 2},\n",
            "",
            "station 3: route[1].hop: \"rest\" stops at station 7, which has no route for it\n",
        ),
        (
            1,
            "remote = 'c:1', contacts = [[0, 9]]",
            "remote = 'c:1', contacts = []",
            "station 3: peer[1].destination: destination 9 stops at station 7, whose hop for it has no contacts
station 7: route[1].hop: destination 9 stops at station 7, whose hop for it has no contacts\n",
        ),
        (
            1,
            "'out', contacts = [[0, 9]]",
            "'out', contacts = []",
            "station 3: route[1].hop: \"rest\" stops at station 7, whose hop for it has no contacts
station 7: route[2].hop: destination 7 stops at station 7, whose hop for it has no contacts
station 7: route[3].hop: \"rest\" stops at station 7, whose hop for it has no contacts
station 9: route[2].hop: destination 7 stops at station 7, whose hop for it has no contacts\n",
        ),
        (
            1,
            "listen = '[::]:2'",
            "listen = '[::]:3'",
            "station 9: hop[2].remote: not where station 7 listens for this one\n",
        ),
        (
            0,
            "station = 3\n",
            "station = 50\n",
            "station 50: hop[1].station: station 7 has no peer at a socket for this station
station 9: route[3].hop: destination 50 ends at station 9, which isn't its own\n",
        ),
        (
            0,
            "destination = 9}",
            "destination = 77}",
            "station 3: peer[1].destination: destination 77 ends at station 7, which isn't its own\n",
        ),
        (
            1,
            "station = 7\n",
            "station = 9\n",
            "station 9: station: another plan has this number
station 3: hop[1].station: no plan of station 7 is given
station 9: hop[1].remote: not where station 9 listens for this one
station 9: hop[1].listen: not where station 9 sends to this one
station 9: route[1].hop: destination 9 goes in a circle through station 9
station 9: hop[2].station: no plan of station 7 is given\n",
        ),
    ]
}

fn ring_changes() -> [Change; 2] {
    [
        (0, "station = 1\n", "station = 1\n", ""),
        (
            2,
            "'rest', hop = 1}",
            "'rest', hop = 2}",
            "station 1: route[1].hop: \"rest\" goes in a circle through station 1
station 2: route[1].hop: \"rest\" goes in a circle through station 2
station 3: route[1].hop: \"rest\" goes in a circle through station 3\n",
        ),
    ]
}

/// A text with another part in place of one of its own.
fn edited(alloc: Global, text: &str, old: &str, new: &str) -> Result<String, AllocError> {
    match text.split_once(old) {
        Some((front, back)) => format!(in alloc; "{front}{new}{back}"),
        None => Ok(String::new(alloc)),
    }
}

/// The station of a plan's text.
fn station(rt: &impl Abort, alloc: Global, text: &str, device: Params) -> StationPlan {
    let plan = Plan::from_toml(alloc, text).expect(rt, "a plan");
    StationPlan { plan, device }
}

/// Checks what is found in three plans, of which one is changed.
fn expect_found(rt: &impl Abort, alloc: Global, texts: &Texts, change: &Change, device: Params) {
    let (changed, old, new, wants) = *change;
    let mut stations = Vec::new(alloc);
    for index in 0..texts.len() {
        let added = if index == changed {
            let text = edited(alloc, texts[index], old, new).expect(rt, "memory");
            station(rt, alloc, text.as_str(), device)
        } else {
            station(rt, alloc, texts[index], Params::DEFAULT)
        };
        stations.push(added).expect(rt, "memory");
    }
    let found = check(alloc, &stations).expect(rt, "memory");
    let lines = lines_of(alloc, &found).expect(rt, "memory");
    assert!(*rt; lines.as_str() == wants, "{old}\n{new}\n{lines}");
}

#[test]
fn each_change_is_found_at_its_place(rt: HostRuntime) {
    for change in &row_changes() {
        expect_found(&rt, rt.alloc(), &ROW, change, Params::DEFAULT);
    }
    for change in &ring_changes() {
        expect_found(&rt, rt.alloc(), &RING, change, Params::DEFAULT);
    }
}

#[test]
fn a_device_that_is_too_small_is_found(rt: HostRuntime) {
    let alloc = rt.alloc();
    let change = (
        1,
        "station = 7\n",
        "station = 7\n",
        "station 7: hop: the device has only 1\n",
    );
    expect_found(
        &rt,
        alloc,
        &ROW,
        &change,
        Params {
            hops: 1,
            ..Params::DEFAULT
        },
    );
    let change = (
        1,
        "station = 7\n",
        "station = 7\n",
        "station 7: peer: the device has only 1\n",
    );
    expect_found(
        &rt,
        alloc,
        &ROW,
        &change,
        Params {
            peers: 1,
            ..Params::DEFAULT
        },
    );
    let short = "station 3: hop[1].station: station 7 takes only shorter payloads
station 9: hop[2].station: station 7 takes only shorter payloads\n";
    let change = (1, "station = 7\n", "station = 7\n", short);
    expect_found(
        &rt,
        alloc,
        &ROW,
        &change,
        Params {
            payload: 1_199,
            ..Params::DEFAULT
        },
    );
}
