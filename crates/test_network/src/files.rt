//! Network files: what is found where one is changed, and ids that stay (docs/NETWORK.md).
use rly_network_file::{NetworkFault, NetworkFile, NetworkIds, assign, is_network, write};
use std::alloc::Global;
use std::process::Abort;

/// Three stations in a row, with a sensor at one end and a desk at the other.
const NETWORK: &str = "step = 130

station = [
    { number = 3, name = \"buoy\", address = \"127.0.0.1\" },
    { number = 7, name = \"relay\", address = \"127.0.0.1\" },
    { number = 9, name = \"shore\", address = \"127.0.0.1\" },
]

# Two passes of a satellite, as `examples/contacts` prints them, in microseconds since the Unix epoch.
[contacts]
satellite = [[1803880800000000, 1803881400000000], [1803924000000000, 1803924600000000]]

[[link]]
from = \"buoy\"
to = \"relay\"
both = true
rate = 1200

[[link]]
from = \"relay\"
to = \"shore\"
both = true
contacts = \"satellite\"

[[folder]]
at = \"buoy\"
number = 1
name = \"sensor\"
in = \"sensor/in\"
out = \"sensor/out\"
destination = \"desk\"

[[folder]]
at = \"shore\"
number = 12
name = \"desk\"
in = \"desk/in\"
out = \"desk/out\"
destination = \"sensor\"

[[path]]
to = \"desk\"
via = [[\"buoy\", \"relay\", \"shore\"]]

[[path]]
to = \"sensor\"
via = [[\"shore\", \"relay\", \"buoy\"]]
";

/// A part of the network, what stands in its place, and the lines of what is found.
type Change = (&'static str, &'static str, &'static str);

fn changes() -> [Change; 17] {
    [
        ("step = 130", "step = 130", ""),
        (
            "both = true
rate",
            "both = true
raet",
            "link[1].raet: unknown key; write from to both contacts resend rate lead key from_port to_port
",
        ),
        (
            "to = \"relay\"",
            "to = \"rely\"",
            "link[1].to: nothing is called rely
",
        ),
        (
            "number = 9",
            "number = 7",
            "station[3].number: another station has it
",
        ),
        (
            "step = 130",
            "step = ",
            "line 1, column 8: not TOML from here on
",
        ),
        (
            "1803881400000000]",
            "1803924000000001]",
            "contacts.satellite[2]: it begins before the one before it ends; write contacts in order
",
        ),
        (
            "both = true
rate = 1200",
            "rate = 1200",
            "path[2]: station 7 has neither a link nor a folder to 3
",
        ),
        (
            "[\"buoy\", \"relay\", \"shore\"]",
            "[\"buoy\", \"shore\"]",
            "path[1]: station 3 has neither a link nor a folder to 9
",
        ),
        (
            "[\"buoy\", \"relay\", \"shore\"]",
            "[\"relay\", \"shore\"]",
            "folder[1].destination: station 3: peer[2].destination: destination 12 stops at station 3, which has no route for it
",
        ),
        (
            "[\"buoy\", \"relay\", \"shore\"]",
            "[\"buoy\", \"relay\", \"shore\"], [\"relay\", \"buoy\"]",
            "path[1].via[2]: two next hops of station 7: 3, and 9 by path[1]
",
        ),
        (
            "[\"buoy\", \"relay\", \"shore\"]",
            "[\"buoy\", \"relay\", \"buoy\"]",
            "folder[1].destination: station 3: peer[2].destination: destination 12 goes in a circle through station 7
path[1]: station 3: route[1].hop: destination 12 goes in a circle through station 7
path[1]: station 7: route[1].hop: destination 12 goes in a circle through station 3
",
        ),
        (
            "contacts = \"satellite\"",
            "contacts = []",
            "folder[1].destination: station 3: peer[2].destination: destination 12 stops at station 7, whose hop for it has no contacts
path[1]: station 3: route[1].hop: destination 12 stops at station 7, whose hop for it has no contacts
path[1]: station 7: route[1].hop: destination 12 stops at station 7, whose hop for it has no contacts
folder[2].destination: station 9: peer[2].destination: destination 1 stops at station 9, whose hop for it has no contacts
path[2]: station 9: route[1].hop: destination 1 stops at station 9, whose hop for it has no contacts
",
        ),
        (
            "address = \"127.0.0.1\" },
]",
            "address = \"127.0.0.1\", payload = 1199 },
]",
            "link[2].to: station 7: hop[2].station: station 9 takes only shorter payloads
",
        ),
        (
            "\"relay\", address = \"127.0.0.1\"",
            "\"relay\", address = \"127.0.0.1\", hops = 1",
            "station[2]: station 7: hop: the device has only 1
",
        ),
        (
            "destination = \"desk\"",
            "destination = \"shore\"",
            "folder[1].destination: station 3: peer[2].destination: destination 9 stops at station 3, which has no route for it
",
        ),
        (
            "destination = \"desk\"",
            "destination = \"desk\"
load = 1201",
            "link[1].rate: 1201 bytes a second go from station 3 to 7, and contacts at this rate carry less
",
        ),
        (
            "number = 12",
            "number = 7",
            "folder[2].number: another neighbour of the station has it; write another
",
        ),
    ]
}

/// The plans that are written for a network, one after another.
fn plans(alloc: Global, text: &str, ids: &str) -> Result<String, NetworkFault> {
    let file = NetworkFile::from_toml(alloc, text, &[])?;
    let before = NetworkIds::from_text(alloc, ids)?;
    let (ids, mut plans) = assign(alloc, &file, Some(&before))?;
    for station in &write(alloc, &file, &ids)? {
        plans.push_str(station.plan.as_str())?;
    }
    Ok(plans)
}

/// A text with another part in place of one of its own.
fn edited(rt: &impl Abort, alloc: Global, old: &str, new: &str) -> String {
    let (front, back) = NETWORK.split_once(old).expect(rt, "the part");
    let text = format!(in alloc; "{front}{new}{back}");
    text.expect(rt, "memory")
}

/// The lines that are found in a network file: none if plans are written for it. `None` if memory was refused.
fn found_in(alloc: Global, text: &str) -> Option<String> {
    match plans(alloc, text, "") {
        Ok(_plans) => Some(String::new(alloc)),
        Err(NetworkFault::Found(lines)) => Some(lines),
        Err(NetworkFault::Memory) => None,
    }
}

fn expect_found(rt: &impl Abort, alloc: Global, change: &Change) {
    let (old, new, wants) = *change;
    let text = edited(rt, alloc, old, new);
    let found = found_in(alloc, text.as_str()).expect(rt, "memory");
    assert!(*rt; found.as_str() == wants, "{new}: {found}");
}

#[test]
fn each_change_of_a_file_is_found_at_its_place(rt: HostRuntime) {
    assert!(rt; is_network(rt.alloc(), NETWORK), "a network");
    for change in &changes() {
        expect_found(&rt, rt.alloc(), change);
    }
}

/// Ids of a station whose first neighbours were taken out.
const BEFORE: &str = "[[station]]\nnumber = 3\npeer = [8, 7]\nhop = [8, 5]\n";

#[test]
fn ids_stay(rt: HostRuntime) {
    let plans = plans(rt.alloc(), NETWORK, BEFORE).unwrap_or(String::new(rt.alloc()));
    let wants = "number = 3\npeer = [8, 7, 1]\nhop = [8, 5, 7, 1]\n";
    assert!(rt; plans.as_str().contains(wants), "{plans}");
    let wants =
        "[[peer]]\nid = 1\nstation = 8\n# Taken out: it keeps its id.\nlisten = \"127.0.0.1:7391\"\nremote = \"127.0.0.1:9\"\n";
    assert!(rt; plans.as_str().contains(wants), "{plans}");
}
