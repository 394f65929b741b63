//! The link clocks of plans, which `rly plan` doesn't print.
use rly_core::HopId;
use rly_plan::Plan;
use std::process::Abort;

/// The plan of `docs/FORMATS.md`, "The plan".
const WHOLE: &str = "station = 7
[[peer]]
id = 1
station = 3
listen = \"127.0.0.1:4001\"
remote = \"127.0.0.1:4002\"
[[hop]]
id = 1
station = 9
listen = \"127.0.0.1:4003\"
remote = \"127.0.0.1:4004\"
resend = 160
contacts = [[100, 200], [300, 350]]
[[route]]
destination = 12
hop = 1
";

/// Ids that are no hop of the whole plan.
const ABSENT: [u16; 3] = [0, 2, 65_535];

/// A moment, and the link clock then.
const CLOCK: [(u64, u64); 5] = [(0, 0), (150, 50), (250, 100), (325, 125), (1000, 150)];

fn clock(rt: &impl Abort, plan: &Plan) {
    for (moment, open) in &CLOCK {
        expect!(rt; plan.link(HopId(1), *moment) == *open, *moment);
    }
    for absent in &ABSENT {
        expect!(rt; plan.link(HopId(*absent), 1000) == 0);
    }
}

#[test]
fn the_link_clock_counts_open_time(rt: HostRuntime) {
    clock(
        &rt,
        &Plan::from_toml(rt.alloc(), WHOLE).expect(&rt, "no fault"),
    );
}
