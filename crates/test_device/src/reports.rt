//! The text of a station's report with the greatest numbers, which no station has.

use rly_core::{HopId, PeerId, Refusal};
use rly_daemon_report::{DeviceReport, HopReport, LinkReport, PeerReport, Report, text_of};
use rly_machine::{CodelState, HopStatus};

/// A hop each of whose numbers is the last of 64 bits.
const GREATEST_HOP: HopStatus = HopStatus {
    taken: u64::MAX,
    queued: u64::MAX,
    flight: u64::MAX,
    dropped: u64::MAX,
    expired: u64::MAX,
    released: u64::MAX,
    codel: CodelState {
        first_above_time: u64::MAX,
        drop_next: u64::MAX,
        count: u64::MAX,
        lastcount: u64::MAX,
        dropping: true,
    },
    moment: u64::MAX,
};

/// A link each of whose counts is, and on which a packet was received at moment 0.
const GREATEST_LINK: LinkReport = LinkReport {
    heard: u64::MAX,
    custody: u64::MAX,
    refused: u64::MAX,
    malformed: u64::MAX,
    wrong: u64::MAX,
    repeats: u64::MAX,
    heards: u64::MAX,
    last: Some(0),
};

const GREATEST_PEER: PeerReport = PeerReport {
    peer: PeerId(65_535),
    link: GREATEST_LINK,
};

/// A hop whose Show was refused, whose contact never opens again, and whose link wasn't used.
const BROKEN: HopReport = HopReport {
    hop: HopId(2),
    answer: Err(Refusal::Broken),
    is_open: false,
    change: None,
    link: UNUSED,
};

const UNUSED: LinkReport = LinkReport {
    heard: 0,
    custody: 0,
    refused: 0,
    malformed: 0,
    wrong: 0,
    repeats: 0,
    heards: 0,
    last: None,
};

/// Their report at the last moment of 64 bits.
const GREATEST_TEXT: &str = "report 18446744073709551615
hop 65535 taken 18446744073709551615 queued 18446744073709551615 flight 18446744073709551615 dropped 18446744073709551615 released 18446744073709551615 \
first 18446744073709551615 next 18446744073709551615 count 18446744073709551615 last 18446744073709551615 dropping yes moment 18446744073709551615 \
expired 18446744073709551615 contact open until 18446744073709551615 wrong 18446744073709551615 \
heard 18446744073709551615 custody 18446744073709551615 refused 18446744073709551615 malformed 18446744073709551615 \
repeats 18446744073709551615 heards 18446744073709551615 last 18446744073709
hop 2 refused 11 broken contact closed wrong 0 heard 0 custody 0 refused 0 malformed 0 repeats 0 heards 0
peer 65535 heard 18446744073709551615 custody 18446744073709551615 refused 18446744073709551615 malformed 18446744073709551615 \
wrong 18446744073709551615 repeats 18446744073709551615 heards 18446744073709551615 last 18446744073709
device seq 18446744073709551615 rounds 18446744073709551615 segments 18446744073709551615
";

/// The greatest numbers are printed, and a refusal in place of a hop's numbers.
#[test]
fn the_greatest_numbers(rt: HostRuntime) {
    let hop = HopReport {
        hop: HopId(65_535),
        answer: Ok(GREATEST_HOP),
        is_open: true,
        change: Some(u64::MAX),
        link: GREATEST_LINK,
    };
    let report = Report {
        moment: u64::MAX,
        hops: &[hop, BROKEN],
        peers: &[GREATEST_PEER],
        device: DeviceReport {
            seq: u64::MAX,
            rounds: u64::MAX,
            segments: u64::MAX,
        },
    };
    let text = text_of(rt.alloc(), &report);
    expect!(rt; text.is_ok_and(|text| text.as_str() == GREATEST_TEXT));
}
