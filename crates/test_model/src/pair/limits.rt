//! Two relays, with age limits on the upper's datagrams: an expired one goes to no relay, and one
//! that is sent keeps its limit at the next relay, where it starts anew.
use crate::expect::SMALL;
use crate::pair::script::{Act, Said, Script, Stage, expect_script, expect_scripts};
use rly_core::{Geometry, Params};
use rly_disk::Torn;
use std::alloc::Global;
use std::process::Abort;

/// A limit. All datagrams come at time 0.
const LIMIT: u64 = 10;

/// The first time at which one with that limit has expired.
const LATE: u64 = 11;

/// The greatest limit.
const GREATEST: u64 = 1_099_511_627_775;

/// The smallest device that holds one datagram.
const ONE: Geometry = Geometry {
    params: Params {
        hops: 1,
        peers: 1,
        items: 1,
        bytes: 4_096,
        ..Params::DEFAULT
    },
    segments: 2,
    length: 82_503,
};

/// Two of five datagrams are late. The first of three expires at the Pick of the second, and the third at one after
/// which none is left. The fourth hasn't expired: it came in after the late time. The custody numbers continue without
/// a gap.
const SOME_ARE_LATE: [Stage<'static>; 2] = [
    Stage {
        acts: &[
            Act::ComesIn(1, LIMIT, 1),
            Act::ComesIn(2, 0, 1),
            Act::ComesIn(3, LIMIT, 1),
            Act::Calls(LATE, 4),
            Act::ComesIn(4, LIMIT, 1),
            Act::ComesIn(5, 0, 1),
            Act::Calls(LATE, 4),
        ],
        sent: &[
            Said::Data(1, 0, 2, 1),
            Said::Data(2, LIMIT, 4, 1),
            Said::Data(3, 0, 5, 1),
        ],
    },
    Stage {
        acts: &[Act::LowerTakes(0), Act::LowerTakes(1), Act::LowerTakes(2)],
        sent: &[Said::Custody(1), Said::Custody(2), Said::Custody(3)],
    },
];

/// A crash comes after a datagram went into flight, and then its limit passes.
const ONE_IS_IN_FLIGHT: [Stage<'static>; 1] = [Stage {
    acts: &[
        Act::ComesIn(1, LIMIT, 1),
        Act::PicksAhead(LIMIT),
        Act::UpperMakes,
        Act::UpperAnswers,
        Act::UpperCrashes(Torn::AsSynced, 0),
        Act::Calls(LATE, 2),
    ],
    sent: &[Said::Data(1, LIMIT, 1, 1)],
}];

/// An upper that crashes after a Pick sends the datagrams that were in flight, whatever their limits: only waiting ones
/// expire.
const SCRIPTS: [Script<'static>; 2] = [
    Script {
        shows: "late datagrams are not sent",
        upper: &SMALL,
        lower: &SMALL,
        stages: &SOME_ARE_LATE,
    },
    Script {
        shows: "limits end in flight",
        upper: &SMALL,
        lower: &SMALL,
        stages: &ONE_IS_IN_FLIGHT,
    },
];

/// The effect of a datagram's limit at the lower.
#[derive(Clone, Copy)]
struct Below {
    /// Its limit at the upper.
    limit: u64,
    /// The time of a Pick at the lower, where it came at time 0.
    moment: u64,
    /// True iff it expires at that Pick.
    expires: bool,
}

/// A datagram without a limit never expires; another one does at the first time after its limit.
const BELOW: [Below; 5] = [
    Below {
        limit: 0,
        moment: GREATEST,
        expires: false,
    },
    Below {
        limit: 5_000,
        moment: 5_000,
        expires: false,
    },
    Below {
        limit: 5_000,
        moment: 5_001,
        expires: true,
    },
    Below {
        limit: GREATEST,
        moment: GREATEST,
        expires: false,
    },
    Below {
        limit: GREATEST,
        moment: GREATEST + 1,
        expires: true,
    },
];

/// The lower has room for one datagram. It takes the first, picks at a late time, and has room for the second if the
/// first has expired: one in flight still fills it, and it refuses the second (6).
fn expect_below<R: Abort>(rt: &R, alloc: Global, row: &Below) {
    let acts = [
        Act::ComesIn(1, row.limit, 1),
        Act::ComesIn(2, 0, 1),
        Act::Calls(0, 5),
        Act::LowerTakes(0),
        Act::LowerPicks(row.moment),
        Act::LowerTakes(1),
    ];
    let second = match row.expires {
        true => Said::Custody(2),
        false => Said::Refused(2, 6),
    };
    let sent = [
        Said::Data(1, row.limit, 1, 1),
        Said::Data(2, 0, 2, 1),
        Said::Custody(1),
        second,
    ];
    let stages = [Stage {
        acts: &acts,
        sent: &sent,
    }];
    let script = Script {
        shows: "limits arrive below",
        upper: &SMALL,
        lower: &ONE,
        stages: &stages,
    };
    expect_script(rt, alloc, &script);
}

/// Runs scripts, and compares the arrivals at the lower.
fn expect_limits<R: Abort>(rt: &R, alloc: Global, scripts: &[Script<'static>], rows: &[Below]) {
    expect_scripts(rt, alloc, scripts);
    for row in rows {
        expect_below(rt, alloc, row);
    }
}

#[test]
fn limits_at_the_upper_and_below(rt: HostRuntime) {
    expect_limits(&rt, rt.alloc(), &SCRIPTS, &BELOW);
}
