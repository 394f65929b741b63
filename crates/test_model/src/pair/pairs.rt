//! Two relays whose packets come too early, are duplicated, or find an end that crashed.
use crate::expect::{SMALL, expect};
use crate::pair::script::{
    Act, ONE_CALL, Said, Script, Stage, expect_scripts, make, make_all, new_pair,
};
use rly_disk::Torn;
use rly_world_pair::Pair;
use std::alloc::Global;
use std::process::Abort;

/// Three datagrams at the upper, each picked, fetched and sent: packets 0, 1 and 2.
const THREE_SENT: Stage<'static> = Stage {
    acts: &[
        Act::ComesIn(1, 1_000, 1),
        Act::ComesIn(2, 2_000, 1),
        Act::ComesIn(3, 3_000, 1),
        Act::Calls(0, 7),
    ],
    sent: &[
        Said::Data(1, 1_000, 1, 1),
        Said::Data(2, 2_000, 2, 1),
        Said::Data(3, 3_000, 3, 1),
    ],
};

/// Their number.
const THREE: usize = 3;

/// Number 2 comes first: a gap, and the upper does nothing on its reply.
const COMES_EARLY: Stage<'static> = Stage {
    acts: &[Act::LowerTakes(1), Act::UpperHears(3)],
    sent: &[Said::Custody(0)],
};

/// Number 1 comes, and comes again. The upper receives both custodies.
const COMES_AGAIN: Stage<'static> = Stage {
    acts: &[
        Act::LowerTakes(0),
        Act::LowerTakes(0),
        Act::UpperHears(4),
        ONE_CALL,
        Act::UpperHears(5),
    ],
    sent: &[Said::Custody(1), Said::Custody(1)],
};

/// The lower crashes before it makes the Take of number 2. A copy of number 1 shows its state then.
const CRASHES_WITHOUT_IT: Stage<'static> = Stage {
    acts: &[
        Act::LowerHears(1),
        Act::LowerCrashes(Torn::AsSynced, 0),
        Act::LowerTakes(0),
    ],
    sent: &[Said::Custody(1)],
};

/// The lower crashes after it made the Take of number 2, before it replies.
const CRASHES_WITH_IT: Stage<'static> = Stage {
    acts: &[
        Act::LowerHears(1),
        Act::LowerMakes,
        Act::LowerCrashes(Torn::AsSynced, 0),
        Act::LowerTakes(0),
    ],
    sent: &[Said::Custody(2)],
};

/// Number 2 comes again, and the upper releases it.
const IS_RELEASED: Stage<'static> = Stage {
    acts: &[Act::LowerTakes(1), Act::UpperHears(7), ONE_CALL],
    sent: &[Said::Custody(2)],
};

/// The upper crashes: its window is 3 to below 4.
const UPPER_CRASHES: Stage<'static> = Stage {
    acts: &[Act::UpperCrashes(Torn::AsSynced, 0), ONE_CALL, ONE_CALL],
    sent: &[Said::Data(3, 3_000, 3, 1)],
};

/// Two more datagrams wait while the three are taken.
const THREE_TAKEN: Stage<'static> = Stage {
    acts: &[
        Act::ComesIn(4, 4_000, 1),
        Act::ComesIn(5, 5_000, 1),
        Act::LowerTakes(0),
        Act::LowerTakes(1),
        Act::LowerTakes(2),
    ],
    sent: &[Said::Custody(1), Said::Custody(2), Said::Custody(3)],
};

/// Three datagrams are released, and the two that wait are picked with the release: the core learns their numbers from
/// the replies that come after the release's.
const PICKED_BESIDE_A_RELEASE: Stage<'static> = Stage {
    acts: &[
        Act::UpperHears(5),
        Act::Turn(0),
        Act::PicksAhead(0),
        Act::PicksAhead(0),
        Act::UpperMakes,
        Act::UpperMakes,
        Act::UpperMakes,
        Act::UpperAnswers,
        Act::UpperAnswers,
        Act::UpperAnswers,
        ONE_CALL,
        ONE_CALL,
    ],
    sent: &[Said::Data(4, 4_000, 4, 1), Said::Data(5, 5_000, 5, 1)],
};

/// The lower's device fails as it is opened, which begins with a sync: no call is made and no custody sent.
const STAYS_SHUT: Stage<'static> = Stage {
    acts: &[Act::LowerCrashes(Torn::AsSynced, 1), Act::LowerTakes(0)],
    sent: &[],
};

/// The lower crashes again, and its device is opened.
const OPENS: Stage<'static> = Stage {
    acts: &[Act::LowerCrashes(Torn::AsRead, 0), Act::LowerTakes(0)],
    sent: &[Said::Custody(1)],
};

const SCRIPTS: [Script<'static>; 4] = [
    Script {
        shows: "the lower crashes without the command",
        upper: &SMALL,
        lower: &SMALL,
        stages: &[
            THREE_SENT,
            COMES_EARLY,
            COMES_AGAIN,
            CRASHES_WITHOUT_IT,
            IS_RELEASED,
            UPPER_CRASHES,
        ],
    },
    Script {
        shows: "the lower crashes with the command",
        upper: &SMALL,
        lower: &SMALL,
        stages: &[
            THREE_SENT,
            COMES_EARLY,
            COMES_AGAIN,
            CRASHES_WITH_IT,
            IS_RELEASED,
            UPPER_CRASHES,
        ],
    },
    Script {
        shows: "picks are made beside a release",
        upper: &SMALL,
        lower: &SMALL,
        stages: &[THREE_SENT, THREE_TAKEN, PICKED_BESIDE_A_RELEASE],
    },
    Script {
        shows: "an unopened lower sends no custody",
        upper: &SMALL,
        lower: &SMALL,
        stages: &[THREE_SENT, STAYS_SHUT, OPENS],
    },
];

#[test]
fn the_worked_exchanges(rt: HostRuntime) {
    expect_scripts(&rt, rt.alloc(), &SCRIPTS);
}

/// Returns the number of calls of the upper before it resends a datagram, if it does so within four.
fn calls_of<R: Abort>(rt: &R, alloc: Global, pair: &mut Pair) -> Option<u64> {
    for calls in 1..5 {
        make(rt, alloc, pair, ONE_CALL);
        if pair.packets().len() > THREE {
            return Some(calls);
        }
    }
    None
}

/// The upper sends three datagrams and crashes, and this call of its device fails then, counted from the opening's
/// first. Returns the number of calls before it resends a datagram, if it does so within four.
fn calls_after_crash<R: Abort>(rt: &R, alloc: Global, pair: &mut Pair, at: u64) -> Option<u64> {
    make_all(rt, alloc, pair, THREE_SENT.acts);
    expect(rt, pair.packets().len() == THREE, "three packets");
    make(rt, alloc, pair, Act::UpperCrashes(Torn::AsSynced, at));
    calls_of(rt, alloc, pair)
}

/// The same with a new pair.
fn calls_until_sent<R: Abort>(rt: &R, alloc: Global, at: u64) -> Option<u64> {
    let mut pair = new_pair(rt, alloc, &SMALL, &SMALL);
    calls_after_crash(rt, alloc, &mut pair, at)
}

/// Returns the first of 32 device calls that may fail with the upper still resending a datagram: the first after those
/// of the opening.
fn first_after_opening<R: Abort>(rt: &R, alloc: Global) -> u64 {
    for at in 1..33 {
        if calls_until_sent(rt, alloc, at).is_some() {
            return at;
        }
    }
    33
}

/// Tests that call, and the one after it.
fn expect_made_again<R: Abort>(rt: &R, alloc: Global) {
    let at = first_after_opening(rt, alloc);
    let found = calls_until_sent(rt, alloc, at);
    expect(rt, found == Some(3), "a call more");
    let later = calls_until_sent(rt, alloc, at.saturating_add(1));
    expect(rt, later == Some(2), "the window and the Fetch");
}

/// An upper whose opening fails sends nothing. The first call after those of the opening is the read of a Fetch: the
/// reply is 13, and the core retries it. A later call isn't made by then.
#[test]
fn fetch_whose_read_fails_is_made_again(rt: HostRuntime) {
    expect_made_again(&rt, rt.alloc());
}
