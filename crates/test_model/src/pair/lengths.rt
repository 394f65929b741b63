//! Two relays with long payloads. If the lower's spool is formatted for shorter ones, a longer one
//! is refused each time that it comes, and none after it is taken.
use crate::expect::SMALL;
use crate::pair::script::{Act, ONE_CALL, Said, Script, Stage, expect_scripts};
use rly_core::{Geometry, Params};

/// The maximum payload length of the small device.
const SHORT: usize = 1_200;

/// The maximum payload length of any.
const LONGEST: usize = 8_192;

/// The smallest device that holds 16 datagrams and 8,192 bytes of payload, which one datagram may have.
const LONG: Geometry = Geometry {
    params: Params {
        hops: 1,
        peers: 1,
        items: 16,
        bytes: 8_192,
        payload: 8_192,
        ..Params::DEFAULT
    },
    segments: 2,
    length: 534_492,
};

/// The upper sends three datagrams, the second of which is a byte too long for the lower: packets 0, 1 and 2.
const THREE_ARE_SENT: Stage<'static> = Stage {
    acts: &[
        Act::ComesIn(1, 0, SHORT),
        Act::ComesIn(2, 0, SHORT + 1),
        Act::ComesIn(3, 0, SHORT),
        Act::Calls(0, 7),
    ],
    sent: &[
        Said::Data(1, 0, 1, SHORT),
        Said::Data(2, 0, 2, SHORT + 1),
        Said::Data(3, 0, 3, SHORT),
    ],
};

/// The first is taken. The second is refused (5) and comes again, and the third, which then comes after a gap, isn't
/// taken.
const SECOND_IS_REFUSED: Stage<'static> = Stage {
    acts: &[
        Act::LowerTakes(0),
        Act::LowerTakes(1),
        Act::LowerTakes(2),
        Act::LowerTakes(1),
        Act::LowerTakes(2),
    ],
    sent: &[
        Said::Custody(1),
        Said::Refused(2, 5),
        Said::Custody(1),
        Said::Refused(2, 5),
        Said::Custody(1),
    ],
};

/// The upper receives all of these, releases the first, and resends the second, which is refused again.
const SECOND_IS_SENT_AGAIN: Stage<'static> = Stage {
    acts: &[
        Act::UpperHears(3),
        Act::UpperHears(4),
        Act::UpperHears(5),
        Act::UpperHears(6),
        Act::UpperHears(7),
        Act::Timeout,
        ONE_CALL,
        ONE_CALL,
        Act::LowerTakes(8),
    ],
    sent: &[Said::Data(2, 0, 2, SHORT + 1), Said::Refused(2, 5)],
};

/// The longest datagram goes from one relay to the other.
const LONGEST_IS_TAKEN: Stage<'static> = Stage {
    acts: &[
        Act::ComesIn(1, 0, LONGEST),
        Act::Calls(0, 3),
        Act::LowerTakes(0),
    ],
    sent: &[Said::Data(1, 0, 1, LONGEST), Said::Custody(1)],
};

const SCRIPTS: [Script<'static>; 2] = [
    Script {
        shows: "a datagram is too long for the lower",
        upper: &LONG,
        lower: &SMALL,
        stages: &[THREE_ARE_SENT, SECOND_IS_REFUSED, SECOND_IS_SENT_AGAIN],
    },
    Script {
        shows: "the longest datagram for both",
        upper: &LONG,
        lower: &LONG,
        stages: &[LONGEST_IS_TAKEN],
    },
];

#[test]
fn long_datagrams(rt: HostRuntime) {
    expect_scripts(&rt, rt.alloc(), &SCRIPTS);
}
