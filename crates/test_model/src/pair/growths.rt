//! Two relays, step by step, with one allocation that fails (`bench/scarce_memory`). A step whose
//! allocation fails has done nothing, and succeeds when it is retried.
use crate::expect::SMALL;
use crate::pair::script::{Act, Said, make, make_all, new_pair, say, step_of};
use rly_core::Refusal;
use rly_disk::Torn;
use rly_hop::Message;
use rly_machine::Payload;
use rly_world_pair::Pair;
use std::alloc::Global;
use std::process::Abort;
use test_support::{before, was_refused};

/// The upper queries its window, picks, fetches and sends. The lower takes. The upper releases.
const EXCHANGE: [Act; 16] = [
    Act::Turn(0),
    Act::UpperMakes,
    Act::UpperAnswers,
    Act::Turn(0),
    Act::UpperMakes,
    Act::UpperAnswers,
    Act::Turn(0),
    Act::UpperMakes,
    Act::UpperAnswers,
    Act::LowerHears(0),
    Act::LowerMakes,
    Act::LowerAnswers,
    Act::UpperHears(1),
    Act::Turn(0),
    Act::UpperMakes,
    Act::UpperAnswers,
];

/// Both crash, and the upper sends its datagrams.
const BEGUN_ANEW: [Act; 3] = [
    Act::UpperCrashes(Torn::AsSynced, 0),
    Act::LowerCrashes(Torn::AsSynced, 0),
    Act::Calls(0, 3),
];

/// Makes a step, with a retry after a failed allocation. Returns true iff an allocation failed in a step that
/// succeeded.
fn is_starved<R: Abort>(rt: &R, alloc: Global, pair: &mut Pair, act: Act) -> bool {
    let sent = pair.packets().len();
    let step = step_of(rt, alloc, act);
    before(alloc).expect(rt, "memory");
    let is_made = pair.step(alloc, step).is_ok();
    let refused = was_refused(alloc);
    if !is_made {
        expect!(*rt; refused && pair.packets().len() == sent);
        make(rt, alloc, pair, act);
    }
    is_made && refused
}

/// Makes the steps of an exchange. Returns true iff an allocation failed in one that succeeded.
fn are_starved<R: Abort>(rt: &R, alloc: Global, pair: &mut Pair) -> bool {
    let mut starved = false;
    for act in &EXCHANGE {
        starved |= is_starved(rt, alloc, pair, *act);
    }
    starved
}

/// The lower receives all packets that were sent.
fn take_all<R: Abort>(rt: &R, alloc: Global, pair: &mut Pair) {
    for packet in 0..pair.packets().len() {
        make(rt, alloc, pair, Act::LowerTakes(packet));
    }
}

/// Returns true iff one of the packets is custody of the datagram.
fn have_custody(packets: &[Message<Payload>]) -> bool {
    for packet in packets {
        if matches!(packet, Message::Custody { last: 1, .. }) {
            return true;
        }
    }
    false
}

/// The upper takes one datagram. If an allocation failed within a step that succeeded, its call got that refusal, and
/// the datagram is transferred after both restarted.
fn expect_handed_over<R: Abort>(rt: &R, alloc: Global, pair: &mut Pair) {
    make(rt, alloc, pair, Act::ComesIn(1, 0, 1_200));
    let starved = are_starved(rt, alloc, pair);
    let handed_over = [Said::Data(1, 0, 1, 1_200), Said::Custody(1)];
    expect!(*rt; starved || say(pair.packets(), &handed_over));
    make_all(rt, alloc, pair, &BEGUN_ANEW);
    take_all(rt, alloc, pair);
    expect!(*rt; have_custody(pair.packets()));
}

/// Makes a new pair, with a retry.
fn tried_pair<R: Abort>(rt: &R, alloc: Global) -> Pair {
    before(alloc).expect(rt, "memory");
    let made = Pair::new(alloc, &SMALL, &SMALL);
    let refused = was_refused(alloc);
    match made {
        Ok(pair) => pair,
        Err(refusal) => {
            expect!(*rt; refused && matches!(refusal, Refusal::OutOfMemory | Refusal::Device));
            new_pair(rt, alloc, &SMALL, &SMALL)
        }
    }
}

fn expect_pair<R: Abort>(rt: &R, alloc: Global) {
    expect_handed_over(rt, alloc, &mut tried_pair(rt, alloc));
}

#[test]
fn a_pair_and_its_steps(rt: HostRuntime) {
    expect_pair(&rt, rt.alloc());
}
