//! Scripts of a pace: acts at moments in microseconds.
use rly_hop::with_mark;
use rly_hop_pacing::{CongestionControl, Numbers};
use std::process::Abort;

/// What a pace is told, or what it tells, at a moment.
#[derive(Clone, Copy)]
pub(crate) enum Act<'a> {
    /// A contact opens or closes.
    Contact(bool),
    /// The numbers from the first one to the one before the second are in flight.
    WindowIs(u64, u64),
    /// These numbers are sent.
    Sends(&'a [u64]),
    /// Custody of the numbers up to this one.
    Custody(u64),
    /// A Heard: custody of the numbers up to this one, and of those after it these were heard.
    Hears(u64, &'a [u64]),
    /// A Custody of the number before the flight or of one in it, after `Custody` of it.
    Answer,
    /// So many milliseconds are left of the contact.
    Left(u64),
    /// In a turn these numbers go out again.
    Again(&'a [u64]),
    /// At most so many of them go out again: these.
    Few(u64, &'a [u64]),
    /// This number goes out in spare room; 0 for none.
    Spare(u64),
    /// So many may be sent.
    Room(u64),
    /// So many of the numbers below the first weren't sent since the core last started again.
    Unsent(u64, u64),
    /// Whether the core wants to send something new, and the next moment with something to do; 0 for none.
    Next(bool, u64),
}

use Act::{
    Again, Answer, Contact, Custody, Few, Hears, Left, Next, Room, Sends, Spare, Unsent, WindowIs,
};

/// A hop: its `resend` in milliseconds, its window, and whether it has a rate.
pub(crate) type Hop = (u32, u64, bool);

/// The default `resend` and window.
pub(crate) const PLAIN: Hop = (160, 64, false);

/// What a script shows, its hop, and its acts in an open contact, each with its moment.
pub(crate) type Script<'a> = (&'a str, Hop, &'a [(u64, Act<'a>)]);

/// The pace of a hop in an open contact.
pub(crate) fn opened<R: Abort>(rt: &R, (resend, window, is_rated): Hop) -> CongestionControl {
    let mut pace = CongestionControl::new(resend, window, is_rated);
    expect!(rt; pace.room(0) == 0, 1);
    expect!(rt; pace.contact(true), 2);
    expect!(rt; !pace.contact(true), 3);
    pace
}

/// The bits of the numbers of a Heard.
fn bits_of(last: u64, numbers: &[u64]) -> u64 {
    let mut bits = 0;
    for number in numbers {
        bits = with_mark(bits, number.saturating_sub(last).saturating_sub(1));
    }
    bits
}

/// Sends these numbers.
pub(crate) fn send(pace: &mut CongestionControl, numbers: &[u64], at: u64) {
    for number in numbers {
        pace.on_sent(*number, at);
    }
}

/// Whether these are the numbers that go out again in a turn, of at most so many.
pub(crate) fn go_again(pace: &mut CongestionControl, most: u64, at: u64, numbers: &[u64]) -> bool {
    pace.moment(at);
    let mut found = Numbers::new();
    pace.missing(most, at, &mut found);
    found.as_slice() == numbers
}

/// Does an act. Whether it was as it should be.
pub(crate) fn is_done(pace: &mut CongestionControl, at: u64, act: Act<'_>) -> bool {
    match act {
        Contact(is_open) => return pace.contact(is_open) == is_open,
        WindowIs(first, next) => pace.window_is(first, next),
        Sends(numbers) => send(pace, numbers, at),
        Custody(last) => pace.on_covered(last, at),
        Hears(last, numbers) => pace.on_heard(last, bits_of(last, numbers), at),
        Answer => pace.on_custody(at),
        Left(millis) => pace.left_is(Some(millis.saturating_mul(1_000))),
        Again(numbers) => return go_again(pace, 64, at, numbers),
        Few(most, numbers) => return go_again(pace, most, at, numbers),
        Spare(number) => return pace.spare(at).unwrap_or(0) == number,
        Room(count) => return pace.room(at) == count,
        Unsent(next, count) => return pace.unsent_count(next) == count,
        Next(wants, moment) => return pace.next_moment(at, wants).unwrap_or(0) == moment,
    }
    true
}

/// Stops a test if an act wasn't as it should be.
pub(crate) fn expect_done<R: Abort>(rt: &R, holds: bool, shows: &str, at: u64) {
    assert!(rt; holds, "not so at {at}: {shows}");
}

/// Follows a script.
fn follow<R: Abort>(rt: &R, (shows, hop, acts): Script<'_>) {
    let mut pace = opened(rt, hop);
    for (at, act) in acts {
        let holds = is_done(&mut pace, *at, *act);
        expect_done(rt, holds, shows, *at);
    }
}

pub(crate) fn follow_all<R: Abort>(rt: &R, scripts: &[Script<'_>]) {
    for script in scripts {
        follow(rt, *script);
    }
}
