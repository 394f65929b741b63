ghost use Rattle.std.specs.Prelude.{◌≡◌};
ghost use Rattle.rly_daemon_events.specs.HopEvents.{announced, next_closed, next_event, next_open, next_wait, wait_before};

use crate::hop_look::HopLook;
use rly_core::HopId;
use std::fmt;

/// Microseconds of a second.
const SECOND: u64 = 1_000_000;

/// An event of a hop.
#[derive(Clone, Copy, Debug, PartialEq, Eq)]
pub enum HopEvent {
    /// Its link opens in this many seconds, rounded up.
    Opens(u32),
    /// Its link is open.
    Open,
    /// Its sender no longer rests.
    Busy,
    /// Its sender rests: nothing is left to send or to receive.
    Idle,
    /// Its link is closed.
    Closed,
}

/// The line that follows the last one of a hop, if one does. A hop that has no line yet has no last one.
pub fn next_event(last: Option<HopEvent>, look: &HopLook) -> Option<HopEvent>
    ensures { result ≡ next_event last look.now }
{
    if look.is_open {
        next_open(last, look.is_resting)
    } else {
        next_closed(last, look)
    }
}

/// The line that follows the last one while the link is open.
fn next_open(last: Option<HopEvent>, is_resting: bool) -> Option<HopEvent>
    ensures { result ≡ next_open last is_resting }
{
    match last {
        Some(HopEvent::Open | HopEvent::Busy) if is_resting => Some(HopEvent::Idle),
        Some(HopEvent::Open | HopEvent::Busy) => None,
        Some(HopEvent::Idle) if is_resting => None,
        Some(HopEvent::Idle) => Some(HopEvent::Busy),
        Some(HopEvent::Closed | HopEvent::Opens(_)) | None => Some(HopEvent::Open),
    }
}

/// The line that follows the last one while the link is closed.
fn next_closed(last: Option<HopEvent>, look: &HopLook) -> Option<HopEvent>
    ensures { result ≡ next_closed last look.now }
{
    match last {
        Some(HopEvent::Closed) => announced(look.lead, look.left?),
        Some(HopEvent::Opens(_)) => None,
        Some(HopEvent::Open | HopEvent::Busy | HopEvent::Idle) | None => Some(HopEvent::Closed),
    }
}

/// The line for an opening in `left` microseconds, if that is at most `lead` seconds.
fn announced(lead: u32, left: u64) -> Option<HopEvent>
    ensures { result ≡ announced lead left }
{
    if left >= 1 && left <= u64::from(lead) * SECOND {
        Some(HopEvent::Opens(left.div_ceil(SECOND) as u32))
    } else {
        None
    }
}

/// How many microseconds no line follows the last one by itself, if none does now: none ever does if `None`.
pub fn next_wait(last: Option<HopEvent>, look: &HopLook) -> Option<u64>
    ensures { result ≡ next_wait last look.now }
{
    match look.left {
        Some(left) => Some(wait_before(last, look, left)),
        None => None,
    }
}

/// The same, if the link changes in `left` microseconds.
fn wait_before(last: Option<HopEvent>, look: &HopLook, left: u64) -> u64
    ensures { result ≡ wait_before last look.now left }
{
    let lead = u64::from(look.lead) * SECOND;
    match last {
        Some(HopEvent::Closed) if !look.is_open && lead < left => left - lead,
        _ => left,
    }
}

impl fmt::Display for HopEvent {
    ghost use Rattle.std.specs.Prelude.{Some};
    ghost use Rattle.rly_daemon_events.specs.HopEvents.{event_text};

    ghost output = { λ event. Some (event_text event) };

    fn fmt<W: fmt::Write>(&self, f: &mut fmt::Formatter<W>) -> fmt::Result {
        match self {
            HopEvent::Opens(seconds) => write!(f, "opens in {seconds} s"),
            HopEvent::Open => f.write_str("open"),
            HopEvent::Busy => f.write_str("busy"),
            HopEvent::Idle => f.write_str("idle"),
            HopEvent::Closed => f.write_str("closed"),
        }
    }
}

/// The line of an event of a hop, without its newline.
#[derive(Clone, Copy, Debug, PartialEq, Eq)]
pub struct HopLine {
    /// The hop.
    pub hop: HopId,
    /// Its event.
    pub event: HopEvent,
}

impl fmt::Display for HopLine {
    ghost use Rattle.std.specs.Prelude.{Some};
    ghost use Rattle.rly_daemon_events.specs.HopEvents.{line_text};

    ghost output = { λ line. Some (line_text line.hop line.event) };

    fn fmt<W: fmt::Write>(&self, f: &mut fmt::Formatter<W>) -> fmt::Result {
        write!(f, "hop {} {}", self.hop.0, self.event)
    }
}
