//! A link that is opened while its worker works.

ghost use Rattle.std.specs.Prelude.{◌≡◌, ◌≤◌, ◌++◌, IfOk, IfSome, OnErr, OnOk, length};
ghost use Rattle.rly_link.specs.LinkHistory.{FailuresRose, packet_of};
ghost use Rattle.rly_link_udp.specs.PatientLink.{HasTried, ReceivesFrom, after_refusal, first_state, patient_failed};
ghost use Rattle.rly_link_udp.specs.PatientLink.{refusal_in, told_of, until_try, wait_after};
ghost use Rattle.rly_link_udp.specs.declared.patient_link.PatientState.TheVariants as state;

use crate::opener::Opener;
use rly_link::{Link, LinkFault, Sleep};
use rly_station::{EndFault, Opening};

/// The longest wait before a try, in microseconds.
const LONGEST: u64 = 60_000_000;

/// The refusals of a link that isn't open.
#[derive(Clone, Copy)]
pub struct Refusals {
    /// The number of tries since the start that were refused.
    pub count: u64,
    /// The moment of the next try, in microseconds of the monotonic clock.
    pub next: u64,
    /// The last refusal.
    pub last: EndFault,
}

/// A link that is open or isn't.
#[derive(Drop)]
pub enum PatientState<L> {
    /// The system refused it so far.
    Closed(Refusals),
    /// It is open, and stays so.
    Open(L),
}

/// A link that is opened as soon as the system grants it. Until then it hears nothing, what is sent by it is lost, and its
/// waits end at its next try. The opener logs the first refusal since the start, each that differs from the one before it, and
/// that the link is open.
#[derive(Drop)]
pub struct PatientLink<L, O> {
    opener: O,
    state: PatientState<L>,
}

impl<L: Link + Drop, O: Opener<L>> PatientLink<L, O> {
    /// A link that its opener opened or was refused. If it was refused, the next try is at the first receive.
    pub fn new(opener: O, outcome: Result<L, EndFault>) -> PatientLink<L, O>
        ensures { result ≡ record { opener = opener; state = first_state outcome } }
    {
        let state = match outcome {
            Ok(link) => PatientState::Open(link),
            Err(fault) => PatientState::Closed(Refusals {
                count: 0,
                next: 0,
                last: fault,
            }),
        };
        PatientLink { opener, state }
    }

    /// What opens it.
    pub fn opener(&self) -> &O
        ensures { result.now ≡ self.now.opener }
    {
        &self.opener
    }

    /// The last refusal: `None` if it is open.
    pub fn refusal(&self) -> Option<EndFault>
        ensures { result ≡ refusal_in self.now.state }
    {
        match &self.state {
            PatientState::Open(_) => None,
            PatientState::Closed(refusals) => Some(refusals.last),
        }
    }

    /// Tries to open the link, if it isn't open and the moment of its next try has come.
    fn try_if_due(&mut self)
        ensures tried { HasTried O.calls self.old self.new }
        ensures failed { patient_failed L.failed self.new ≡ patient_failed L.failed self.old }
    {
        let PatientState::Closed(refusals) = &self.state else {
            return;
        };
        let refusals = *refusals;
        let now = self.opener.now();
        if now < refusals.next {
            return;
        }
        match self.opener.open() {
            Ok(link) => {
                self.opener.log(Opening::Opened);
                self.state = PatientState::Open(link);
            }
            Err(fault) => self.note_refusal(refusals, now, fault),
        }
    }

    /// Receives as the link below, if it is open, or else waits.
    fn receive(&mut self, sleep: Sleep, buffer: &mut [u8]) -> Result<Option<usize>, LinkFault>
        ensures bound { IfOk result (λ found. IfSome found (λ count. count ≤ length buffer.new)) }
        ensures rise { OnErr result (FailuresRose (patient_failed L.failed self.old) (patient_failed L.failed self.new)) }
        ensures no_failure { OnOk result (patient_failed L.failed self.new ≡ patient_failed L.failed self.old) }
        ensures received { ReceivesFrom self.old.state O.calls L.heard L.sent sleep result (packet_of result buffer.new)
            self.old self.new }
    {
        match &mut self.state {
            PatientState::Open(link) => link.recv(sleep, buffer),
            PatientState::Closed(refusals) => {
                let sleep = until_try(refusals.next, sleep);
                self.opener.wait(sleep);
                Ok(None)
            }
        }
    }

    /// A try at a moment was refused, after these.
    fn note_refusal(&mut self, refusals: Refusals, now: u64, fault: EndFault)
        ensures state { self.new.state ≡ state.Closed (after_refusal refusals now fault) }
        ensures told { O.calls self.new.opener ≡ O.calls self.old.opener ++ told_of refusals fault }
    {
        let wait = wait_after(refusals.count);
        if refusals.count == 0 || !fault.is_like(refusals.last) {
            self.opener.log(Opening::Refused { fault, wait });
        }
        self.state = PatientState::Closed(Refusals {
            count: refusals.count.saturating_add(1),
            next: now.saturating_add(wait),
            last: fault,
        });
    }
}

impl<L: Link + Drop, O: Opener<L>> Link for PatientLink<L, O> {
    ghost use Rattle.std.specs.Prelude.{◌≡◌, ◌≤◌, IfOk, IfSome, None, OnErr, OnOk, length};
    ghost use Rattle.rly_link.specs.LinkHistory.{FailuresRose, packet_of};
    ghost use Rattle.rly_link_udp.specs.PatientLink.{HasReceived, HasSent, patient_failed};

    ghost heard = { λ _. None };

    ghost sent = { λ _. None };

    ghost failed = { λ l. patient_failed L.failed l };

    fn recv(&mut self, sleep: Sleep, buffer: &mut [u8]) -> Result<Option<usize>, LinkFault>
        ensures bound { IfOk result (λ found. IfSome found (λ count. count ≤ length buffer.new)) }
        ensures rise { OnErr result (FailuresRose (patient_failed L.failed self.old) (patient_failed L.failed self.new)) }
        ensures no_failure { OnOk result (patient_failed L.failed self.new ≡ patient_failed L.failed self.old) }
        // A try that is due is made first. An open link then receives as the link below, and one that isn't waits.
        ensures received { HasReceived O.calls L.heard L.sent sleep result (packet_of result buffer.new) self.old self.new }
    {
        self.try_if_due();
        self.receive(sleep, buffer)
    }

    fn send(&mut self, packet: &[u8]) -> Result<(), LinkFault>
        ensures rise { OnErr result (FailuresRose (patient_failed L.failed self.old) (patient_failed L.failed self.new)) }
        ensures no_failure { OnOk result (patient_failed L.failed self.new ≡ patient_failed L.failed self.old) }
        // An open link sends as the link below, and one that isn't loses the packet.
        ensures sends { HasSent L.heard L.sent result packet.now self.old self.new }
    {
        match &mut self.state {
            PatientState::Open(link) => link.send(packet),
            PatientState::Closed(_) => Ok(()),
        }
    }

    fn failures(&self) -> u64 {
        match &self.state {
            PatientState::Open(link) => link.failures(),
            PatientState::Closed(_) => 0,
        }
    }
}

/// The wait before the next try after a refusal, in microseconds, by the number of those before it.
fn wait_after(count: u64) -> u64
    ensures { result ≡ wait_after count }
{
    match count {
        0 => 5_000_000,
        1 => 10_000_000,
        2 => 20_000_000,
        3 => 40_000_000,
        _ => LONGEST,
    }
}

/// The shorter of a wait and the time until a moment.
fn until_try(next: u64, sleep: Sleep) -> Sleep
    ensures { result ≡ until_try next sleep }
{
    match sleep {
        Sleep::No => Sleep::No,
        Sleep::Until(moment) => Sleep::Until(moment.min(next)),
        Sleep::Woken => Sleep::Until(next),
    }
}
