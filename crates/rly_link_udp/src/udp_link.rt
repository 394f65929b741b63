ghost use Rattle.std.specs.Prelude.{◌≡◌, ◌≤◌, ◌-◌, ◌^◌, ◌↔◌, IfOk, IfSome, IsErr, IsTrue, None, Some, length};
ghost use Rattle.std.specs.Option.{option_map};
ghost use Rattle.rly_link_udp.specs.UdpOpener.{link_addresses};
ghost use Rattle.rly_link.specs.LinkHistory.{FailuresRose};

use crate::bells::{Bell, Bells};
use crate::receive_buffer::grow_buffer;
use crate::unsent::Unsent;
use libc::net::{POLLIN, POLLOUT, poll};
use libc::types::pollfd;
use rly_link::{Link, LinkFault, Sleep, Worker};
use rly_link_log::SourceLog;
use rly_plan::Addresses;
use rly_station::{End, EndFault, FailedCalls, SystemWord, moment_of};
use std::alloc::Global;
use std::io::ErrorKind;
use std::net::{Net, SocketAddr, ToSocketAddrs, UdpSocket};
use std::os::fd::AsRawFd;
use std::snapshot::Snapshot;
use std::sync::Arc;
use std::time::{Clock, Duration};
use std::{io, thread};

/// The pause after a receive that failed, in milliseconds.
const PAUSE: u64 = 10;

/// The longest wait for room to send, and the longest one that the system is asked for, in milliseconds.
const LONGEST_SEND: i32 = 1_000;

const MOST_MILLIS: u64 = i32::MAX as u64;

/// The pause before a packet that the system refused is sent again, in milliseconds.
const RESEND: i32 = 1_000;

/// After a packet, a receive pauses so that more can arrive: for this part of the time since the last wait, but at
/// most the maximum, and not at all below the minimum. Both in microseconds.
const PART: u32 = 32;

const LONGEST: u64 = 1_000;

const SHORTEST: u64 = 50;

/// An address of this machine alone, at a port that the system picks.
const OWN_MACHINE: &str = "127.0.0.1:0";

/// A link over UDP. It receives from any address, and sends to one. An empty packet is dropped: it is no message. A wait
/// ends as its worker's bell is rung.
///
/// The system truncates a packet that is longer than the buffer of a receive. No message fills a worker's buffer,
/// so a truncated packet is no message. The packets of a socket are outside of the proofs: this link records no
/// history.
#[derive(Drop)]
pub struct UdpLink<C: Clock + Drop> {
    socket: UdpSocket,
    remote: SocketAddr,
    clock: C,
    failures: u64,
    /// The time at which its last wait ended with a packet, and the number of packets since, including that one.
    waited: Duration,
    given: u64,
    /// Its failed sends, if they are logged.
    failed_sends: Option<FailedCalls>,
    /// The bells of the station, and its worker, whose bell ends its waits, if it has them.
    bells: Option<(Arc<Bells, Global>, Worker)>,
    /// The longest wait of a receive, in microseconds, if it has one.
    longest: Option<u64>,
    /// The longest wait of a receive that waits until a moment, in microseconds, if it has one.
    longest_until: Option<u64>,
    /// The packet that it sends again while it waits, if it does so.
    unsent: Option<Unsent>,
    /// The addresses at which it was opened: none of a bell.
    addresses: Option<Snapshot<Addresses>>,
    /// The log of packets from another address than `remote`, if they are logged.
    sources: Option<SourceLog>,
}

impl<C: Clock + Drop> UdpLink<C> {
    /// A link that receives on `listen` and sends to the first address that `remote` names. A name is resolved
    /// once, here. `Err` if the system refuses either text, or `listen` has port 0.
    pub fn open<N: Net>(net: &N, clock: C, addresses: &Addresses) -> Result<UdpLink<C>, EndFault>
        ensures addresses { IfOk result (λ link. link_addresses link ≡ Some addresses.now) }
        ensures failures { IfOk result (λ link. link.failures ≡ 0) }
    {
        let (socket, remote) = bound_at(net, addresses.listen(), addresses.remote())?;
        Ok(UdpLink::over(socket, remote, clock, Some(Snapshot::of(addresses))))
    }

    /// A link that ends its waits by an empty packet to an address of this machine that the system picks. It has no
    /// neighbour: what is sent comes back to itself.
    pub(crate) fn open_bell<N: Net>(net: &N, clock: C) -> io::Result<UdpLink<C>>
        ensures addresses { IfOk result (λ link. link_addresses link ≡ None) }
        ensures failures { IfOk result (λ link. link.failures ≡ 0) }
    {
        let socket = UdpSocket::bind(net, OWN_MACHINE)?;
        socket.set_nonblocking(true)?;
        let remote = socket.local_addr()?;
        Ok(UdpLink::over(socket, remote, clock, None))
    }

    /// A link over a socket, which was opened at these addresses, if it isn't a bell's.
    pub(crate) fn over(
        socket: UdpSocket,
        remote: SocketAddr,
        clock: C,
        addresses: Option<Snapshot<Addresses>>,
    ) -> UdpLink<C>
        ensures addresses { link_addresses result ≡ option_map (λ a. a.value) addresses }
        ensures failures { result.failures ≡ 0 }
    {
        UdpLink {
            socket,
            remote,
            clock,
            failures: 0,
            waited: Duration::ZERO,
            given: 0,
            failed_sends: None,
            bells: None,
            longest: None,
            longest_until: None,
            unsent: None,
            addresses,
            sources: None,
        }
    }

    /// The address on which it receives.
    pub fn address(&self) -> io::Result<SocketAddr> {
        self.socket.local_addr()
    }

    /// The same, whose waits end by the bell of a worker.
    pub(crate) fn with_bell(mut self, bells: Arc<Bells, Global>, worker: Worker) -> UdpLink<C>
        ensures { result ≡ record self { bells = result.bells } }
    {
        self.bells = Some((bells, worker));
        self
    }

    /// The same, each of whose waits is at most this long, in microseconds, if it is a bound.
    pub(crate) fn with_longest_wait(mut self, longest: Option<u64>) -> UdpLink<C>
        ensures { result ≡ record self { longest = longest } }
    {
        self.longest = longest;
        self
    }

    /// The same, each of whose waits until a moment is at most this long, in microseconds, if it is a bound.
    pub(crate) fn with_longest_until(mut self, longest: Option<u64>) -> UdpLink<C>
        ensures { result ≡ record self { longest_until = longest } }
    {
        self.longest_until = longest;
        self
    }

    /// The same, which sends a packet again that the system refused, as it does if the address of `listen` was taken away:
    /// each second of its next wait, until the system sends it.
    pub(crate) fn with_unsent(mut self, unsent: Option<Unsent>) -> UdpLink<C>
        ensures { result ≡ record self { unsent = unsent } }
    {
        self.unsent = unsent;
        self
    }

    /// Requests a receive buffer of `wanted` bytes, if it is smaller. Returns its bytes then, if the system says how
    /// many: fewer if the system has a limit.
    pub fn grow_buffer(&self, wanted: u32) -> Option<u32> {
        grow_buffer(&self.socket, wanted)
    }

    /// The same, with a log of failed sends.
    pub(crate) fn with_failed_sends(mut self, failed_sends: FailedCalls) -> UdpLink<C>
        ensures { result ≡ record self { failed_sends = Some failed_sends } }
    {
        self.failed_sends = Some(failed_sends);
        self
    }

    /// The same, with a log of packets from another address.
    pub(crate) fn with_sources(mut self, sources: SourceLog) -> UdpLink<C>
        ensures { result ≡ record self { sources = Some sources } }
    {
        self.sources = Some(sources);
        self
    }

    /// A packet came from an address.
    fn note_source(&mut self, from: SocketAddr)
        ensures { self.new ≡ record self.old { sources = self.new.sources } }
    {
        let now = moment_of(self.clock.monotonic().ok());
        if let Some(sources) = &mut self.sources {
            sources.note(from, now);
        }
    }

    /// Receives once. If no packet is there, waits at most this long for one, unless it was woken since its last wait.
    fn receive_waiting(
        &mut self,
        sleep: Sleep,
        buffer: &mut [u8],
    ) -> io::Result<Option<(usize, SocketAddr)>>
        ensures bound { IfOk result (λ found. IfSome found (λ packet. packet.0 ≤ length buffer.new)) }
        ensures same { self.new ≡ record self.old { unsent = self.new.unsent } }
        ensures spent { self.old.failures ≡ 2 ^ 64 - 1 → IsErr result }
    {
        let found = self.receive(buffer)?;
        if found.is_some() {
            return Ok(found);
        }
        self.wait(sleep);
        self.receive(buffer)
    }

    /// Waits at most this long for a packet or a wake-up. Sends the unsent packet again each second.
    fn wait(&mut self, sleep: Sleep)
        ensures { self.new ≡ record self.old { unsent = self.new.unsent } }
    {
        let mut unsent = self.unsent.take();
        if self.may_wait() {
            for _second in 0..u64::MAX {
                if self.has_waited(sleep, &unsent) {
                    break;
                }
                self.send_again(&mut unsent);
            }
        }
        self.end_wait();
        self.unsent = unsent;
    }

    /// Whether its worker may wait: not if it was woken.
    fn may_wait(&self) -> bool {
        match self.bell() {
            Some(bell) => bell.begin_wait(),
            None => true,
        }
    }

    /// Its worker no longer waits.
    fn end_wait(&self) {
        if let Some(bell) = self.bell() {
            bell.end_wait();
        }
    }

    /// Waits at most this long for a packet or a wake-up, but at most a second if a packet is unsent. Returns whether the
    /// wait is over.
    fn has_waited(&self, sleep: Sleep, unsent: &Option<Unsent>) -> bool {
        let timeout = self.timeout_of(sleep);
        let is_longer = !(0..=RESEND).contains(&timeout);
        if is_longer && packet_of(unsent).is_some() {
            return self.wait_for_one(RESEND) != 0;
        }
        self.wait_for_one(timeout);
        true
    }

    /// Sends the unsent packet again, if there is one, and drops it once it was sent.
    fn send_again(&self, unsent: &mut Option<Unsent>) {
        let sent = match packet_of(unsent) {
            Some(packet) => self.socket.send_to(packet, self.remote).is_ok(),
            None => false,
        };
        if sent {
            drop_packet(unsent);
        }
    }

    /// Waits for a packet or a wake-up, for at most this many milliseconds, or without an end if -1. Returns 0 if neither
    /// came.
    fn wait_for_one(&self, timeout: i32) -> i32 {
        let socket = readable(self.socket.as_raw_fd());
        match self.bell() {
            Some(bell) => poll(&mut [socket, readable(bell.fd())], timeout),
            None => poll(&mut [socket], timeout),
        }
    }

    /// Keeps a packet that the system refused, unless one is kept.
    fn keep_unsent(&mut self, packet: &[u8])
        ensures { self.new ≡ record self.old { unsent = self.new.unsent } }
    {
        if let Some(unsent) = &mut self.unsent {
            unsent.keep(packet);
        }
    }

    /// The bell that ends its waits, if it has one.
    fn bell(&self) -> Option<&Bell> {
        let (bells, worker) = self.bells.as_ref()?;
        bells.of(*worker)
    }

    /// A wait in milliseconds, rounded up, and -1 if it has no end.
    fn timeout_of(&self, sleep: Sleep) -> i32 {
        timeout_of(&self.clock, sleep, self.longest, self.longest_until)
    }

    /// A receive that began then returned a packet.
    fn note_given(&mut self, waits: bool, began: Duration)
        ensures { self.new ≡ record self.old { waited = self.new.waited; given = self.new.given } }
    {
        if waits {
            self.let_others_come(began);
        } else {
            self.given = self.given.saturating_add(1);
        }
    }

    /// After a wait that began then and returned a packet: pauses so that more can arrive, if several arrived
    /// together the last time. A neighbour that gets an answer sends a window's worth in a burst, and a worker's
    /// turn takes all that have arrived.
    fn let_others_come(&mut self, began: Duration)
        ensures { self.new ≡ record self.old { waited = self.new.waited; given = self.new.given } }
    {
        let part = began.saturating_sub(self.waited) / PART;
        let pause = Duration::from_micros(LONGEST).min(part);
        if self.given > 1 && pause >= Duration::from_micros(SHORTEST) {
            thread::sleep(&self.clock, pause);
        }
        self.waited = self.moment();
        self.given = 1;
    }

    /// The time of the monotonic clock, or 0 if it can't be read.
    fn moment(&self) -> Duration {
        self.clock.monotonic().unwrap_or(Duration::ZERO)
    }

    /// Whether the count of failures is at its last value, so that each call fails.
    fn is_spent(&self) -> bool
        ensures { IsTrue result ↔ (2 ^ 64 - 1 ≤ self.now.failures) }
    {
        self.failures == u64::MAX
    }

    /// Receives once without a wait: a packet and its sender's address, or nothing if none has arrived. Fails if the
    /// count of failures is at its last value.
    fn receive(&self, buffer: &mut [u8]) -> io::Result<Option<(usize, SocketAddr)>>
        ensures bound { IfOk result (λ found. IfSome found (λ packet. packet.0 ≤ length buffer.new)) }
        ensures spent { self.now.failures ≡ 2 ^ 64 - 1 → IsErr result }
    {
        if self.is_spent() {
            return Err(io::Error::from(ErrorKind::Other));
        }
        match self.socket.recv_from(buffer) {
            Ok((0, _)) => Ok(None),
            Ok(packet) => Ok(Some(packet)),
            Err(error) if is_silence(error.kind()) => Ok(None),
            Err(error) => Err(error),
        }
    }

    /// Sends, and waits for room in the system's buffer, so that a slow link isn't mistaken for a lossy one.
    fn send_waiting(&self, packet: &[u8]) -> io::Result<usize> {
        match self.socket.send_to(packet, self.remote) {
            Err(error) if error.kind() == ErrorKind::WouldBlock => {
                let _ready = poll(&mut [writable(self.socket.as_raw_fd())], LONGEST_SEND);
                self.socket.send_to(packet, self.remote)
            }
            outcome => outcome,
        }
    }

    /// Counts a failed call.
    fn fail(&mut self) -> LinkFault
        ensures rise { FailuresRose self.old.failures self.new.failures }
        ensures same { self.new ≡ record self.old { failures = self.new.failures } }
    {
        self.failures = self.failures.saturating_add(1);
        LinkFault
    }
}

impl<C: Clock + Drop> Link for UdpLink<C> {
    ghost use Rattle.std.specs.Prelude.{◌≡◌, ◌≤◌, ◌<◌, ◌-◌, ◌^◌, IfOk, IfSome, IsErr, None, OnErr, OnOk, length};
    ghost use Rattle.rly_station.specs.Warnings.{HasCountedIf};
    ghost use Rattle.rly_link.specs.LinkHistory.{FailuresRose};

    ghost heard = { λ _. None };

    ghost sent = { λ _. None };

    ghost failed = { λ l. l.failures };

    fn recv(&mut self, sleep: Sleep, buffer: &mut [u8]) -> Result<Option<usize>, LinkFault>
        ensures bound { IfOk result (λ found. IfSome found (λ count. count ≤ length buffer.new)) }
        ensures rise { OnErr result (FailuresRose self.old.failures self.new.failures) }
        ensures no_failure { OnOk result (self.new.failures ≡ self.old.failures) }
        ensures spent { self.old.failures ≡ 2 ^ 64 - 1 → IsErr result }
        ensures quiet { self.new.failed_sends ≡ self.old.failed_sends }
    {
        let waits = sleep != Sleep::No;
        let began = self.moment();
        let outcome = match waits {
            true => self.receive_waiting(sleep, buffer),
            false => self.receive(buffer),
        };
        // The contact may end before the next wait.
        drop_packet(&mut self.unsent);
        match outcome {
            Ok(Some((count, from))) => {
                self.note_source(from);
                self.note_given(waits, began);
                Ok(Some(count))
            }
            Ok(None) => Ok(None),
            Err(_) => {
                // A receive that fails at once must not keep the processor busy.
                if waits {
                    thread::sleep(&self.clock, Duration::from_millis(PAUSE));
                }
                Err(self.fail())
            }
        }
    }

    fn send(&mut self, packet: &[u8]) -> Result<(), LinkFault>
        ensures rise { OnErr result (FailuresRose self.old.failures self.new.failures) }
        ensures no_failure { OnOk result (self.new.failures ≡ self.old.failures) }
        ensures spent { self.old.failures ≡ 2 ^ 64 - 1 → IsErr result }
        // Only a failed send is counted and logged.
        ensures quiet { OnOk result (self.new.failed_sends ≡ self.old.failed_sends) }
        ensures counted { OnErr result
            ((self.old.failures < 2 ^ 64 - 1) → HasCountedIf self.old.failed_sends self.new.failed_sends) }
    {
        if self.is_spent() {
            return Err(self.fail());
        }
        match self.send_waiting(packet) {
            Ok(_) => Ok(()),
            Err(error) => {
                self.keep_unsent(packet);
                if let Some(failed_sends) = &mut self.failed_sends {
                    failed_sends.add(error);
                }
                Err(self.fail())
            }
        }
    }

    fn failures(&self) -> u64 {
        self.failures
    }
}

/// A socket that receives on `listen`, and the first address that `remote` names.
pub(crate) fn bound_at<N: Net>(
    net: &N,
    listen: &str,
    remote: &str,
) -> Result<(UdpSocket, SocketAddr), EndFault> {
    let socket = refused_at(End::Listen, receiving_socket(net, listen))?;
    let remote = refused_at(End::Remote, first_address(net, remote))?;
    Ok((socket, remote))
}

/// Attaches the address of a link to an error of the system.
fn refused_at<T>(end: End, outcome: io::Result<T>) -> Result<T, EndFault> {
    match outcome {
        Ok(value) => Ok(value),
        Err(error) => Err(EndFault {
            end,
            word: SystemWord(error),
        }),
    }
}

/// A socket that receives on an address. Port 0 is refused: a neighbour can't know a port that the system picks.
fn receiving_socket<N: Net>(net: &N, listen: &str) -> io::Result<UdpSocket> {
    if first_address(net, listen)?.port() == 0 {
        let told = "a neighbour can't send to port 0";
        return Err(io::Error::new(ErrorKind::InvalidInput, told));
    }
    let socket = UdpSocket::bind(net, listen)?;
    socket.set_nonblocking(true)?;
    Ok(socket)
}

/// The first address that a text resolves to.
fn first_address<N: Net>(net: &N, text: &str) -> io::Result<SocketAddr> {
    match text.to_socket_addrs(net)?.next() {
        Some(address) => Ok(address),
        None => Err(io::Error::from(ErrorKind::AddrNotAvailable)),
    }
}

/// A wait in milliseconds, rounded up, and -1 if it has no end: at most `longest` microseconds, and `longest_until` if it is one
/// until a moment, if these are there.
pub(crate) fn timeout_of<C: Clock>(
    clock: &C,
    sleep: Sleep,
    longest: Option<u64>,
    longest_until: Option<u64>,
) -> i32 {
    let left = match sleep {
        Sleep::No => Some(0),
        Sleep::Until(moment) => sooner(Some(left_until(clock, moment)), longest_until),
        Sleep::Woken => None,
    };
    match sooner(left, longest) {
        Some(left) => left.div_ceil(1_000).min(MOST_MILLIS) as i32,
        None => -1,
    }
}

/// The microseconds to a moment of the monotonic clock.
fn left_until<C: Clock>(clock: &C, moment: u64) -> u64 {
    moment.saturating_sub(moment_of(clock.monotonic().ok()))
}

/// The shorter of a wait and a bound, in microseconds, if they are there.
fn sooner(left: Option<u64>, longest: Option<u64>) -> Option<u64> {
    match (left, longest) {
        (Some(left), Some(longest)) => Some(left.min(longest)),
        (None, longest) => longest,
        (left, None) => left,
    }
}

/// The unsent packet of a link, if there is one.
fn packet_of(unsent: &Option<Unsent>) -> Option<&[u8]> {
    unsent.as_ref()?.packet()
}

/// Drops the unsent packet of a link, if there is one.
fn drop_packet(unsent: &mut Option<Unsent>) {
    if let Some(unsent) = unsent {
        unsent.clear();
    }
}

/// A descriptor that is waited for until it can be read.
fn readable(fd: i32) -> pollfd {
    pollfd {
        fd,
        events: POLLIN,
        revents: 0,
    }
}

/// A descriptor that is waited for until it can be written.
fn writable(fd: i32) -> pollfd {
    pollfd {
        fd,
        events: POLLOUT,
        revents: 0,
    }
}

/// Whether a receive ended without a packet and without a fault: none had arrived, or a signal interrupted it.
fn is_silence(kind: ErrorKind) -> bool {
    matches!(
        kind,
        ErrorKind::WouldBlock | ErrorKind::TimedOut | ErrorKind::Interrupted
    )
}
