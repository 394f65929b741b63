//! What opens the socket of a worker's link.

ghost use Rattle.std.specs.Option.{option_map};
ghost use Rattle.std.specs.Prelude.{◌≡◌, ◌∷◌, ◌++◌, [], IfOk, OnErr, Some, string_bytes};
ghost use Rattle.rly_link_udp.specs.UdpOpener.{addresses_kept, failures_kept, link_addresses, opener_calls};
ghost use Rattle.rly_station.specs.Warnings.{known_of, none_yet};

use crate::bells::Bells;
use crate::opener::{Opener, OpenerCall};
use crate::receive_buffer::grow_buffer;
use crate::signals::Signals;
use crate::sockets::Sockets;
use crate::udp_link::{UdpLink, timeout_of};
use crate::unsent::Unsent;
use http_server::Log;
use rly_link::{Sleep, Worker};
use rly_link_log::SourceLog;
use rly_plan::Addresses;
use rly_station::{
    End, EndFault, ErrorLines, FailedCalls, Logger, Opening, OpeningLine, SystemCall, SystemWord,
    moment_of,
};
use std::alloc::{AllocError, Global};
use std::io;
use std::io::ErrorKind;
use std::net::{SocketAddr, UdpSocket};
use std::snapshot::Snapshot;
use std::sync::Arc;
use std::time::Clock;

/// What a socket's link has from its start, which the opener keeps until then.
#[derive(Drop)]
struct UdpParts<C: Clock + Drop> {
    clock: C,
    addresses: Snapshot<Addresses>,
    bells: Arc<Bells, Global>,
    failed_sends: FailedCalls,
    source_teller: Logger,
    unsent: Option<Unsent>,
}

/// Opens the socket of a worker's link at the addresses of the plan. A name is looked up at each try. Until the socket is
/// open the worker's bell ends its waits.
#[derive(Drop)]
pub struct UdpOpener<C: Clock + Drop> {
    net: C,
    worker: Worker,
    listen: String,
    remote: String,
    bells: Arc<Bells, Global>,
    lines: Arc<ErrorLines, Global>,
    /// The longest wait, in microseconds, if it has one.
    longest: Option<u64>,
    /// The bytes of receive buffer that it requests, if it does, and those that the system granted, if it says so.
    wanted: Option<u32>,
    granted: Option<u32>,
    /// Taken by the link once it is open.
    parts: Option<UdpParts<C>>,
    // The calls, which take no memory.
    calls: Log<OpenerCall, ()>,
}

impl<C: Clock + Drop> UdpOpener<C> {
    /// What opens the link of a worker at two addresses. It was asked for nothing yet. The link's clock is `clock`, its waits are at
    /// most `longest` microseconds, and it requests a receive buffer of `wanted` bytes, if these are there.
    pub(crate) fn new(
        alloc: Global,
        net: C,
        clock: C,
        worker: Worker,
        addresses: &Addresses,
        unsent: Option<Unsent>,
        longest: Option<u64>,
        wanted: Option<u32>,
        signals: &Signals,
    ) -> Result<UdpOpener<C>, AllocError>
        ensures texts { IfOk result (λ o. (string_bytes o.listen ≡ addresses.now.listen)
            × (string_bytes o.remote ≡ addresses.now.remote)) }
        ensures sends { IfOk result (λ o. failures_kept o ≡ Some (none_yet (SystemCall.Send worker))) }
        ensures parts { IfOk result (λ o. addresses_kept o ≡ Some addresses.now) }
    {
        let parts = UdpParts {
            clock,
            addresses: Snapshot::of(addresses),
            bells: signals.bells()?,
            failed_sends: FailedCalls::new(SystemCall::Send(worker), signals.logger()?),
            source_teller: signals.logger()?,
            unsent,
        };
        Ok(UdpOpener {
            net,
            worker,
            listen: String::from_str(alloc, addresses.listen())?,
            remote: String::from_str(alloc, addresses.remote())?,
            bells: signals.bells()?,
            lines: signals.lines()?,
            longest,
            wanted,
            granted: None,
            parts: Some(parts),
            calls: Log::new(),
        })
    }

    /// The bytes of the receive buffer that the system granted, if it was requested and the system says so.
    pub(crate) fn granted(&self) -> Option<u32>
        ensures { result ≡ self.now.granted }
    {
        self.granted
    }

    /// Opens the link over a socket that is bound. An opener opens one.
    fn opened(&mut self, socket: UdpSocket, remote: SocketAddr) -> Result<UdpLink<C>, EndFault>
        ensures addresses { IfOk result (λ link. link_addresses link ≡ addresses_kept self.old) }
        ensures sends { IfOk result (λ link. option_map known_of link.failed_sends ≡ failures_kept self.old) }
        ensures fresh { IfOk result (λ link. link.failures ≡ 0) }
        ensures kept { OnErr result (self.new.parts ≡ self.old.parts) }
        ensures same { self.new.calls ≡ self.old.calls }
    {
        let Some(parts) = self.parts.take() else {
            return Err(EndFault {
                end: End::Listen,
                word: SystemWord(io::Error::from(ErrorKind::AddrInUse)),
            });
        };
        if let Some(wanted) = self.wanted {
            self.granted = grow_buffer(&socket, wanted);
        }
        let sources = SourceLog::new(self.worker, remote, parts.source_teller);
        let link = UdpLink::over(socket, remote, parts.clock, Some(parts.addresses));
        Ok(
            link.with_bell(parts.bells, self.worker)
                .with_longest_wait(self.longest)
                .with_failed_sends(parts.failed_sends)
                .with_sources(sources)
                .with_unsent(parts.unsent),
        )
    }

    /// The address that a line names.
    fn address_of(&self, opening: Opening) -> &str {
        match opening {
            Opening::Refused { fault, .. } => match fault.end {
                End::Listen => self.listen.as_str(),
                End::Remote => self.remote.as_str(),
            },
            Opening::Opened => self.listen.as_str(),
        }
    }

    /// Records a call.
    fn tell(&mut self, call: OpenerCall)
        ensures calls { opener_calls self.new ≡ opener_calls self.old ++ call ∷ [] }
        ensures same { self.new ≡ record self.old { calls = self.new.calls } }
    {
        self.calls = self.calls.and(&call, &());
    }
}

impl<C: Clock + Sockets + Drop> Opener<UdpLink<C>> for UdpOpener<C> {
    ghost use Rattle.std.specs.Option.{option_map};
    ghost use Rattle.std.specs.Prelude.{◌≡◌, ◌∷◌, ◌++◌, [], IfOk, OnErr};
    ghost use Rattle.std.specs.Result.{result_err};
    ghost use Rattle.rly_link_udp.specs.UdpOpener.{addresses_kept, failures_kept, link_addresses, opener_calls};
    ghost use Rattle.rly_link_udp.specs.declared.opener.OpenerCall.TheVariants.{Tried};
    ghost use Rattle.rly_station.specs.Warnings.{known_of};

    ghost calls = { opener_calls };

    fn now(&mut self) -> u64 {
        let now = moment_of(self.net.monotonic().ok());
        self.tell(OpenerCall::Read(now));
        now
    }

    fn open(&mut self) -> Result<UdpLink<C>, EndFault>
        ensures calls { opener_calls self.new ≡ opener_calls self.old ++ Tried (result_err result) ∷ [] }
        ensures fresh { IfOk result (λ link. link.failures ≡ 0) }
        ensures addresses { IfOk result (λ link. link_addresses link ≡ addresses_kept self.old) }
        ensures sends { IfOk result (λ link. option_map known_of link.failed_sends ≡ failures_kept self.old) }
        ensures kept { OnErr result (self.new.parts ≡ self.old.parts) }
    {
        let outcome = match self.net.bind(self.listen.as_str(), self.remote.as_str()) {
            Ok((socket, remote)) => self.opened(socket, remote),
            Err(fault) => Err(fault),
        };
        match &outcome {
            Ok(_) => self.tell(OpenerCall::Tried(None)),
            Err(fault) => self.tell(OpenerCall::Tried(Some(*fault))),
        }
        outcome
    }

    fn wait(&mut self, sleep: Sleep) {
        if sleep != Sleep::No
            && let Some(bell) = self.bells.of(self.worker)
        {
            bell.wait(timeout_of(&self.net, sleep, self.longest, None));
        }
        self.tell(OpenerCall::Waited(sleep));
    }

    fn log(&mut self, opening: Opening) {
        say(&self.lines, self.worker, self.address_of(opening), opening);
        self.tell(OpenerCall::Told(opening));
    }
}

/// Logs what became of a worker's link, with an address of it.
fn say(lines: &ErrorLines, worker: Worker, address: &str, opening: Opening) {
    lines.say(&OpeningLine {
        worker,
        address,
        opening,
    });
}
