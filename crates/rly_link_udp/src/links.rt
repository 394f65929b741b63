//! The links of a plan's workers to sockets, and the bells of those to folders.

ghost use Rattle.std.specs.Prelude.{◌≡◌, IfOk, None, Some, false};
ghost use Rattle.rly_link_udp.specs.LinkDuties.{layers_duty, longest_until, longest_wait, socket_duty};
ghost use Rattle.rly_link_udp.specs.LinkDuties.{socket_duty_of};
ghost use Rattle.rly_link_udp.specs.PatientLink.{refusal_in};
ghost use Rattle.rly_link_udp.specs.Refused.{IsFaultAt};
ghost use Rattle.rly_link_udp.specs.UdpOpener.{link_addresses, patient_addresses, patient_failures};
ghost use Rattle.rly_station.specs.Warnings.{none_yet};
ghost use Rattle.rly_station.specs.declared.warning.SystemCall.TheVariants.{Send};

use crate::link_reorder::LinkReorder;
use crate::opener::Opener;
use crate::patient_link::PatientLink;
use crate::signals::Signals;
use crate::socket_link::SocketLink;
use crate::udp_link::UdpLink;
use crate::udp_opener::UdpOpener;
use crate::unsent::Unsent;
use crate::worker_clock::is_first;
use crate::wrong_tags::WrongTags;
use rly_hop::StationId;
use rly_link::Worker;
use rly_link_auth::{Key, TAG_BYTES};
use rly_link_log::{BackRoutes, LinkLog};
use rly_plan::{Addresses, Plan};
use rly_station::{AddressFault, End, EndFault, ServeFault, wanted_buffer};
use std::alloc::{AllocError, Global};
use std::io;
use std::net::Net;
use std::time::Clock;

/// The longest wait of a link whose worker has a number of turns, in microseconds.
const LIMITED_WAIT: u64 = 10_000;

/// The longest wait of a worker that watches the wall clock, in microseconds.
const WATCHING_WAIT: u64 = 1_000_000;

/// The longest wait of a receiver at a folder in which something is to be tried again, in microseconds.
const TRYING_WAIT: u64 = 1_000_000;

/// The link of a worker of a plan's station to the station `peer` at a socket. It is sealed if there is a key, and has a
/// reorder buffer for a peer's packets of up to `longest` bytes. Its waits end by the worker's bell, and are bounded if the
/// worker has a number of turns or watches the wall clock. If the system refuses an address a patient link is opened
/// later, and the fault is `Link` otherwise.
pub fn socket_link_of<'a, H: AllocGlobal + Net + Clock>(
    rt: &'a H,
    plan: &Plan,
    peer: StationId,
    worker: Worker,
    addresses: &Addresses,
    key: Option<Key>,
    longest: usize,
    turns: u64,
    is_patient: bool,
    signals: &Signals,
) -> Result<SocketLink<&'a H>, ServeFault>
    ensures duty { IfOk result
        (λ link. socket_duty link ≡ socket_duty_of worker plan.now peer addresses.now key longest) }
    ensures open { is_patient ≡ false → IfOk result (λ link. link.refused ≡ None) }
{
    let socket = patient_link_of(rt, worker, addresses, longest, turns, signals)?;
    match socket.refusal() {
        Some(fault) if !is_patient => Err(fault_of_link(rt.alloc(), worker, addresses, fault)),
        _ => Ok(layers_over(rt, plan, peer, worker, socket, key, longest, signals)?),
    }
}

/// The link of a worker over a socket that is open or is opened later, with all its layers.
fn layers_over<'a, H: AllocGlobal + Net + Clock>(
    rt: &'a H,
    plan: &Plan,
    peer: StationId,
    worker: Worker,
    socket: PatientLink<UdpLink<&'a H>, UdpOpener<&'a H>>,
    key: Option<Key>,
    longest: usize,
    signals: &Signals,
) -> Result<SocketLink<&'a H>, AllocError>
    ensures duty { IfOk result (λ link. socket_duty link
        ≡ layers_duty worker plan.now peer (patient_addresses socket.entry) (patient_failures socket.entry) key longest) }
    ensures refused { IfOk result (λ link. link.refused ≡ refusal_in socket.entry.state) }
{
    let wrong_tags = WrongTags::new(worker, signals.logger()?);
    let own = StationId(plan.station());
    let backs = BackRoutes::new(rt.alloc(), plan, worker, peer)?;
    let log = LinkLog::new(worker, own, peer, key.is_none(), backs, signals.logger()?);
    let keeping = LinkReorder::new(rt.alloc(), own, peer, worker, longest)?;
    Ok(SocketLink::new(socket, key, keeping, wrong_tags, log, rt))
}

/// The link of a worker to a socket, which is opened now, or later if the system refuses an address.
fn patient_link_of<'a, H: AllocGlobal + Net + Clock>(
    rt: &'a H,
    worker: Worker,
    addresses: &Addresses,
    longest: usize,
    turns: u64,
    signals: &Signals,
) -> Result<PatientLink<UdpLink<&'a H>, UdpOpener<&'a H>>, AllocError>
    ensures addresses { IfOk result (λ link. patient_addresses link ≡ Some addresses.now) }
    ensures sends { IfOk result (λ link. patient_failures link ≡ Some (none_yet (Send worker))) }
{
    let mut opener = UdpOpener::new(
        rt.alloc(),
        rt,
        rt,
        worker,
        addresses,
        unsent_of(rt.alloc(), worker, longest)?,
        longest_wait(worker, turns),
        buffer_of(worker, longest),
        signals,
    )?;
    let outcome = opener.open();
    Ok(PatientLink::new(opener, outcome))
}

/// The bell of a worker's link to a folder. Its waits end by an empty packet to its address and by the worker's own bell, and
/// are bounded as those at a socket. A receiver's wait that has an end takes a second at most.
pub fn bell_of<'a, H: Net + Clock>(
    rt: &'a H,
    worker: Worker,
    turns: u64,
    signals: &Signals,
) -> io::Result<UdpLink<&'a H>>
    ensures addresses { IfOk result (λ bell. link_addresses bell ≡ None) }
    ensures longest { IfOk result (λ bell. bell.longest ≡ longest_wait worker turns) }
    ensures tries { IfOk result (λ bell. bell.longest_until ≡ longest_until worker) }
{
    let bells = signals.bells()?;
    let bell = UdpLink::open_bell(rt, rt)?;
    Ok(
        bell.with_bell(bells, worker)
            .with_longest_wait(longest_wait(worker, turns))
            .with_longest_until(longest_until(worker)),
    )
}

/// The memory for the unsent packet of a hop's link, of at most `longest` bytes and a tag. A peer's link has none: its
/// neighbour sends a Data again that wasn't answered.
fn unsent_of(alloc: Global, worker: Worker, longest: usize) -> Result<Option<Unsent>, AllocError> {
    match worker {
        Worker::Receiver(_) => Ok(None),
        Worker::Sender(_) => {
            let unsent = Unsent::reserve(alloc, longest.saturating_add(TAG_BYTES))?;
            Ok(Some(unsent))
        }
    }
}

/// The bytes of receive buffer that a worker's socket requests, if it does. No packet of a peer is read while a round is on
/// the device. A hop sends short packets, so its link requests none.
fn buffer_of(worker: Worker, longest: usize) -> Option<u32> {
    match worker {
        Worker::Receiver(_) => Some(wanted_buffer(longest)),
        Worker::Sender(_) => None,
    }
}

/// The longest wait of a worker, in microseconds, if it has one: if its turns are bounded, and if it watches the wall clock.
fn longest_wait(worker: Worker, turns: u64) -> Option<u64>
    ensures { result ≡ longest_wait worker turns }
{
    if turns > 0 {
        Some(LIMITED_WAIT)
    } else if is_first(worker) {
        Some(WATCHING_WAIT)
    } else {
        None
    }
}

/// The longest wait of a worker at a folder that has an end, in microseconds, if it is bounded. A sender's ends at a moment at
/// which it has something to do.
fn longest_until(worker: Worker) -> Option<u64>
    ensures { result ≡ longest_until worker }
{
    match worker {
        Worker::Receiver(_) => Some(TRYING_WAIT),
        Worker::Sender(_) => None,
    }
}

/// The fault of a link that the system refused, with its worker and address.
pub fn fault_of_link(
    alloc: Global,
    worker: Worker,
    addresses: &Addresses,
    fault: EndFault,
) -> ServeFault
    ensures { IsFaultAt worker addresses.now fault result }
{
    let text = match fault.end {
        End::Listen => addresses.listen(),
        End::Remote => addresses.remote(),
    };
    match String::from_str(alloc, text) {
        Ok(address) => ServeFault::Link(AddressFault {
            worker,
            end: fault.end,
            address,
            word: fault.word,
        }),
        Err(refused) => ServeFault::from(refused),
    }
}
