//! What the packets of a link show of what stops it.

ghost use Rattle.std.specs.Prelude.{◌≡◌, length};
ghost use Rattle.rly_link_log.specs.LinkCauses.{back_cause, back_cause_at, fault_cause, heard_cause};

use crate::back_routes::BackRoutes;
use crate::seen::{Seen, SeenData};
use rly_hop::{StationId, read_message};
use rly_link_auth::TAG_BYTES;
use rly_station::LinkCause;

/// What a packet shows that a link from station `peer` to station `own` heard: it is of other stations, it refuses a Data,
/// its datagram would go back, or it has a tag on a link without a key.
pub(crate) fn cause_heard(
    is_open: bool,
    own: StationId,
    peer: StationId,
    backs: &BackRoutes,
    packet: &[u8],
    seen: Seen,
) -> Option<LinkCause>
    ensures { result ≡ heard_cause is_open own peer backs.now.routes.items packet.now seen }
{
    match seen {
        Seen::Data(datum) => back_cause(peer, backs, datum),
        Seen::Refused { number, refusal } => Some(LinkCause::IsRefused {
            station: peer.0,
            number,
            refusal,
        }),
        Seen::Strange { from, to } => Some(LinkCause::OtherStations {
            from,
            to,
            neighbour: peer.0,
            own: own.0,
        }),
        Seen::Other => cause_of_fault(is_open, packet),
        Seen::Custody(_) | Seen::Heard { .. } => None,
    }
}

/// What a Data from station `peer` shows: its datagram would go back there.
fn back_cause(peer: StationId, backs: &BackRoutes, datum: SeenData) -> Option<LinkCause>
    ensures { result ≡ back_cause peer backs.now.routes.items datum }
{
    let Some(destination) = datum.destination else {
        return None;
    };
    match backs.hop_of(destination) {
        Some(hop) if datum.number > 0 => Some(LinkCause::LedBack {
            destination,
            station: peer.0,
            hop,
            number: datum.number,
        }),
        _ => None,
    }
}

/// What a packet shows that is no message.
fn cause_of_fault(is_open: bool, packet: &[u8]) -> Option<LinkCause>
    ensures { result ≡ fault_cause is_open packet.now }
{
    let front = &packet[..packet.len().saturating_sub(TAG_BYTES)];
    if is_open && read_message(front).is_ok() {
        return Some(LinkCause::Tagged);
    }
    None
}
