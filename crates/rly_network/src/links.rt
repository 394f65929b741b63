//! The links of a station: whether their two ends agree.

ghost use Rattle.std.specs.Prelude.{◌≡◌, ◌++◌, OnOk};
ghost use Rattle.std.specs.List.{enumerate_from, flat_map};
ghost use Rattle.rly_network.specs.Links.{at_hop, end_conflicts, has_one_key, hop_conflicts, link_conflicts, reaches};

use crate::addresses::is_reached;
use crate::disagreement::{Conflict, Disagreement, push_at, push_if};
use crate::station_plan::StationPlan;
use crate::stations::{is_link, peer_of, station_of};
use rly_plan::{KeyPath, Neighbour, NextHop, PlanKey, Row, Spot};
use std::alloc::AllocError;

/// Appends what the links of a station's hops disagree on with their far ends.
pub(crate) fn check_hops(
    found: &mut Vec<Disagreement>,
    stations: &[StationPlan],
    station: &StationPlan,
    hops: &[NextHop],
) -> Result<(), AllocError>
    ensures { OnOk result (found.new.items
        ≡ found.old.items ++ flat_map (hop_conflicts stations.now station.now) (enumerate_from 1 hops.now)) }
{
    let mut number: u64 = 0;
    for hop in hops {
        number += 1;
        check_hop(found, stations, station, number, hop)?;
    }
    Ok(())
}

fn check_hop(
    found: &mut Vec<Disagreement>,
    stations: &[StationPlan],
    station: &StationPlan,
    number: u64,
    hop: &NextHop,
) -> Result<(), AllocError>
    ensures { OnOk result
        (found.new.items ≡ found.old.items ++ hop_conflicts stations.now station.now (number, hop.now)) }
{
    if !is_link(hop) {
        return Ok(());
    }
    match station_of(stations, hop.neighbour.station) {
        Some(next) => check_link(found, station, number, &hop.neighbour, next),
        None => {
            let conflict = Conflict::NoPlan(hop.neighbour.station);
            push_at(found, station, Row::Hop, number, PlanKey::Station, conflict)
        }
    }
}

/// Appends what a hop disagrees on with the plan of the station that it leads to.
fn check_link(
    found: &mut Vec<Disagreement>,
    station: &StationPlan,
    number: u64,
    hop: &Neighbour,
    next: &StationPlan,
) -> Result<(), AllocError>
    ensures { OnOk result
        (found.new.items ≡ found.old.items ++ link_conflicts station.now number hop.now next.now) }
{
    let is_short = next.device.payload < station.device.payload;
    let conflict = Conflict::ShortPayload(next.plan.station());
    push_if(
        found,
        is_short,
        at_hop(station, number, PlanKey::Station, conflict),
    )?;
    match peer_of(&next.plan, station.plan.station()) {
        Some(peer) => check_ends(found, station, number, hop, next, peer),
        None => {
            let conflict = Conflict::NoPeer(next.plan.station());
            push_at(found, station, Row::Hop, number, PlanKey::Station, conflict)
        }
    }
}

/// Appends what a hop and its peer at the far end disagree on.
fn check_ends(
    found: &mut Vec<Disagreement>,
    station: &StationPlan,
    number: u64,
    hop: &Neighbour,
    next: &StationPlan,
    peer: &Neighbour,
) -> Result<(), AllocError>
    ensures { OnOk result
        (found.new.items ≡ found.old.items ++ end_conflicts station.now number hop.now next.now peer.now) }
{
    let far = next.plan.station();
    let is_reached = reaches(hop, peer);
    let conflict = Conflict::NotListening(far);
    push_if(
        found,
        !is_reached,
        at_hop(station, number, PlanKey::Remote, conflict),
    )?;
    let is_reached = reaches(peer, hop);
    let conflict = Conflict::NotSending(far);
    push_if(
        found,
        !is_reached,
        at_hop(station, number, PlanKey::Listen, conflict),
    )?;
    let is_one = has_one_key(hop, peer);
    let conflict = Conflict::OneKey(far);
    push_if(
        found,
        is_one,
        at_hop(station, number, PlanKey::Key, conflict),
    )
}

/// Whether packets of one end of a link reach the other one.
fn reaches(end: &Neighbour, other: &Neighbour) -> bool
    ensures { result ≡ reaches end.now other.now }
{
    match end.far.addresses() {
        Some(addresses) => match other.far.addresses() {
            Some(others) => is_reached(addresses.remote(), others.listen()),
            None => false,
        },
        None => false,
    }
}

/// Whether one end of a link has a key, and the other one has none.
fn has_one_key(end: &Neighbour, other: &Neighbour) -> bool
    ensures { result ≡ has_one_key end.now other.now }
{
    let is_other = other.far.key().is_some();
    if end.far.key().is_some() {
        !is_other
    } else {
        is_other
    }
}

/// A conflict at a key of a station's hop.
fn at_hop(station: &StationPlan, number: u64, key: PlanKey, conflict: Conflict) -> Disagreement
    ensures { result ≡ at_hop station.now number key conflict }
{
    Disagreement {
        station: station.plan.station(),
        place: KeyPath::In(Row::Hop, number, Spot::At(key)),
        conflict,
    }
}
