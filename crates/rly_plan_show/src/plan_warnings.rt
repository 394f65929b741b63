//! The warnings of a plan.

ghost use Rattle.std.specs.Prelude.{◌≡◌, ◌++◌, IfOk, OnOk, option_map, find, string_bytes};
ghost use Rattle.std.specs.List.{enumerate_from, flat_map};
ghost use Rattle.std.specs.Str.{bytes_eq};
ghost use Rattle.rly_plan_show.specs.PlanWarnings.{are_past, contact_warnings, far_warnings, hop_warnings, listen_at};
ghost use Rattle.rly_plan_show.specs.PlanWarnings.{listen_of_hop, listen_of_peer, listens, neighbour_warnings};
ghost use Rattle.rly_plan_show.specs.PlanWarnings.{peer_warnings, plan_warnings, rest_leads_back, same_listens};
ghost use Rattle.rly_plan_show.specs.PlanWarnings.{same_warning, warn_if, warning_lines};

use crate::address_form::{are_two_families, has_port};
use crate::plan_warning::{Mistake, PlanWarning};
use rly_plan::{FarEnd, KeyPath, Neighbour, NextHop, Plan, PlanKey, Row, SocketEnd, Spot};
use std::alloc::{AllocError, Global};
use std::marker::Model;

/// The first moment of the year 2000. What ends before it was meant in seconds, and not in microseconds.
const YEAR_2000: u64 = 946_684_800_000_000;

/// The warnings of a plan at a moment: mistakes with which a text is a plan none the less. `Err`: out of memory.
pub fn warnings_of(alloc: Global, plan: &Plan, moment: u64) -> Result<Vec<PlanWarning>, AllocError>
    ensures { IfOk result (λ warnings. warnings.items ≡ plan_warnings plan.now moment) }
{
    let mut warnings = Vec::new(alloc);
    warn_of_peers(&mut warnings, plan, plan.peers())?;
    warn_of_hops(&mut warnings, plan, moment, plan.hops())?;
    let listens = listens_of(alloc, plan)?;
    warn_of_listens(&mut warnings, &listens)?;
    Ok(warnings)
}

/// The lines of warnings. `Err`: out of memory.
pub fn lines_of(alloc: Global, warnings: &[PlanWarning]) -> Result<String, AllocError>
    ensures { IfOk result (λ text. string_bytes text ≡ warning_lines warnings.now) }
{
    let mut text = String::new(alloc);
    for warning in warnings {
        writeln!(&mut text, "{warning}")?;
    }
    Ok(text)
}

/// Warns of each peer.
fn warn_of_peers(
    warnings: &mut Vec<PlanWarning>,
    plan: &Plan,
    peers: &[Neighbour],
) -> Result<(), AllocError>
    ensures { OnOk result (warnings.new.items
        ≡ warnings.old.items ++ flat_map (peer_warnings plan.now) (enumerate_from 1 peers.now)) }
{
    let mut number: u64 = 0;
    for peer in peers {
        number += 1;
        warn_of_peer(warnings, plan, number, peer)?;
    }
    Ok(())
}

fn warn_of_peer(
    warnings: &mut Vec<PlanWarning>,
    plan: &Plan,
    number: u64,
    peer: &Neighbour,
) -> Result<(), AllocError>
    ensures { OnOk result (warnings.new.items ≡ warnings.old.items ++ peer_warnings plan.now (number, peer.now)) }
{
    warn_of_neighbour(warnings, plan.station(), Row::Peer, number, peer)?;
    let warning = PlanWarning::at(Row::Peer, number, PlanKey::Station, Mistake::RestLeadsBack);
    warn_if(warnings, rest_leads_back(plan, peer.station), warning)
}

/// Whether a plan has a rest, and none for what this station gives.
fn rest_leads_back(plan: &Plan, station: u16) -> bool
    ensures { result ≡ rest_leads_back plan.now station }
{
    plan.rest().is_some() && plan.rest_for(station).is_none()
}

/// Warns of each hop.
fn warn_of_hops(
    warnings: &mut Vec<PlanWarning>,
    plan: &Plan,
    moment: u64,
    hops: &[NextHop],
) -> Result<(), AllocError>
    ensures { OnOk result (warnings.new.items
        ≡ warnings.old.items ++ flat_map (hop_warnings plan.now moment) (enumerate_from 1 hops.now)) }
{
    let mut number: u64 = 0;
    for hop in hops {
        number += 1;
        warn_of_hop(warnings, plan, moment, number, hop)?;
    }
    Ok(())
}

fn warn_of_hop(
    warnings: &mut Vec<PlanWarning>,
    plan: &Plan,
    moment: u64,
    number: u64,
    hop: &NextHop,
) -> Result<(), AllocError>
    ensures { OnOk result
        (warnings.new.items ≡ warnings.old.items ++ hop_warnings plan.now moment (number, hop.now)) }
{
    warn_of_neighbour(warnings, plan.station(), Row::Hop, number, &hop.neighbour)?;
    warn_of_contacts(warnings, moment, number, hop)
}

/// Warns of contacts that are all past.
fn warn_of_contacts(
    warnings: &mut Vec<PlanWarning>,
    moment: u64,
    number: u64,
    hop: &NextHop,
) -> Result<(), AllocError>
    ensures { OnOk result
        (warnings.new.items ≡ warnings.old.items ++ contact_warnings moment number hop.now.contacts) }
{
    if are_past(hop, YEAR_2000) {
        let warning = PlanWarning::at(Row::Hop, number, PlanKey::Contacts, Mistake::LongAgo);
        return warn_if(warnings, true, warning);
    }
    let warning = PlanWarning::at(Row::Hop, number, PlanKey::Contacts, Mistake::Past);
    warn_if(warnings, are_past(hop, moment), warning)
}

/// Whether a hop has contacts, and all are past at a moment.
fn are_past(hop: &NextHop, moment: u64) -> bool
    ensures { result ≡ are_past hop.now.contacts moment }
{
    hop.contact_count() > 0 && hop.next_change(moment).is_none()
}

/// Warns of a neighbour's number and link.
fn warn_of_neighbour(
    warnings: &mut Vec<PlanWarning>,
    station: u16,
    row: Row,
    number: u64,
    neighbour: &Neighbour,
) -> Result<(), AllocError>
    ensures { OnOk result
        (warnings.new.items ≡ warnings.old.items ++ neighbour_warnings station row number neighbour.now) }
{
    let warning = PlanWarning::at(row, number, PlanKey::Station, Mistake::OwnNumber);
    warn_if(warnings, neighbour.station == station, warning)?;
    match &neighbour.far {
        FarEnd::Socket(socket) => warn_of_socket(warnings, row, number, socket),
        FarEnd::Folder(_) => Ok(()),
    }
}

/// Warns of a link's addresses.
fn warn_of_socket(
    warnings: &mut Vec<PlanWarning>,
    row: Row,
    number: u64,
    socket: &SocketEnd,
) -> Result<(), AllocError>
    ensures { OnOk result
        (warnings.new.items ≡ warnings.old.items ++ far_warnings row number (FarEnd.Socket socket.now)) }
{
    let (listen, remote) = (socket.addresses.listen(), socket.addresses.remote());
    let warning = PlanWarning::at(row, number, PlanKey::Listen, Mistake::NoPort);
    warn_if(warnings, !has_port(listen), warning)?;
    let warning = PlanWarning::at(row, number, PlanKey::Remote, Mistake::TwoFamilies);
    warn_if(warnings, are_two_families(listen, remote), warning)
}

/// Appends a warning, if it is one.
fn warn_if(
    warnings: &mut Vec<PlanWarning>,
    is: bool,
    warning: PlanWarning,
) -> Result<(), AllocError>
    ensures { OnOk result (warnings.new.items ≡ warnings.old.items ++ warn_if is warning) }
{
    if is {
        warnings.push(warning)?;
    }
    Ok(())
}

/// The `listen` of a link, and its location.
#[derive(Drop)]
struct Listen<'a> {
    place: KeyPath,
    address: &'a str,
}

impl<'a> Model for Listen<'a> {
    ghost use Rattle.rly_plan_show.specs.PlanWarnings.{Listening};

    ghost Value = { Listening };

    ghost view = { λ l. record { place = l.place; address = l.address.now } };
}

/// The `listen` of each link.
fn listens_of<'a>(alloc: Global, plan: &'a Plan) -> Result<Vec<Listen<'a>>, AllocError>
    ensures { IfOk result (λ found. found.items ≡ listens plan.now) }
{
    let mut found = Vec::new(alloc);
    add_peers(&mut found, plan.peers())?;
    add_hops(&mut found, plan.hops())?;
    Ok(found)
}

fn add_peers<'a>(found: &mut Vec<Listen<'a>>, peers: &'a [Neighbour]) -> Result<(), AllocError>
    ensures { OnOk result
        (found.new.items ≡ found.old.items ++ flat_map listen_of_peer (enumerate_from 1 peers.now)) }
{
    let mut number: u64 = 0;
    for peer in peers {
        number += 1;
        add_listen(found, Row::Peer, number, &peer.far)?;
    }
    Ok(())
}

fn add_hops<'a>(found: &mut Vec<Listen<'a>>, hops: &'a [NextHop]) -> Result<(), AllocError>
    ensures { OnOk result
        (found.new.items ≡ found.old.items ++ flat_map listen_of_hop (enumerate_from 1 hops.now)) }
{
    let mut number: u64 = 0;
    for hop in hops {
        number += 1;
        add_listen(found, Row::Hop, number, &hop.neighbour.far)?;
    }
    Ok(())
}

/// Appends the `listen` of a link, if it has one.
fn add_listen<'a>(
    found: &mut Vec<Listen<'a>>,
    row: Row,
    number: u64,
    far: &'a FarEnd,
) -> Result<(), AllocError>
    ensures { OnOk result (found.new.items ≡ found.old.items ++ listen_at row number far.now) }
{
    match far {
        FarEnd::Socket(socket) => {
            let place = KeyPath::In(row, number, Spot::At(PlanKey::Listen));
            let address = socket.addresses.listen();
            found.push(Listen { place, address })?;
            Ok(())
        }
        FarEnd::Folder(_) => Ok(()),
    }
}

/// Warns of each link that listens at the address of one before it.
fn warn_of_listens(
    warnings: &mut Vec<PlanWarning>,
    listens: &[Listen<'_>],
) -> Result<(), AllocError>
    ensures { OnOk result (warnings.new.items ≡ warnings.old.items ++ same_listens listens.now) }
{
    for index in 0..listens.len() {
        let first = &listens[index];
        let later = &listens[index + 1..];
        warn_of_same(warnings, first, later)?;
    }
    Ok(())
}

/// Warns of the next link that listens at the address of one.
fn warn_of_same(
    warnings: &mut Vec<PlanWarning>,
    first: &Listen<'_>,
    later: &[Listen<'_>],
) -> Result<(), AllocError>
    ensures { OnOk result (warnings.new.items ≡ warnings.old.items
        ++ same_warning first.now.place (find (λ m. bytes_eq m.address first.now.address) later.now)) }
{
    if let Some(place) = place_of(first.address, later) {
        let mistake = Mistake::SameListen(first.place);
        warnings.push(PlanWarning { place, mistake })?;
    }
    Ok(())
}

/// The location of the first link that listens at an address.
fn place_of(address: &str, listens: &[Listen<'_>]) -> Option<KeyPath>
    ensures { result
        ≡ option_map (λ l. l.place) (find (λ l. bytes_eq l.address address.now) listens.now) }
{
    for listen in listens {
        if listen.address == address {
            return Some(listen.place);
        }
    }
    None
}
