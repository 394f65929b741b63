ghost use Rattle.std.specs.Prelude.{◌≡◌, ◌<◌, ◌++◌, IfOk, IfSome, OnOk, option_copied, string_bytes};
ghost use Rattle.rly_plan_show.specs.PlanText.{at_line, bounds_text, destination_text, far_text, folder_text, hop_line};
ghost use Rattle.rly_plan_show.specs.PlanText.{hop_lines, hops_text, lead_text, limit_text, most_text, neighbour_text};
ghost use Rattle.rly_plan_show.specs.PlanText.{peer_line, peers_text, rate_text, route_line, routes_text, socket_text};
ghost use Rattle.rly_plan_show.specs.PlanText.{state_line, state_text, station_line, text_for_plan, times_line, until_text};

use crate::utc::Utc;
use rly_core::limits::MOMENT_LIMIT;
use rly_plan::{Destination, FarEnd, FolderEnd, Neighbour, NextHop, Plan, Route, SocketEnd};
use std::alloc::{AllocError, Global};

/// The text of a plan at a moment, in microseconds since the Unix epoch. `Err`: out of memory.
pub fn text_of(alloc: Global, plan: &Plan, moment: u64) -> Result<String, AllocError>
    requires { moment < MOMENT_LIMIT }
    ensures { IfOk result (λ text. string_bytes text ≡ text_for_plan plan.now moment) }
{
    let mut text = String::new(alloc);
    write_head(&mut text, plan.station(), moment)?;
    write_peers(&mut text, plan.peers())?;
    write_hops(&mut text, plan.hops(), moment)?;
    write_routes(&mut text, plan.routes())?;
    Ok(text)
}

/// Appends the moment and the station.
fn write_head(text: &mut String, station: u16, moment: u64) -> Result<(), AllocError>
    requires { moment < MOMENT_LIMIT }
    ensures { OnOk result (string_bytes text.new ≡ string_bytes text.old ++ at_line moment ++ station_line station) }
{
    writeln!(text, "at {} {moment}", Utc::of(moment))?;
    writeln!(text, "station {station}")?;
    Ok(())
}

/// Appends the peers' lines.
fn write_peers(text: &mut String, peers: &[Neighbour]) -> Result<(), AllocError>
    ensures { OnOk result (string_bytes text.new ≡ string_bytes text.old ++ peers_text peers.now) }
{
    let mut number: u64 = 0;
    for peer in peers {
        number += 1;
        write_peer(text, number, peer)?;
    }
    Ok(())
}

/// Appends a peer's line.
fn write_peer(text: &mut String, number: u64, peer: &Neighbour) -> Result<(), AllocError>
    ensures { OnOk result (string_bytes text.new ≡ string_bytes text.old ++ peer_line (number, peer.now)) }
{
    write!(text, "peer {number}")?;
    write_neighbour(text, peer)
}

/// Appends the fields of a neighbour.
fn write_neighbour(text: &mut String, neighbour: &Neighbour) -> Result<(), AllocError>
    ensures { OnOk result (string_bytes text.new ≡ string_bytes text.old ++ neighbour_text neighbour.now) }
{
    let station = neighbour.station;
    write!(text, " station {station}")?;
    write_far_end(text, &neighbour.far)?;
    writeln!(text)?;
    Ok(())
}

/// Appends the far end of a link.
fn write_far_end(text: &mut String, far: &FarEnd) -> Result<(), AllocError>
    ensures { OnOk result (string_bytes text.new ≡ string_bytes text.old ++ far_text far.now) }
{
    match far {
        FarEnd::Socket(socket) => write_socket(text, socket),
        FarEnd::Folder(folder) => write_folder(text, folder),
    }
}

/// Appends the addresses of a link, and the path of its key file, if it has one.
fn write_socket(text: &mut String, socket: &SocketEnd) -> Result<(), AllocError>
    ensures { OnOk result (string_bytes text.new ≡ string_bytes text.old ++ socket_text socket.now) }
{
    let listen = socket.addresses.listen();
    let remote = socket.addresses.remote();
    write!(text, " listen {listen} remote {remote}")?;
    if let Some(key) = &socket.key {
        let path = key.path();
        write!(text, " key {path}")?;
    }
    Ok(())
}

/// Appends the path of a folder, and the destination and age limit of its files, if it has them.
fn write_folder(text: &mut String, folder: &FolderEnd) -> Result<(), AllocError>
    ensures { OnOk result (string_bytes text.new ≡ string_bytes text.old ++ folder_text folder.now) }
{
    let path = folder.path.path();
    write!(text, " folder {path}")?;
    write_destination(text, folder.destination)?;
    write_limit(text, folder.limit)
}

/// Appends the destination of a folder's files, if it has one.
fn write_destination(text: &mut String, destination: Option<u16>) -> Result<(), AllocError>
    ensures { OnOk result (string_bytes text.new ≡ string_bytes text.old ++ destination_text destination) }
{
    if let Some(destination) = destination {
        write!(text, " destination {destination}")?;
    }
    Ok(())
}

/// Appends the age limit of a folder's files, if it has one.
fn write_limit(text: &mut String, limit: Option<u32>) -> Result<(), AllocError>
    ensures { OnOk result (string_bytes text.new ≡ string_bytes text.old ++ limit_text limit) }
{
    if let Some(limit) = limit {
        write!(text, " limit {limit}")?;
    }
    Ok(())
}

/// Appends the hops' lines.
fn write_hops(text: &mut String, hops: &[NextHop], moment: u64) -> Result<(), AllocError>
    requires { moment < MOMENT_LIMIT }
    ensures { OnOk result (string_bytes text.new ≡ string_bytes text.old ++ hops_text moment hops.now) }
{
    let mut number: u64 = 0;
    for hop in hops {
        number += 1;
        write_hop(text, number, hop, moment)?;
    }
    Ok(())
}

/// Appends a hop's lines.
fn write_hop(text: &mut String, number: u64, hop: &NextHop, moment: u64) -> Result<(), AllocError>
    requires { moment < MOMENT_LIMIT }
    ensures { OnOk result (string_bytes text.new ≡ string_bytes text.old ++ hop_lines moment (number, hop.now)) }
{
    write_link(text, number, hop)?;
    write_times(text, number, hop)?;
    write_state(text, number, hop, moment)?;
    Ok(())
}

/// Appends the neighbour that a hop leads to.
fn write_link(text: &mut String, number: u64, hop: &NextHop) -> Result<(), AllocError>
    ensures { OnOk result (string_bytes text.new ≡ string_bytes text.old ++ hop_line (number, hop.now)) }
{
    write!(text, "hop {number}")?;
    write_neighbour(text, &hop.neighbour)
}

/// Appends a hop's timeout, its bounds, its number of contacts, and its open time.
fn write_times(text: &mut String, number: u64, hop: &NextHop) -> Result<(), AllocError>
    ensures { OnOk result (string_bytes text.new ≡ string_bytes text.old ++ times_line (number, hop.now)) }
{
    let resend = hop.resend;
    let contacts = hop.contact_count();
    let open = hop.open_time();
    write!(text, "hop {number} resend {resend}")?;
    write_bounds(text, hop)?;
    writeln!(text, " contacts {contacts} open {open}")?;
    Ok(())
}

/// Appends a hop's rate, its lead, and the number of files at which its folder is full, if it has them.
fn write_bounds(text: &mut String, hop: &NextHop) -> Result<(), AllocError>
    ensures { OnOk result (string_bytes text.new ≡ string_bytes text.old ++ bounds_text hop.now) }
{
    write_rate(text, hop.rate)?;
    write_lead(text, hop.lead)?;
    write_most(text, &hop.neighbour.far)
}

/// Appends a hop's rate, if it has one.
fn write_rate(text: &mut String, rate: Option<u32>) -> Result<(), AllocError>
    ensures { OnOk result (string_bytes text.new ≡ string_bytes text.old ++ rate_text rate) }
{
    if let Some(rate) = rate {
        write!(text, " rate {rate}")?;
    }
    Ok(())
}

/// Appends a hop's lead, if it has one.
fn write_lead(text: &mut String, lead: u32) -> Result<(), AllocError>
    ensures { OnOk result (string_bytes text.new ≡ string_bytes text.old ++ lead_text lead) }
{
    if lead != 0 {
        write!(text, " lead {lead}")?;
    }
    Ok(())
}

/// Appends the number of files at which a folder is full, if the far end of the link is one.
fn write_most(text: &mut String, far: &FarEnd) -> Result<(), AllocError>
    ensures { OnOk result (string_bytes text.new ≡ string_bytes text.old ++ most_text far.now) }
{
    if let FarEnd::Folder(folder) = far {
        let most = folder.most;
        write!(text, " most {most}")?;
    }
    Ok(())
}

/// Appends the state of a hop's link, and its next change.
fn write_state(text: &mut String, number: u64, hop: &NextHop, moment: u64) -> Result<(), AllocError>
    ensures { OnOk result (string_bytes text.new ≡ string_bytes text.old ++ state_line moment (number, hop.now)) }
{
    let state = state_text(hop.is_open(moment));
    write!(text, "hop {number} contact {state}")?;
    write_until(text, hop.next_change(moment))?;
    writeln!(text)?;
    Ok(())
}

/// The name of a link's state.
fn state_text(is_open: bool) -> &'static str
    ensures { result.now ≡ state_text is_open }
{
    if is_open { "open" } else { "closed" }
}

/// Appends the moment at which a link changes, if it does.
fn write_until(text: &mut String, change: Option<u64>) -> Result<(), AllocError>
    requires { IfSome change (λ moment. moment < MOMENT_LIMIT) }
    ensures { OnOk result (string_bytes text.new ≡ string_bytes text.old ++ until_text change) }
{
    if let Some(moment) = change {
        write!(text, " until {} {moment}", Utc::of(moment))?;
    }
    Ok(())
}

/// Appends the routes' lines.
fn write_routes(text: &mut String, routes: &[Route]) -> Result<(), AllocError>
    ensures { OnOk result (string_bytes text.new ≡ string_bytes text.old ++ routes_text routes.now) }
{
    for route in routes {
        write_route(text, *route)?;
    }
    Ok(())
}

/// Appends a route's line.
fn write_route(text: &mut String, route: Route) -> Result<(), AllocError>
    ensures { OnOk result (string_bytes text.new ≡ string_bytes text.old ++ route_line route) }
{
    let hop = route.hop.0;
    match route.destination {
        Destination::Station(station) => writeln!(text, "route {station} hop {hop}")?,
        Destination::Rest => writeln!(text, "route rest hop {hop}")?,
    }
    Ok(())
}
