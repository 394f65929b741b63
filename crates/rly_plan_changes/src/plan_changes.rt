//! What differs between two plans.

ghost use Rattle.std.specs.Prelude.{◌≡◌, ◌++◌, IfOk, OnOk, Some, length, max, option_copied, string_bytes};
ghost use Rattle.std.specs.List.{enumerate_from, flat_map};
ghost use Rattle.rly_plan.specs.ContactPlan.{at_number};
ghost use Rattle.rly_plan_changes.specs.PlanChanges.{hop_change, hop_changes, hop_numbers, id_at, id_lines, ids_lines};
ghost use Rattle.rly_plan_changes.specs.PlanChanges.{at_key, number_change, peer_changes, plan_changes, noted_line, station_line};

use crate::contact_changes::write_contacts;
use crate::field_changes::{at_key, wide, write_far_end, write_number};
use crate::plan_ids::PlanIds;
use crate::route_changes::write_routes;
use rly_plan::{KeyPath, Neighbour, NextHop, Plan, PlanKey, Row};
use std::alloc::{AllocError, Global};

/// What differs between two plans: a line for each difference. `Err`: out of memory.
pub fn changes_of(alloc: Global, old: &Plan, new: &Plan) -> Result<String, AllocError>
    ensures { IfOk result (λ text. string_bytes text ≡ plan_changes old.now new.now) }
{
    let (ids, others) = (PlanIds::of(alloc, old)?, PlanIds::of(alloc, new)?);
    let mut text = String::new(alloc);
    let (station, other) = (u64::from(old.station()), u64::from(new.station()));
    write_number(&mut text, KeyPath::Station, Some(station), Some(other))?;
    write_ids(&mut text, &ids, &others)?;
    write_peers(&mut text, old.peers(), new.peers())?;
    write_hops(&mut text, old.hops(), new.hops())?;
    write_routes(&mut text, old.routes(), new.routes())?;
    Ok(text)
}

/// Appends the ids that name another station, and those of one plan alone.
fn write_ids(text: &mut String, old: &PlanIds, new: &PlanIds) -> Result<(), AllocError>
    ensures { OnOk result (string_bytes text.new ≡ string_bytes text.old ++ ids_lines old.now new.now) }
{
    write_row(text, Row::Peer, &old.peers, &new.peers)?;
    write_row(text, Row::Hop, &old.hops, &new.hops)
}

fn write_row(text: &mut String, row: Row, old: &[u16], new: &[u16]) -> Result<(), AllocError>
    ensures { OnOk result (string_bytes text.new ≡ string_bytes text.old ++ id_lines row old.now new.now) }
{
    for index in 0..old.len().max(new.len()) {
        let number = index as u64 + 1;
        write_id(text, row, number, old, new)?;
    }
    Ok(())
}

/// Appends the line of an id, by the stations that it names in the two plans.
fn write_id(
    text: &mut String,
    row: Row,
    number: u64,
    old: &[u16],
    new: &[u16],
) -> Result<(), AllocError>
    ensures { OnOk result (string_bytes text.new ≡ string_bytes text.old ++ id_at row old.now new.now number) }
{
    let place = at_key(row, number, PlanKey::Station);
    match (at_number(old, number), at_number(new, number)) {
        (Some(old), Some(new)) => write_station(text, place, *old, *new),
        (Some(old), None) => write_number(text, place, Some(u64::from(*old)), None),
        (None, Some(new)) => write_number(text, place, None, Some(u64::from(*new))),
        (None, None) => Ok(()),
    }
}

/// Appends the line of an id of both plans, if it names another station.
fn write_station(text: &mut String, place: KeyPath, old: u16, new: u16) -> Result<(), AllocError>
    ensures { OnOk result (string_bytes text.new ≡ string_bytes text.old ++ station_line place old new) }
{
    if old == new {
        return Ok(());
    }
    write_noted(text, place, old, new, "the id names another station")
}

/// Appends the line of a location whose numbers differ, with a note.
fn write_noted(
    text: &mut String,
    place: KeyPath,
    old: u16,
    new: u16,
    note: &str,
) -> Result<(), AllocError>
    ensures { OnOk result (string_bytes text.new ≡ string_bytes text.old ++ noted_line place old new note.now) }
{
    writeln!(text, "{place}: {old} -> {new}: {note}")?;
    Ok(())
}

/// Appends the changes of the peers that both plans have.
fn write_peers(text: &mut String, old: &[Neighbour], new: &[Neighbour]) -> Result<(), AllocError>
    ensures { OnOk result (string_bytes text.new
        ≡ string_bytes text.old ++ flat_map (peer_changes new.now) (enumerate_from 1 old.now)) }
{
    let mut number: u64 = 0;
    for peer in old {
        number += 1;
        write_peer(text, new, number, peer)?;
    }
    Ok(())
}

fn write_peer(
    text: &mut String,
    new: &[Neighbour],
    number: u64,
    peer: &Neighbour,
) -> Result<(), AllocError>
    ensures { OnOk result (string_bytes text.new ≡ string_bytes text.old ++ peer_changes new.now (number, peer.now)) }
{
    match at_number(new, number) {
        Some(now) => write_far_end(text, Row::Peer, number, &peer.far, &now.far),
        None => Ok(()),
    }
}

/// Appends the changes of the hops that both plans have.
fn write_hops(text: &mut String, old: &[NextHop], new: &[NextHop]) -> Result<(), AllocError>
    ensures { OnOk result (string_bytes text.new
        ≡ string_bytes text.old ++ flat_map (hop_changes new.now) (enumerate_from 1 old.now)) }
{
    let mut number: u64 = 0;
    for hop in old {
        number += 1;
        write_hop(text, new, number, hop)?;
    }
    Ok(())
}

fn write_hop(
    text: &mut String,
    new: &[NextHop],
    number: u64,
    hop: &NextHop,
) -> Result<(), AllocError>
    ensures { OnOk result (string_bytes text.new ≡ string_bytes text.old ++ hop_changes new.now (number, hop.now)) }
{
    match at_number(new, number) {
        Some(now) => write_hop_change(text, number, hop, now),
        None => Ok(()),
    }
}

fn write_hop_change(
    text: &mut String,
    number: u64,
    old: &NextHop,
    new: &NextHop,
) -> Result<(), AllocError>
    ensures { OnOk result (string_bytes text.new ≡ string_bytes text.old ++ hop_change number old.now new.now) }
{
    write_far_end(
        text,
        Row::Hop,
        number,
        &old.neighbour.far,
        &new.neighbour.far,
    )?;
    write_hop_numbers(text, number, old, new)?;
    write_contacts(text, number, old, new)?;
    Ok(())
}

/// Appends the changes of a hop's timeout, rate and lead.
fn write_hop_numbers(
    text: &mut String,
    number: u64,
    old: &NextHop,
    new: &NextHop,
) -> Result<(), AllocError>
    ensures { OnOk result (string_bytes text.new ≡ string_bytes text.old ++ hop_numbers number old.now new.now) }
{
    write_hop_number(
        text,
        number,
        PlanKey::Resend,
        Some(old.resend),
        Some(new.resend),
    )?;
    write_hop_number(text, number, PlanKey::Rate, old.rate, new.rate)?;
    write_hop_number(text, number, PlanKey::Lead, Some(old.lead), Some(new.lead))
}

fn write_hop_number(
    text: &mut String,
    number: u64,
    key: PlanKey,
    old: Option<u32>,
    new: Option<u32>,
) -> Result<(), AllocError>
    ensures { OnOk result
        (string_bytes text.new ≡ string_bytes text.old ++ number_change (at_key Row.Hop number key) old new) }
{
    let place = at_key(Row::Hop, number, key);
    write_number(text, place, wide(old), wide(new))
}

/// The element of this number, counting from 1.
fn at_number<T>(items: &[T], number: u64) -> Option<&T>
    ensures { option_copied result ≡ at_number items.now number }
{
    match number {
        0 => None,
        _ => items.get(number as usize - 1),
    }
}
