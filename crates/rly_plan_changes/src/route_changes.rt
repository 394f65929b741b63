//! The routes of two plans, by their destinations.

ghost use Rattle.std.specs.Prelude.{◌≡◌, ◌++◌, OnOk, string_bytes};
ghost use Rattle.std.specs.List.{enumerate_from, flat_map};
ghost use Rattle.rly_plan_changes.specs.PlanChanges.{destination_text, dropped_route, hop_of, route_change};
ghost use Rattle.rly_plan_changes.specs.PlanChanges.{route_changes, route_text, same_destination};

use crate::field_changes::{at_key, write_number};
use rly_plan::{Destination, KeyPath, PlanKey, Route, Row, Spot};
use std::alloc::AllocError;

/// Appends the changes of routes.
pub(crate) fn write_routes(
    text: &mut String,
    old: &[Route],
    new: &[Route],
) -> Result<(), AllocError>
    ensures { OnOk result (string_bytes text.new ≡ string_bytes text.old ++ route_changes old.now new.now) }
{
    write_dropped(text, old, new)?;
    write_changed(text, old, new)
}

/// Appends the routes that were dropped.
fn write_dropped(text: &mut String, old: &[Route], new: &[Route]) -> Result<(), AllocError>
    ensures { OnOk result (string_bytes text.new
        ≡ string_bytes text.old ++ flat_map (dropped_route new.now) (enumerate_from 1 old.now)) }
{
    let mut number: u64 = 0;
    for route in old {
        number += 1;
        write_if_dropped(text, new, number, *route)?;
    }
    Ok(())
}

fn write_if_dropped(
    text: &mut String,
    new: &[Route],
    number: u64,
    route: Route,
) -> Result<(), AllocError>
    ensures { OnOk result (string_bytes text.new ≡ string_bytes text.old ++ dropped_route new.now (number, route)) }
{
    if hop_of(new, route.destination).is_some() {
        return Ok(());
    }
    write!(text, "{}: ", whole(number))?;
    write_route(text, route)?;
    writeln!(text, " -> none")?;
    Ok(())
}

/// Appends the routes that are new or lead to another hop.
fn write_changed(text: &mut String, old: &[Route], new: &[Route]) -> Result<(), AllocError>
    ensures { OnOk result (string_bytes text.new
        ≡ string_bytes text.old ++ flat_map (route_change old.now) (enumerate_from 1 new.now)) }
{
    let mut number: u64 = 0;
    for route in new {
        number += 1;
        write_if_changed(text, old, number, *route)?;
    }
    Ok(())
}

fn write_if_changed(
    text: &mut String,
    old: &[Route],
    number: u64,
    route: Route,
) -> Result<(), AllocError>
    ensures { OnOk result (string_bytes text.new ≡ string_bytes text.old ++ route_change old.now (number, route)) }
{
    match hop_of(old, route.destination) {
        Some(hop) => {
            let place = at_key(Row::Route, number, PlanKey::Hop);
            write_number(text, place, Some(hop), Some(u64::from(route.hop.0)))
        }
        None => {
            write!(text, "{}: none -> ", whole(number))?;
            write_route(text, route)?;
            writeln!(text)?;
            Ok(())
        }
    }
}

/// The location of a route.
fn whole(number: u64) -> KeyPath
    ensures { result ≡ KeyPath.In Row.Route number Spot.Whole }
{
    KeyPath::In(Row::Route, number, Spot::Whole)
}

/// Appends a route's destination and hop.
fn write_route(text: &mut String, route: Route) -> Result<(), AllocError>
    ensures { OnOk result (string_bytes text.new ≡ string_bytes text.old ++ route_text route) }
{
    let hop = route.hop.0;
    match route.destination {
        Destination::Station(station) => write!(text, "destination {station} hop {hop}")?,
        Destination::Rest => write!(text, "destination rest hop {hop}")?,
    }
    Ok(())
}

/// The hop of the route with this destination, if there is one.
fn hop_of(routes: &[Route], destination: Destination) -> Option<u64>
    ensures { result ≡ hop_of routes.now destination }
{
    for route in routes {
        if same_destination(route.destination, destination) {
            return Some(u64::from(route.hop.0));
        }
    }
    None
}

fn same_destination(one: Destination, other: Destination) -> bool
    ensures { result ≡ same_destination one other }
{
    match (one, other) {
        (Destination::Station(station), Destination::Station(other)) => station == other,
        (Destination::Rest, Destination::Rest) => true,
        _ => false,
    }
}
