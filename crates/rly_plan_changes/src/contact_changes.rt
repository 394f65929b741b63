//! The contacts of a hop: when its link is open by one of two plans alone.

ghost use Rattle.std.specs.Prelude.{◌≡◌, ◌++◌, OnOk, string_bytes};
ghost use Rattle.rly_plan_changes.specs.PlanChanges.{change_between, contact_changes, next_change, stretch_line};

use crate::field_changes::{at_key, write_number};
use rly_plan::{KeyPath, NextHop, PlanKey, Row};
use std::alloc::AllocError;

/// Appends the changes of the contacts of a hop.
pub(crate) fn write_contacts(
    text: &mut String,
    number: u64,
    old: &NextHop,
    new: &NextHop,
) -> Result<(), AllocError>
    ensures { OnOk result (string_bytes text.new
        ≡ string_bytes text.old ++ contact_changes number old.now.contacts new.now.contacts) }
{
    let place = at_key(Row::Hop, number, PlanKey::Contacts);
    let (count, others) = (old.contact_count() as u64, new.contact_count() as u64);
    write_number(text, place, Some(count), Some(others))?;
    let mut from = 0;
    for _change in 0..(u128::from(count) + u128::from(others)) * 2 {
        let Some(until) = next_change(old, new, from) else {
            return Ok(());
        };
        write_stretch(
            text,
            number,
            old.is_open(from),
            new.is_open(from),
            from,
            until,
        )?;
        from = until;
    }
    Ok(())
}

/// The next opening or closing of a link by either of two plans.
fn next_change(old: &NextHop, new: &NextHop, moment: u64) -> Option<u64>
    ensures { result ≡ next_change old.now.contacts new.now.contacts moment }
{
    match (old.next_change(moment), new.next_change(moment)) {
        (Some(change), Some(other)) => Some(change.min(other)),
        (Some(change), None) => Some(change),
        (None, other) => other,
    }
}

/// Appends the line of a link that is open from a moment until another by one of two plans alone.
fn write_stretch(
    text: &mut String,
    number: u64,
    old: bool,
    new: bool,
    from: u64,
    until: u64,
) -> Result<(), AllocError>
    ensures { OnOk result
        (string_bytes text.new ≡ string_bytes text.old ++ stretch_line number old new from until) }
{
    let place = at_key(Row::Hop, number, PlanKey::Contacts);
    match (old, new) {
        (true, false) => write_change(text, place, from, until, "open -> closed"),
        (false, true) => write_change(text, place, from, until, "closed -> open"),
        _ => Ok(()),
    }
}

fn write_change(
    text: &mut String,
    place: KeyPath,
    from: u64,
    until: u64,
    change: &str,
) -> Result<(), AllocError>
    ensures { OnOk result
        (string_bytes text.new ≡ string_bytes text.old ++ change_between place from until change.now) }
{
    writeln!(text, "{place}: from {from} until {until}: {change}")?;
    Ok(())
}
