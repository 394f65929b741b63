//! Passes 4 to 7: each checks a property of the numbers of the whole plan. A pass succeeds iff
//! `number_places` locates no fault for it.

ghost use Rattle.std.specs.Prelude.{◌≡◌, ◌<◌, ◌^◌, ℕ, false, IfOk, map, slice_index_or, vec_len};
ghost use Rattle.rly_plan.specs.Numbers.{is_between, is_given_between, is_station, number, number_16, number_32};
ghost use Rattle.rly_plan.specs.Passes.{contact_from, contact_in_range, destination_in_range, destination_number};
ghost use Rattle.rly_plan.specs.Passes.{is_in_range, is_sorted, lead_in_range};
ghost use Rattle.rly_plan.specs.Passes.{leads_to_hops, overlaps, rate_in_range, repeats, resend_in_range};

use crate::contacts::Contact;
use crate::number_paths::{Numbered, are_apart, lead_place, range_place, sorted_place};
use rly_core::limits::{MAX_RESEND, MIN_RESEND, MOMENT_LIMIT};
use rly_plan_syntax::{ContactDraft, DestinationDraft, PlanDraft};
use std::alloc::{AllocError, Global};

/// The greatest `rate` of a hop, in bytes a second. The least is 1.
pub const MAX_RATE: u64 = 1_000_000_000;

/// The greatest `lead` of a hop, in seconds: a day.
pub const MAX_LEAD: u64 = 86_400;

/// Pass 4: whether each number is in its range.
pub(crate) fn is_in_range(draft: &PlanDraft) -> bool
    ensures { result ≡ is_in_range draft.now }
{
    range_place(draft).is_none()
}

/// Pass 5: whether no contact begins before the one before it begins.
pub(crate) fn is_sorted(draft: &PlanDraft) -> bool
    ensures { result ≡ is_sorted draft.now }
{
    sorted_place(draft).is_none()
}

/// Pass 6: whether a contact begins before the one before it ends, or two peers have one station, or two hops have
/// one, or two routes have one destination.
pub(crate) fn overlaps(alloc: Global, draft: &PlanDraft) -> Result<bool, AllocError>
    ensures { IfOk result (λ found. found ≡ overlaps draft.now) }
{
    let overlaps = !are_apart(draft)
        || rows_repeat(alloc, &draft.peers)?
        || rows_repeat(alloc, &draft.hops)?
        || rows_repeat(alloc, &draft.routes)?;
    Ok(overlaps)
}

/// Pass 7: whether each route leads to an existing hop.
pub(crate) fn leads_to_hops(draft: &PlanDraft) -> bool
    ensures { result ≡ leads_to_hops draft.now }
{
    lead_place(draft).is_none()
}

/// The contact of a draft, with 0 in place of a number below 0.
pub(crate) fn contact_of_draft(draft: &ContactDraft) -> Contact
    ensures { result ≡ contact_from draft.now }
{
    Contact {
        begin: number(draft.begin),
        end: number(draft.end),
    }
}

/// Whether two tables have the same number.
fn rows_repeat<N: Numbered>(alloc: Global, rows: &[N]) -> Result<bool, AllocError>
    ensures { IfOk result (λ found. found ≡ repeats (map N.number rows.now)) }
{
    let numbers: Vec<u16> = rows.iter().map(|row| row.number()).collect(alloc)?;
    repeats(alloc, &numbers)
}

pub(crate) fn resend_in_range(resend: i64) -> bool
    ensures { result ≡ resend_in_range resend }
{
    is_between(resend, MIN_RESEND, MAX_RESEND)
}

pub(crate) fn rate_in_range(rate: Option<i64>) -> bool
    ensures { result ≡ rate_in_range rate }
{
    is_given_between(rate, 1, MAX_RATE)
}

pub(crate) fn lead_in_range(lead: i64) -> bool
    ensures { result ≡ lead_in_range lead }
{
    is_between(lead, 0, MAX_LEAD)
}

pub(crate) fn contact_in_range(contact: &ContactDraft) -> bool
    ensures { result ≡ contact_in_range contact.now }
{
    is_between(contact.begin, 0, MOMENT_LIMIT - 1)
        && is_between(contact.end, number(contact.begin) + 1, MOMENT_LIMIT - 1)
}

pub(crate) fn is_station(station: i64) -> bool
    ensures { result ≡ is_station station }
{
    is_between(station, 1, 65_535)
}

/// Whether the destination of a route is a station's number, if it is one.
pub(crate) fn destination_in_range(destination: DestinationDraft) -> bool
    ensures { result ≡ destination_in_range destination }
{
    match destination {
        DestinationDraft::Station(station) => is_station(station),
        DestinationDraft::Rest => true,
    }
}

/// The number of a route's destination, which no other route has: 0 for the rest.
pub(crate) fn destination_number(destination: DestinationDraft) -> u16
    ensures { result ≡ destination_number destination }
{
    match destination {
        DestinationDraft::Station(station) => number_16(station),
        DestinationDraft::Rest => 0,
    }
}

/// Whether a number occurs twice.
fn repeats(alloc: Global, numbers: &[u16]) -> Result<bool, AllocError>
    ensures { IfOk result (λ found. found ≡ repeats numbers.now) }
{
    let mut seen = unmarked(alloc, usize::from(u16::MAX) + 1)?;
    for number in numbers {
        let place = *number as usize;
        if seen[place] {
            return Ok(true);
        }
        seen[place] = true;
    }
    Ok(false)
}

/// Marks for the numbers below `count`, all unset.
fn unmarked(alloc: Global, count: usize) -> Result<Vec<bool>, AllocError>
    ensures len { IfOk result (λ marks. vec_len marks ≡ count) }
    ensures unset { IfOk result (λ marks. (n : ℕ) → slice_index_or marks.items n false ≡ false) }
{
    vec![in alloc; false; count]
}

/// Whether a whole number lies from `least` to `most`.
pub(crate) fn is_between(value: i64, least: u64, most: u64) -> bool
    ensures { result ≡ is_between least most value }
{
    match u64::try_from(value) {
        Ok(value) => least <= value && value <= most,
        Err(_) => false,
    }
}

/// Whether a whole number lies from `least` to `most`, if it is given.
pub(crate) fn is_given_between(value: Option<i64>, least: u64, most: u64) -> bool
    ensures { result ≡ is_given_between least most value }
{
    match value {
        Some(value) => is_between(value, least, most),
        None => true,
    }
}

/// The whole number, or 0 in place of one below 0.
fn number(value: i64) -> u64
    ensures value { result ≡ number value }
    ensures bounded { result < 2 ^ 63 }
{
    u64::try_from(value).unwrap_or(0)
}

/// The whole number, or 0 in place of one that doesn't fit 16 bits.
pub(crate) fn number_16(value: i64) -> u16
    ensures { result ≡ number_16 value }
{
    u16::try_from(value).unwrap_or(0)
}

/// The whole number, or 0 in place of one that doesn't fit 32 bits.
pub(crate) fn number_32(value: i64) -> u32
    ensures { result ≡ number_32 value }
{
    u32::try_from(value).unwrap_or(0)
}
