ghost use Rattle.std.specs.Prelude.{◌≡◌, ◌≢◌, None, codes, IfOk, OnErr, option_copied, option_map};
ghost use Rattle.toml.specs.View.{array_view, table_view, view};
ghost use Rattle.toml.specs.Data.{get_member};
ghost use Rattle.rly_plan_syntax.specs.Draft.{contact_draft_of, draft_of, each_item, hop_in, integer_at, items_at};
ghost use Rattle.rly_plan_syntax.specs.Draft.{neighbour_of, number_or, optional_number, optional_text, routes_at, text_at};
ghost use Rattle.rly_plan_syntax.specs.HelpersDraft.{contact_between, link_in, link_text};

use crate::far_end::{FarEndDraft, read_far_end};
use crate::route::{RouteDraft, read_route};
use rly_core::limits::DEFAULT_RESEND;
use std::alloc::{AllocError, Global};
use std::marker::Model;
use toml::value::Array;
use toml::{Table, Value};

/// A `[[peer]]` table, or that part of a `[[hop]]` table.
#[derive(Drop)]
pub struct NeighbourDraft {
    /// The id that the table states, counted within its array.
    pub id: i64,
    /// The neighbour's station number.
    pub station: i64,
    /// The far end of the link.
    pub far: FarEndDraft,
}

/// A contact as the text writes it, in microseconds since the Unix epoch.
#[derive(Clone, Copy)]
pub struct ContactDraft {
    /// The first moment of the contact.
    pub begin: i64,
    /// The first moment after the contact.
    pub end: i64,
}

/// A `[[hop]]` table.
#[derive(Drop)]
pub struct HopDraft {
    /// The neighbour that the hop leads to.
    pub neighbour: NeighbourDraft,
    /// Minimum retransmission timeout in milliseconds; the default if the table omits it.
    pub resend: i64,
    /// In bytes a second, if the table limits it.
    pub rate: Option<i64>,
    /// Seconds before an opening; 0 if the table omits it.
    pub lead: i64,
    /// The times in which the link is open, in the order of the text.
    pub contacts: Vec<ContactDraft>,
}

impl Model for HopDraft {
    ghost use Rattle.rly_plan_syntax.specs.Draft.{HopText};

    ghost Value = { HopText };

    ghost view = { λ h.
        record {
          neighbour = h.neighbour;
          resend = h.resend;
          rate = h.rate;
          lead = h.lead;
          contacts = h.contacts.items;
        } };
}

/// A plan that has all its keys, with values of their types. Its numbers aren't checked yet.
#[derive(Drop)]
pub struct PlanDraft {
    /// This station's number.
    pub station: i64,
    /// The upstream neighbours, in the order of the text.
    pub peers: Vec<NeighbourDraft>,
    /// The next hops, in the order of the text.
    pub hops: Vec<HopDraft>,
    /// The routes, in the order of the text.
    pub routes: Vec<RouteDraft>,
}

impl Model for PlanDraft {
    ghost use Rattle.rly_plan_syntax.specs.Draft.{PlanText};

    ghost Value = { PlanText };

    ghost view = { λ d.
        record { station = d.station; peers = d.peers.items; hops = d.hops.items; routes = d.routes.items } };
}

/// The Rust value of an item of an array.
pub(crate) trait Item: Drop {
    ghost use Rattle.std.specs.Prelude.{◌≡◌, IfOk, Option};
    ghost use Rattle.toml.specs.Data.{Data};
    ghost use Rattle.toml.specs.View.{view};

    ghost shape: { Data → Option Self };

    /// Reads a value: `None` if it has another shape.
    fn read(alloc: Global, value: &Value) -> Result<Option<Self>, AllocError>
        ensures { IfOk result (λ found. found ≡ shape (view value.now)) };
}

impl Item for ContactDraft {
    ghost use Rattle.rly_plan_syntax.specs.Draft.{contact_draft_of};

    ghost shape = { contact_draft_of };

    fn read(_alloc: Global, value: &Value) -> Result<Option<ContactDraft>, AllocError> {
        Ok(read_contact(value))
    }
}

/// Reads a contact: `None` if the value isn't two whole numbers.
pub fn read_contact(value: &Value) -> Option<ContactDraft>
    ensures contact { result ≡ contact_draft_of (view value.now) }
{
    let Some(pair) = value.as_array() else {
        return None;
    };
    if pair.len() != 2 {
        return None;
    }
    contact_between(&pair[0], &pair[1])
}

/// The contact from one value to another: `None` if one of them is no whole number.
fn contact_between(begin: &Value, end: &Value) -> Option<ContactDraft>
    ensures { result ≡ contact_between (view begin.now) (view end.now) }
{
    let Some(begin) = begin.as_integer() else {
        return None;
    };
    match end.as_integer() {
        Some(end) => Some(ContactDraft { begin, end }),
        None => None,
    }
}

impl Item for NeighbourDraft {
    ghost use Rattle.rly_plan_syntax.specs.Draft.{peer_draft_of};

    ghost shape = { peer_draft_of };

    fn read(alloc: Global, value: &Value) -> Result<Option<NeighbourDraft>, AllocError> {
        match value.as_table() {
            Some(table) => read_neighbour(alloc, table),
            None => Ok(None),
        }
    }
}

impl Item for HopDraft {
    ghost use Rattle.rly_plan_syntax.specs.Draft.{hop_draft_of};

    ghost shape = { hop_draft_of };

    fn read(alloc: Global, value: &Value) -> Result<Option<HopDraft>, AllocError> {
        match value.as_table() {
            Some(table) => read_hop(alloc, table),
            None => Ok(None),
        }
    }
}

fn read_hop(alloc: Global, table: &Table) -> Result<Option<HopDraft>, AllocError>
    ensures { IfOk result (λ found. found ≡ hop_in (table_view table.now)) }
{
    let Some(neighbour) = read_neighbour(alloc, table)? else {
        return Ok(None);
    };
    match read_link(alloc, table)? {
        Some(link) => {
            let LinkDraft {
                resend,
                rate,
                lead,
                contacts,
            } = link;
            Ok(Some(HopDraft {
                neighbour,
                resend,
                rate,
                lead,
                contacts,
            }))
        }
        None => Ok(None),
    }
}

/// The fields of a `[[hop]]` table apart from its neighbour.
#[derive(Drop)]
struct LinkDraft {
    resend: i64,
    rate: Option<i64>,
    lead: i64,
    contacts: Vec<ContactDraft>,
}

fn read_link(alloc: Global, table: &Table) -> Result<Option<LinkDraft>, AllocError>
    ensures { IfOk result
        (λ found. option_map (λ l. link_text l.resend l.rate l.lead l.contacts.items) found
        ≡ link_in (table_view table.now)) }
{
    let Some(resend) = integer_or(table, "resend", DEFAULT_RESEND as i64) else {
        return Ok(None);
    };
    let Some(rate) = optional_integer(table, "rate") else {
        return Ok(None);
    };
    let Some(lead) = integer_or(table, "lead", 0) else {
        return Ok(None);
    };
    match read_items::<ContactDraft>(alloc, value_at(table, "contacts"))? {
        Some(contacts) => Ok(Some(LinkDraft {
            resend,
            rate,
            lead,
            contacts,
        })),
        None => Ok(None),
    }
}

impl Item for RouteDraft {
    ghost use Rattle.rly_plan_syntax.specs.Draft.{route_draft_of};

    ghost shape = { route_draft_of };

    fn read(_alloc: Global, value: &Value) -> Result<Option<RouteDraft>, AllocError> {
        match value.as_table() {
            Some(table) => Ok(read_route(table)),
            None => Ok(None),
        }
    }
}

impl PlanDraft {
    /// Pass 3: the draft that the document holds, or `None` if a key is missing or a value has another type.
    /// Unknown keys are ignored. `Err`: out of memory.
    pub fn read(alloc: Global, document: &Table) -> Result<Option<PlanDraft>, AllocError>
        ensures draft { IfOk result (λ found. found ≡ draft_of (table_view document.now)) }
        ensures memory { OnErr result (integer_at (codes "station") (table_view document.now) ≢ None) }
    {
        let Some(station) = integer(document, "station") else {
            return Ok(None);
        };
        let Some(peers) = read_items::<NeighbourDraft>(alloc, value_at(document, "peer"))? else {
            return Ok(None);
        };
        let Some(hops) = read_items::<HopDraft>(alloc, value_at(document, "hop"))? else {
            return Ok(None);
        };
        let Some(routes) = read_routes(alloc, value_at(document, "route"))? else {
            return Ok(None);
        };
        Ok(Some(PlanDraft {
            station,
            peers,
            hops,
            routes,
        }))
    }
}

/// The value at a key.
pub fn value_at<'a>(table: &'a Table, key: &str) -> Option<&'a Value>
    ensures value { option_map (λ v. view v.now) result ≡ get_member key.now (table_view table.now) }
{
    table.get(key)
}

/// The whole number at a key.
pub(crate) fn integer(table: &Table, key: &str) -> Option<i64>
    ensures { result ≡ integer_at key.now (table_view table.now) }
{
    match value_at(table, key) {
        Some(value) => value.as_integer(),
        None => None,
    }
}

/// The text at a key.
pub(crate) fn text<'a>(table: &'a Table, key: &str) -> Option<&'a str>
    ensures { option_copied result ≡ text_at key.now (table_view table.now) }
{
    match value_at(table, key) {
        Some(value) => value.as_str(),
        None => None,
    }
}

/// The whole number at an optional key: another one if the table omits it.
pub(crate) fn integer_or(table: &Table, key: &str, other: i64) -> Option<i64>
    ensures { result ≡ number_or other (get_member key.now (table_view table.now)) }
{
    match value_at(table, key) {
        Some(value) => value.as_integer(),
        None => Some(other),
    }
}

/// The whole number at an optional key.
pub(crate) fn optional_integer(table: &Table, key: &str) -> Option<Option<i64>>
    ensures { result ≡ optional_number (get_member key.now (table_view table.now)) }
{
    match value_at(table, key) {
        Some(value) => match value.as_integer() {
            Some(number) => Some(Some(number)),
            None => None,
        },
        None => Some(None),
    }
}

/// The text at an optional key.
pub(crate) fn optional_text<'a>(table: &'a Table, key: &str) -> Option<Option<&'a str>>
    ensures { option_map option_copied result ≡ optional_text (get_member key.now (table_view table.now)) }
{
    match value_at(table, key) {
        Some(value) => match value.as_str() {
            Some(text) => Some(Some(text)),
            None => None,
        },
        None => Some(None),
    }
}

fn read_neighbour(alloc: Global, table: &Table) -> Result<Option<NeighbourDraft>, AllocError>
    ensures { IfOk result (λ found. found ≡ neighbour_of (table_view table.now)) }
{
    let Some(id) = integer(table, "id") else {
        return Ok(None);
    };
    let Some(station) = integer(table, "station") else {
        return Ok(None);
    };
    match read_far_end(alloc, table)? {
        Some(far) => Ok(Some(NeighbourDraft { id, station, far })),
        None => Ok(None),
    }
}

/// The items of an array: `None` if the value is no array, or an item has another shape.
fn read_items<I: Item>(alloc: Global, found: Option<&Value>) -> Result<Option<Vec<I>>, AllocError>
    ensures { IfOk result
        (λ items. option_map (λ v. v.items) items ≡ items_at I.shape (option_map (λ v. view v.now) found.entry)) }
{
    let Some(value) = found else {
        return Ok(None);
    };
    match value.as_array() {
        Some(values) => read_each(alloc, values),
        None => Ok(None),
    }
}

fn read_each<I: Item>(alloc: Global, values: &Array) -> Result<Option<Vec<I>>, AllocError>
    ensures { IfOk result (λ items. option_map (λ v. v.items) items ≡ each_item I.shape (array_view values.now)) }
{
    let mut items = Vec::new(alloc);
    for value in values {
        let Some(item) = I::read(alloc, value)? else {
            return Ok(None);
        };
        items.push(item)?;
    }
    Ok(Some(items))
}

/// The routes (optional).
fn read_routes(alloc: Global, found: Option<&Value>) -> Result<Option<Vec<RouteDraft>>, AllocError>
    ensures { IfOk result
        (λ routes. option_map (λ v. v.items) routes ≡ routes_at (option_map (λ v. view v.now) found.entry)) }
{
    match found {
        Some(_) => read_items::<RouteDraft>(alloc, found),
        None => Ok(Some(Vec::new(alloc))),
    }
}
