ghost use Rattle.std.specs.Prelude.{◌≡◌, ◌≢◌, ◌↔◌, Err, IfErr, IfNone, IfOk, IfSome, map, None, Ok, option_copied};
ghost use Rattle.std.specs.Prelude.{Some, true};
ghost use Rattle.toml.specs.Errors.{IsMemory, IsWithin};
ghost use Rattle.rly_plan.specs.KeyPaths.{IsFaultPlace, place_of_draft};
ghost use Rattle.std.specs.List.{list_all};
ghost use Rattle.rly_plan.specs.ContactPlan.{at_number, sleep_of};
ghost use Rattle.rly_plan.specs.Passes.{all_adjacent, are_apart, contact_from, contact_in_range, hop_from};
ghost use Rattle.rly_plan.specs.Passes.{neighbour_from, plan_from, plan_of_draft, route_from};

use crate::contacts::Contacts;
use crate::far_end::far_end_of_draft;
use crate::neighbour::Neighbour;
use crate::number_paths::{lead_place, overlap_place, range_place, sorted_place};
use crate::passes::{
    contact_of_draft, is_in_range, is_sorted, leads_to_hops, number_16, number_32, overlaps,
};
use crate::plan_fault::PlanFault;
use crate::route::{Route, destination_in, route_of_draft};
use rly_core::limits::{DEFAULT_RESEND, MOMENT_LIMIT};
use rly_core::{HopId, PeerId, Refusal};
use rly_plan_syntax::{
    ContactDraft, HopDraft, KeyPath, NeighbourDraft, PlanDraft, RouteDraft, keys_are_known,
    missing_place, position_after, unknown_place,
};
use std::alloc::{AllocError, Global};
use std::marker::Model;
use toml::de::Error;

/// A next hop: the neighbour, its retransmission timeout, its rate, and the contacts of its link, with their lead.
#[derive(Drop)]
pub struct NextHop {
    /// The neighbour that the hop leads to.
    pub neighbour: Neighbour,
    /// Minimum retransmission timeout, in milliseconds.
    pub resend: u32,
    /// Maximum rate in bytes a second, 1 to 10^9; `None`: unlimited.
    pub rate: Option<u32>,
    /// How long before an opening it is announced, in seconds, up to 86,400.
    pub lead: u32,
    /// The times in which the link is open.
    pub(crate) contacts: Contacts,
}

impl NextHop {
    ghost use Rattle.std.specs.Prelude.{◌≡◌, ◌<◌, IfSome, length};
    ghost use Rattle.rly_plan.specs.Changes.{change_after};
    ghost use Rattle.rly_plan.specs.LinkClock.{lies_in_any, open_moments};

    /// The number of contacts of its link.
    pub fn contact_count(&self) -> usize
        ensures { result ≡ length self.now.contacts }
    {
        self.contacts.len()
    }

    /// Whether its link is open at a moment.
    pub fn is_open(&self, moment: u64) -> bool
        ensures { result ≡ lies_in_any self.now.contacts moment }
    {
        self.contacts.is_open(moment)
    }

    /// The first moment after this one at which its link opens or closes: `None` after the last.
    pub fn next_change(&self, moment: u64) -> Option<u64>
        ensures change { result ≡ change_after self.now.contacts moment }
        ensures bounded { IfSome result (λ change. change < MOMENT_LIMIT) }
    {
        self.contacts.next_change(moment)
    }

    /// The open time of its link in all contacts, in microseconds.
    pub fn open_time(&self) -> u64
        ensures { result ≡ open_moments self.now.contacts MOMENT_LIMIT }
    {
        self.contacts.link(MOMENT_LIMIT)
    }
}

/// A contact plan: this station, its neighbours on both sides, the contacts of each next hop's link, and the
/// routes.
#[derive(Drop)]
pub struct Plan {
    station: u16,
    peers: Vec<Neighbour>,
    hops: Vec<NextHop>,
    routes: Vec<Route>,
}

impl Model for Plan {
    ghost use Rattle.rly_plan.specs.ContactPlan.{ContactPlan};

    ghost Value = { ContactPlan };

    ghost view = { λ p.
        record { station = p.station; peers = p.peers.items; hops = p.hops.items; routes = p.routes.items } };
}

impl Plan {
    ghost use Rattle.std.specs.Prelude.{◌≡◌, ◌≢◌, ◌<◌, length, IfErr, IfOk, IfSome, None, Ok, Err, option_copied};
    ghost use Rattle.rly_plan.specs.ContactPlan.{hop_for, is_open, leads_to, link, next_change, next_hop_at, open_time};
    ghost use Rattle.rly_plan.specs.ContactPlan.{own_route, peer_at, rest, rest_for};
    ghost use Rattle.rly_plan.specs.ContactPlan.{edge_wait, lead, rate, resend};
    ghost use Rattle.rly_plan.specs.Passes.{plan_of_text};
    ghost use Rattle.rly_plan.specs.KeyPaths.{IsPlaceOf};
    ghost use Rattle.toml.specs.Errors.{IsBlank};

    /// Parses and checks a plan (`docs/FORMATS.md`, "The plan"), or returns the first fault of its passes: 50 to
    /// 54. Returns 14 only if memory was refused, and never for a text of only white space and comments.
    pub fn from_toml(alloc: Global, text: &str) -> Result<Plan, Refusal>
        ensures plan { IfOk result (λ plan. plan_of_text text.now ≡ Ok plan) }
        ensures fault { IfErr result (λ fault. fault ≢ Refusal.OutOfMemory → plan_of_text text.now ≡ Err fault) }
        ensures memory { IfErr result (λ fault. fault ≡ Refusal.OutOfMemory → ¬ IsBlank text.now) }
    {
        match Plan::read(alloc, text) {
            Ok(plan) => Ok(plan),
            Err(fault) => Err(fault.refusal),
        }
    }

    /// The same as `from_toml`, with the location of the first fault.
    #[tactic(auto, unfolding(crate::specs::Passes::plan_of_text, crate::specs::KeyPaths::IsPlaceOf))]
    pub fn read(alloc: Global, text: &str) -> Result<Plan, PlanFault>
        ensures plan { IfOk result (λ plan. plan_of_text text.now ≡ Ok plan) }
        ensures fault { IfErr result
            (λ fault. fault.refusal ≢ Refusal.OutOfMemory → plan_of_text text.now ≡ Err fault.refusal) }
        ensures memory { IfErr result
            (λ fault. fault.refusal ≡ Refusal.OutOfMemory → (fault.place ≡ None) × (¬ IsBlank text.now)) }
        ensures place { IfErr result (λ fault. fault.refusal ≢ Refusal.OutOfMemory → IsPlaceOf text.now fault.place) }
    {
        let document = match toml::table_from_str(alloc, text) {
            Ok(document) => document,
            Err(error) => return Err(fault_of_text(text, &error)),
        };
        if !keys_are_known(&document) {
            return Err(PlanFault::at(Refusal::Unknown, unknown_place(&document)));
        }
        let draft = match PlanDraft::read(alloc, &document) {
            Ok(Some(draft)) => draft,
            Ok(None) => return Err(PlanFault::at(Refusal::Syntax, missing_place(&document))),
            Err(_) => return Err(PlanFault::memory()),
        };
        checked_plan(alloc, draft)
    }

    /// This station's number, 1 to 65,535.
    pub fn station(&self) -> u16
        ensures { result ≡ self.now.station }
    {
        self.station
    }

    /// The number of upstream neighbours: their ids are 1, 2, 3, ..
    pub fn peer_count(&self) -> usize
        ensures { result ≡ length self.now.peers }
    {
        self.peers.len()
    }

    /// The number of next hops: their ids are 1, 2, 3, ..
    pub fn hop_count(&self) -> usize
        ensures { result ≡ length self.now.hops }
    {
        self.hops.len()
    }

    /// The upstream neighbours, in the order of their ids.
    pub fn peers(&self) -> &[Neighbour]
        ensures { result.now ≡ self.now.peers }
    {
        &self.peers
    }

    /// The next hops, in the order of their ids.
    pub fn hops(&self) -> &[NextHop]
        ensures { result.now ≡ self.now.hops }
    {
        &self.hops
    }

    /// The routes, in the order of the file.
    pub fn routes(&self) -> &[Route]
        ensures { result.now ≡ self.now.routes }
    {
        &self.routes
    }

    /// The upstream neighbour of this id.
    pub fn peer(&self, peer: PeerId) -> Option<&Neighbour>
        ensures { option_copied result ≡ peer_at self.now peer }
    {
        at_number(&self.peers, peer.0)
    }

    /// The neighbour that the hop of this id leads to.
    pub fn hop(&self, hop: HopId) -> Option<&Neighbour>
        ensures { option_copied result ≡ next_hop_at self.now hop }
    {
        match at_number(&self.hops, hop.0) {
            Some(hop) => Some(&hop.neighbour),
            None => None,
        }
    }

    /// The minimum retransmission timeout of a hop, in milliseconds: 10 to 3,600,000. The default for a hop that
    /// doesn't exist.
    pub fn resend(&self, hop: HopId) -> u32
        ensures { result ≡ resend self.now hop }
    {
        match at_number(&self.hops, hop.0) {
            Some(hop) => hop.resend,
            None => DEFAULT_RESEND as u32,
        }
    }

    /// The rate limit of a hop in bytes a second, 1 to 10^9: `None` if it has none or doesn't exist.
    pub fn rate(&self, hop: HopId) -> Option<u32>
        ensures { result ≡ rate self.now hop }
    {
        match at_number(&self.hops, hop.0) {
            Some(hop) => hop.rate,
            None => None,
        }
    }

    /// How long before an opening of a hop's link it is announced, in seconds, up to 86,400: 0 if it isn't, and for a hop
    /// that doesn't exist.
    pub fn lead(&self, hop: HopId) -> u32
        ensures { result ≡ lead self.now hop }
    {
        match at_number(&self.hops, hop.0) {
            Some(hop) => hop.lead,
            None => 0,
        }
    }

    /// The next hop of a payload that the station of a peer gives: that of its destination's own route, or else that of
    /// the rest, unless it leads back to that station.
    pub fn hop_for(&self, station: u16, payload: &[u8]) -> Option<HopId>
        ensures { result ≡ hop_for self.now station payload.now }
    {
        if let Some(destination) = destination_in(payload) {
            if let Some(hop) = self.own_route(destination) {
                return Some(hop);
            }
        }
        self.rest_for(station)
    }

    /// The hop of the rest for what the station of a peer gives: `None` if the plan has no rest, or its hop leads back to
    /// that station.
    pub fn rest_for(&self, station: u16) -> Option<HopId>
        ensures { result ≡ rest_for self.now station }
    {
        match self.rest() {
            Some(hop) if self.leads_to(station, hop) => None,
            rest => rest,
        }
    }

    /// The hop of the rest, if the plan has one.
    pub fn rest(&self) -> Option<HopId>
        ensures { result ≡ rest self.now }
    {
        for route in &self.routes {
            if route.destination.is_rest() {
                return Some(route.hop);
            }
        }
        None
    }

    /// The hop of a destination's own route.
    fn own_route(&self, destination: u16) -> Option<HopId>
        ensures { result ≡ own_route self.now destination }
    {
        for route in &self.routes {
            if route.destination.is_for(destination) {
                return Some(route.hop);
            }
        }
        None
    }

    /// Whether a hop leads to a station.
    fn leads_to(&self, station: u16, hop: HopId) -> bool
        ensures { result ≡ leads_to self.now station hop }
    {
        match self.hop(hop) {
            Some(neighbour) => neighbour.station == station,
            None => false,
        }
    }

    /// Whether the link of a hop is open at a moment: false for a hop that doesn't exist.
    pub fn is_open(&self, hop: HopId, moment: u64) -> bool
        ensures { result ≡ is_open self.now hop moment }
    {
        match at_number(&self.hops, hop.0) {
            Some(hop) => hop.contacts.is_open(moment),
            None => false,
        }
    }

    /// The link clock of a hop, in microseconds: the number of moments before this one at which its link was open.
    /// 0 for a hop that doesn't exist.
    pub fn link(&self, hop: HopId, moment: u64) -> u64
        ensures { result ≡ link self.now hop moment }
    {
        match at_number(&self.hops, hop.0) {
            Some(hop) => hop.contacts.link(moment),
            None => 0,
        }
    }

    /// The first moment after this one at which the link of a hop opens or closes: `None` after the last, and for a
    /// hop that doesn't exist.
    pub fn next_change(&self, hop: HopId, moment: u64) -> Option<u64>
        ensures change { result ≡ next_change self.now hop moment }
        ensures bounded { IfSome result (λ change. change < MOMENT_LIMIT) }
    {
        match at_number(&self.hops, hop.0) {
            Some(hop) => hop.next_change(moment),
            None => None,
        }
    }

    /// How many microseconds may be slept at this moment of the wall clock before it is looked at again for the next
    /// change of a hop's link: all that is left until it if that is 100 ms at most, else half of it, so that a clock
    /// that is slewed is followed. `None` if there is no change.
    pub fn edge_wait(&self, hop: HopId, now: u64) -> Option<u64>
        ensures { result ≡ edge_wait self.now hop now }
    {
        let change = self.next_change(hop, now)?;
        Some(sleep_of(change.saturating_sub(now)))
    }

    /// The open time of a hop's link in all its contacts, in microseconds: 0 for a hop that doesn't exist.
    pub fn open_time(&self, hop: HopId) -> u64
        ensures { result ≡ open_time self.now hop }
    {
        self.link(hop, MOMENT_LIMIT)
    }
}

/// The longest time until a change of a link that is slept whole, in microseconds.
const WHOLE_SLEEP: u64 = 100_000;

/// How much of a time that is left on the wall clock may be slept.
fn sleep_of(left: u64) -> u64
    ensures { result ≡ sleep_of left }
{
    if left <= WHOLE_SLEEP { left } else { left / 2 }
}

/// The element of this number, counting from 1.
fn at_number<T>(items: &[T], number: u16) -> Option<&T>
    ensures { option_copied result ≡ at_number items.now number }
{
    match number {
        0 => None,
        _ => items.get(number as usize - 1),
    }
}

/// The fault of a text that TOML refuses, and its position.
fn fault_of_text(text: &str, error: &Error) -> PlanFault
    requires { IsWithin text.now error.now }
    ensures memory { (result.refusal ≡ Refusal.OutOfMemory) ↔ IsMemory error.now }
    ensures syntax { result.refusal ≢ Refusal.OutOfMemory → result.refusal ≡ Refusal.Syntax }
    ensures none { result.refusal ≡ Refusal.OutOfMemory → result.place ≡ None }
    ensures place { result.refusal ≢ Refusal.OutOfMemory → IsFaultPlace text.now None result.place }
{
    match error.span() {
        Some(span) => {
            let position = position_after(text, span.start);
            PlanFault::at(Refusal::Syntax, Some(KeyPath::Text(position)))
        }
        None => PlanFault::memory(),
    }
}

/// The plan of a draft, or the first fault of the passes over its numbers.
fn checked_plan(alloc: Global, draft: PlanDraft) -> Result<Plan, PlanFault>
    ensures plan { IfOk result (λ plan. plan_of_draft (Some draft) ≡ Ok plan) }
    ensures fault { IfErr result
        (λ fault. fault.refusal ≢ Refusal.OutOfMemory → plan_of_draft (Some draft) ≡ Err fault.refusal) }
    ensures memory { IfErr result (λ fault. fault.refusal ≡ Refusal.OutOfMemory → fault.place ≡ None) }
    ensures place { IfErr result (λ fault. fault.refusal ≢ Refusal.OutOfMemory → fault.place ≡ place_of_draft draft) }
{
    match first_fault(alloc, &draft) {
        Some(fault) => Err(fault),
        None => match plan_of_valid_draft(alloc, draft) {
            Ok(plan) => Ok(plan),
            Err(_) => Err(PlanFault::memory()),
        },
    }
}

/// The first fault of the passes over a draft's numbers.
fn first_fault(alloc: Global, draft: &PlanDraft) -> Option<PlanFault>
    ensures plan { IfNone result (plan_of_draft (Some draft.now) ≡ Ok (plan_from draft.now)) }
    ensures fault { IfSome result
        (λ fault. fault.refusal ≢ Refusal.OutOfMemory → plan_of_draft (Some draft.now) ≡ Err fault.refusal) }
    ensures memory { IfSome result (λ fault. fault.refusal ≡ Refusal.OutOfMemory → fault.place ≡ None) }
    ensures place { IfSome result
        (λ fault. fault.refusal ≢ Refusal.OutOfMemory → fault.place ≡ place_of_draft draft.now) }
{
    if !is_in_range(draft) {
        return Some(PlanFault::at(Refusal::Range, range_place(draft)));
    }
    if !is_sorted(draft) {
        return Some(PlanFault::at(Refusal::Unsorted, sorted_place(draft)));
    }
    match overlaps(alloc, draft) {
        Ok(true) => return Some(PlanFault::at(Refusal::Overlap, overlap_place(draft))),
        Ok(false) => (),
        Err(_) => return Some(PlanFault::memory()),
    }
    if !leads_to_hops(draft) {
        return Some(PlanFault::at(Refusal::Unknown, lead_place(draft)));
    }
    None
}

/// The plan of a draft whose numbers are in range and whose contacts don't overlap.
fn plan_of_valid_draft(alloc: Global, draft: PlanDraft) -> Result<Plan, AllocError>
    requires ranged { list_all (λ h. list_all contact_in_range h.contacts) draft.hops ≡ true }
    requires apart { list_all (λ h. all_adjacent are_apart h.contacts) draft.hops ≡ true }
    ensures { IfOk result (λ plan. plan ≡ plan_from draft) }
{
    let PlanDraft {
        station,
        peers,
        hops,
        routes,
    } = draft;
    Ok(Plan {
        station: number_16(station),
        peers: peers_of_draft(alloc, peers)?,
        hops: hops_of_draft(alloc, hops)?,
        routes: routes_of_draft(alloc, &routes)?,
    })
}

fn peers_of_draft(alloc: Global, drafts: Vec<NeighbourDraft>) -> Result<Vec<Neighbour>, AllocError>
    ensures { IfOk result (λ peers. peers.items ≡ map neighbour_from drafts.items) }
{
    drafts
        .into_iter()
        .map(|draft| neighbour_of_draft(draft))
        .collect(alloc)
}

fn neighbour_of_draft(draft: NeighbourDraft) -> Neighbour
    ensures { result ≡ neighbour_from draft }
{
    let NeighbourDraft {
        id: _,
        station,
        far,
    } = draft;
    Neighbour {
        station: number_16(station),
        far: far_end_of_draft(far),
    }
}

fn routes_of_draft(alloc: Global, drafts: &[RouteDraft]) -> Result<Vec<Route>, AllocError>
    ensures { IfOk result (λ routes. routes.items ≡ map route_from drafts.now) }
{
    drafts
        .iter()
        .map(|draft| route_of_draft(*draft))
        .collect(alloc)
}

fn hops_of_draft(alloc: Global, drafts: Vec<HopDraft>) -> Result<Vec<NextHop>, AllocError>
    requires ranged { list_all (λ h. list_all contact_in_range h.contacts) drafts.items ≡ true }
    requires apart { list_all (λ h. all_adjacent are_apart h.contacts) drafts.items ≡ true }
    ensures { IfOk result (λ hops. hops.items ≡ map hop_from drafts.items) }
{
    let mut hops = Vec::new(alloc);
    for draft in drafts {
        hops.push(hop_of_draft(alloc, draft)?)?;
    }
    Ok(hops)
}

fn hop_of_draft(alloc: Global, draft: HopDraft) -> Result<NextHop, AllocError>
    requires ranged { list_all contact_in_range draft.contacts ≡ true }
    requires apart { all_adjacent are_apart draft.contacts ≡ true }
    ensures { IfOk result (λ hop. hop ≡ hop_from draft) }
{
    let HopDraft {
        neighbour,
        resend,
        rate,
        lead,
        contacts,
    } = draft;
    Ok(NextHop {
        neighbour: neighbour_of_draft(neighbour),
        resend: number_32(resend),
        rate: rate.map(number_32),
        lead: number_32(lead),
        contacts: contacts_of_draft(alloc, &contacts)?,
    })
}

fn contacts_of_draft(alloc: Global, drafts: &[ContactDraft]) -> Result<Contacts, AllocError>
    requires ranged { list_all contact_in_range drafts.now ≡ true }
    requires apart { all_adjacent are_apart drafts.now ≡ true }
    ensures { IfOk result (λ contacts. contacts ≡ map contact_from drafts.now) }
{
    let mut contacts = Contacts::new(alloc);
    for draft in drafts {
        contacts.push(contact_of_draft(draft))?;
    }
    Ok(contacts)
}
