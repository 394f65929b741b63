//! Locates the first fault in the numbers of a draft, pass by pass.

ghost use Rattle.std.specs.Prelude.{◌≡◌, ◌==◌, map};
ghost use Rattle.std.specs.List.{list_all, list_any};
ghost use Rattle.rly_plan.specs.KeyPaths.{far_range_fault, first_adjacent, first_contact, first_row};
ghost use Rattle.rly_plan.specs.KeyPaths.{folder_range_fault, lead_place, neighbour_range_fault, overlap_place};
ghost use Rattle.rly_plan.specs.KeyPaths.{range_place, repeat_place, rows_range_fault, sorted_place};
ghost use Rattle.rly_plan.specs.Passes.{all_adjacent, are_apart, contact_in_range};

use crate::passes::{
    contact_in_range, contact_of_draft, destination_in_range, destination_number, is_between,
    is_given_between, is_station, lead_in_range, number_16, rate_in_range, resend_in_range,
};
use rly_core::limits::{AGE_LIMIT, MAX_CONTACTS, MAX_HOPS, MAX_PEERS};
use rly_plan_syntax::{
    ContactDraft, FarEndDraft, FolderDraft, HopDraft, KeyPath, NeighbourDraft, PlanDraft, PlanKey,
    RouteDraft, Row, Spot,
};

/// The greatest `limit` of a peer's folder, in milliseconds.
pub const MAX_LIMIT: u64 = (AGE_LIMIT - 1) / 1_000;

/// The greatest `most` of a hop's folder, in files.
pub const MAX_FILES: u64 = 1_000_000;

/// The test that a pass applies to each table of an array.
trait Test<T> {
    ghost use Rattle.std.specs.Prelude.{◌≡◌, ℕ, Option};
    ghost use Rattle.rly_plan_syntax.specs.declared.key_path.Spot.{Spot};

    ghost fault: { Self → ℕ → T → Option Spot };

    /// Where the table of this number fails the test: `None` if it passes.
    fn fault(&self, number: u64, row: &T) -> Option<Spot>
        ensures { result ≡ fault self.now number row.now };
}

/// The first table of an array that fails a test, and where in it.
fn first_row<T, F: Test<T>>(test: &F, row: Row, rows: &[T]) -> Option<KeyPath>
    ensures { result ≡ first_row (F.fault test.now) row 1 rows.now }
{
    for (index, item) in rows.iter().enumerate() {
        let number = index as u64 + 1;
        if let Some(spot) = test.fault(number, item) {
            return Some(KeyPath::In(row, number, spot));
        }
    }
    None
}

/// Pass 4: each number is in its range.
#[derive(Drop)]
struct InRange;

/// Pass 5: no contact begins before the one before it begins.
#[derive(Drop)]
struct InOrder;

/// Pass 6: no contact begins before the one before it ends.
#[derive(Drop)]
struct Apart;

/// Pass 7: a route leads to one of `hops` hops.
#[derive(Drop)]
struct Leads {
    hops: u64,
}

impl Test<NeighbourDraft> for InRange {
    ghost use Rattle.rly_plan.specs.KeyPaths.{neighbour_range_fault};

    ghost fault = { λ _. neighbour_range_fault };

    fn fault(&self, number: u64, row: &NeighbourDraft) -> Option<Spot> {
        neighbour_range_fault(number, row)
    }
}

fn neighbour_range_fault(id: u64, neighbour: &NeighbourDraft) -> Option<Spot>
    ensures { result ≡ neighbour_range_fault id neighbour.now }
{
    if !is_between(neighbour.id, id, id) {
        return Some(Spot::At(PlanKey::Id));
    }
    if !is_station(neighbour.station) {
        return Some(Spot::At(PlanKey::Station));
    }
    far_range_fault(&neighbour.far)
}

fn far_range_fault(far: &FarEndDraft) -> Option<Spot>
    ensures { result ≡ far_range_fault far.now }
{
    match far {
        FarEndDraft::Socket(_) => None,
        FarEndDraft::Folder(folder) => folder_range_fault(folder),
    }
}

fn folder_range_fault(folder: &FolderDraft) -> Option<Spot>
    ensures { result ≡ folder_range_fault folder.now }
{
    if !is_given_between(folder.destination, 1, 65_535) {
        return Some(Spot::At(PlanKey::Destination));
    }
    if !is_given_between(folder.limit, 1, MAX_LIMIT) {
        return Some(Spot::At(PlanKey::Limit));
    }
    if !is_between(folder.most, 1, MAX_FILES) {
        return Some(Spot::At(PlanKey::Most));
    }
    None
}

impl Test<HopDraft> for InRange {
    ghost use Rattle.rly_plan.specs.KeyPaths.{hop_range_fault};

    ghost fault = { λ _. hop_range_fault };

    fn fault(&self, number: u64, row: &HopDraft) -> Option<Spot> {
        if let Some(spot) = neighbour_range_fault(number, &row.neighbour) {
            return Some(spot);
        }
        if !resend_in_range(row.resend) {
            return Some(Spot::At(PlanKey::Resend));
        }
        if !rate_in_range(row.rate) {
            return Some(Spot::At(PlanKey::Rate));
        }
        if !lead_in_range(row.lead) {
            return Some(Spot::At(PlanKey::Lead));
        }
        if row.contacts.len() as u64 > MAX_CONTACTS {
            return Some(Spot::At(PlanKey::Contacts));
        }
        first_contact(&row.contacts)
    }
}

/// The first contact with a number out of range.
fn first_contact(contacts: &[ContactDraft]) -> Option<Spot>
    ensures { result ≡ first_contact contact_in_range 1 contacts.now }
{
    for (index, contact) in contacts.iter().enumerate() {
        if !contact_in_range(contact) {
            return Some(Spot::Contact(index as u64 + 1));
        }
    }
    None
}

impl Test<RouteDraft> for InRange {
    ghost use Rattle.rly_plan.specs.KeyPaths.{route_range_fault};

    ghost fault = { λ _. route_range_fault };

    fn fault(&self, _number: u64, row: &RouteDraft) -> Option<Spot> {
        if !destination_in_range(row.destination) {
            return Some(Spot::At(PlanKey::Destination));
        }
        if !is_between(row.hop, 1, MAX_HOPS) {
            return Some(Spot::At(PlanKey::Hop));
        }
        None
    }
}

/// The test that a pass applies to two adjacent contacts.
trait Beside {
    ghost use Rattle.std.specs.Prelude.{◌≡◌, Bool};
    ghost use Rattle.rly_plan_syntax.specs.declared.draft.ContactDraft.{ContactDraft};

    ghost test: { ContactDraft → ContactDraft → Bool };

    /// Whether the contact may follow the other.
    fn passes(front: &ContactDraft, contact: &ContactDraft) -> bool
        ensures { result ≡ test front.now contact.now };
}

impl Beside for InOrder {
    ghost use Rattle.rly_plan.specs.Passes.{begin_in_order};

    ghost test = { begin_in_order };

    fn passes(front: &ContactDraft, contact: &ContactDraft) -> bool {
        contact_of_draft(front).begin <= contact_of_draft(contact).begin
    }
}

impl Beside for Apart {
    ghost use Rattle.rly_plan.specs.Passes.{are_apart};

    ghost test = { are_apart };

    fn passes(front: &ContactDraft, contact: &ContactDraft) -> bool {
        contact_of_draft(front).end <= contact_of_draft(contact).begin
    }
}

/// The first contact that may not follow the one before it.
fn first_adjacent<B: Beside>(contacts: &[ContactDraft]) -> Option<Spot>
    ensures { result ≡ first_adjacent B.test 1 contacts.now }
{
    for index in 1..contacts.len() {
        if !B::passes(&contacts[index - 1], &contacts[index]) {
            return Some(Spot::Contact(index as u64 + 1));
        }
    }
    None
}

impl Test<HopDraft> for InOrder {
    ghost use Rattle.rly_plan.specs.KeyPaths.{order_fault};

    ghost fault = { λ _. order_fault };

    fn fault(&self, _number: u64, row: &HopDraft) -> Option<Spot> {
        first_adjacent::<InOrder>(&row.contacts)
    }
}

impl Test<HopDraft> for Apart {
    ghost use Rattle.rly_plan.specs.KeyPaths.{apart_fault};

    ghost fault = { λ _. apart_fault };

    fn fault(&self, _number: u64, row: &HopDraft) -> Option<Spot> {
        first_adjacent::<Apart>(&row.contacts)
    }
}

impl Test<RouteDraft> for Leads {
    ghost use Rattle.rly_plan.specs.KeyPaths.{lead_fault};

    ghost fault = { λ leads. lead_fault leads.hops };

    fn fault(&self, _number: u64, row: &RouteDraft) -> Option<Spot> {
        if is_between(row.hop, 1, self.hops) {
            None
        } else {
            Some(Spot::At(PlanKey::Hop))
        }
    }
}

/// Where pass 4 has its first fault.
pub(crate) fn range_place(draft: &PlanDraft) -> Option<KeyPath>
    ensures { result ≡ range_place draft.now }
{
    if !is_station(draft.station) {
        return Some(KeyPath::Station);
    }
    let peers = rows_range_fault(&InRange, Row::Peer, MAX_PEERS, &draft.peers);
    let hops = rows_range_fault(&InRange, Row::Hop, MAX_HOPS, &draft.hops);
    let routes = first_row(&InRange, Row::Route, &draft.routes);
    peers.or(hops).or(routes)
}

/// Where pass 5 has its first fault.
pub(crate) fn sorted_place(draft: &PlanDraft) -> Option<KeyPath>
    ensures { result ≡ sorted_place draft.now }
{
    first_row(&InOrder, Row::Hop, &draft.hops)
}

/// Whether no contact begins before the one before it ends.
pub(crate) fn are_apart(draft: &PlanDraft) -> bool
    ensures { result ≡ list_all (λ h. all_adjacent are_apart h.contacts) draft.now.hops }
{
    first_row(&Apart, Row::Hop, &draft.hops).is_none()
}

/// Where pass 6 has its first fault.
pub(crate) fn overlap_place(draft: &PlanDraft) -> Option<KeyPath>
    ensures { result ≡ overlap_place draft.now }
{
    let contacts = first_row(&Apart, Row::Hop, &draft.hops);
    let peers = first_repeat(Row::Peer, PlanKey::Station, &draft.peers);
    let hops = first_repeat(Row::Hop, PlanKey::Station, &draft.hops);
    let routes = first_repeat(Row::Route, PlanKey::Destination, &draft.routes);
    contacts.or(peers).or(hops).or(routes)
}

/// Where pass 7 has its first fault.
pub(crate) fn lead_place(draft: &PlanDraft) -> Option<KeyPath>
    ensures { result ≡ lead_place draft.now }
{
    let test = Leads {
        hops: draft.hops.len() as u64,
    };
    first_row(&test, Row::Route, &draft.routes)
}

/// The first fault of an array of 1 to `most` tables.
fn rows_range_fault<T, F: Test<T>>(test: &F, row: Row, most: u64, rows: &[T]) -> Option<KeyPath>
    ensures { result ≡ rows_range_fault (F.fault test.now) row most rows.now }
{
    if rows.is_empty() || rows.len() as u64 > most {
        return Some(KeyPath::Array(row));
    }
    first_row(test, row, rows)
}

/// A table with a number that is unique in its array.
pub(crate) trait Numbered {
    ghost use Rattle.std.specs.Prelude.{◌≡◌, ℕ};

    ghost number: { Self → ℕ };

    /// The station or the destination.
    fn number(&self) -> u16
        ensures { result ≡ number self.now };
}

impl Numbered for NeighbourDraft {
    ghost use Rattle.rly_plan.specs.Numbers.{number_16};

    ghost number = { λ p. number_16 p.station };

    fn number(&self) -> u16 {
        number_16(self.station)
    }
}

impl Numbered for HopDraft {
    ghost use Rattle.rly_plan.specs.Numbers.{number_16};

    ghost number = { λ h. number_16 h.neighbour.station };

    fn number(&self) -> u16 {
        number_16(self.neighbour.station)
    }
}

impl Numbered for RouteDraft {
    ghost use Rattle.rly_plan.specs.Passes.{destination_number};

    ghost number = { λ r. destination_number r.destination };

    fn number(&self) -> u16 {
        destination_number(self.destination)
    }
}

/// The key of the first table whose number occurs again later. Takes no memory, and time that grows with the square
/// of the number of tables: it is called only if a number occurs twice.
fn first_repeat<N: Numbered>(row: Row, key: PlanKey, rows: &[N]) -> Option<KeyPath>
    ensures { result ≡ repeat_place row key (map N.number rows.now) }
{
    let mut rest = rows;
    while let Some((front, later)) = rest.split_first() {
        if is_there(front.number(), later) {
            let number = (rows.len() - later.len()) as u64;
            return Some(KeyPath::In(row, number, Spot::At(key)));
        }
        rest = later;
    }
    None
}

/// Whether a table has the number.
fn is_there<N: Numbered>(number: u16, rows: &[N]) -> bool
    ensures { result ≡ list_any (λ n. n == number) (map N.number rows.now) }
{
    for row in rows {
        if row.number() == number {
            return true;
        }
    }
    false
}
