//! Locates the first fault of a document in passes 2 and 3 (its keys, and the types of its
//! values).

ghost use Rattle.std.specs.Prelude.{◌≡◌, option_map};
ghost use Rattle.toml.specs.View.{array_view, table_view, view};
ghost use Rattle.rly_plan_syntax.specs.DocumentPaths.{contacts_lack, first_item, first_no_contact, folder_lacks};
ghost use Rattle.rly_plan_syntax.specs.DocumentPaths.{hop_lacks, missing_place, neighbour_lacks, route_lacks};
ghost use Rattle.rly_plan_syntax.specs.DocumentPaths.{routes_lack, row_unknown, rows_lack, rows_unknown};
ghost use Rattle.rly_plan_syntax.specs.DocumentPaths.{socket_lacks, spot_named, table_lacks, unknown_place};
ghost use Rattle.rly_plan_syntax.specs.DocumentPaths.{value_unknown};

use crate::draft::{integer, optional_integer, optional_text, read_contact, text, value_at};
use crate::far_end::has_folder;
use crate::key_path::{KeyPath, PlanKey, Row, Spot};
use crate::keys::has_no_key;
use crate::route::read_destination;
use toml::value::Array;
use toml::{Table, Value};

/// The test that a pass applies to each item of an array of tables.
trait Test {
    ghost use Rattle.std.specs.Prelude.{◌≡◌, Option};
    ghost use Rattle.toml.specs.Data.{Data};
    ghost use Rattle.toml.specs.View.{view};
    ghost use Rattle.rly_plan_syntax.specs.declared.key_path.Row.{Row as ARow};
    ghost use Rattle.rly_plan_syntax.specs.declared.key_path.Spot.{Spot as ASpot};

    ghost fault: { ARow → Data → Option ASpot };

    /// Where an item fails the test: `None` if it passes.
    fn fault(row: Row, item: &Value) -> Option<Spot>
        ensures { result ≡ fault row (view item.now) };
}

/// The first item of an array that fails a test, and where in it.
fn first_item<F: Test>(row: Row, items: &Array) -> Option<KeyPath>
    ensures { result ≡ first_item (F.fault row) row 1 (array_view items.now) }
{
    for (index, item) in items.iter().enumerate() {
        if let Some(spot) = F::fault(row, item) {
            return Some(KeyPath::In(row, index as u64 + 1, spot));
        }
    }
    None
}

/// Pass 2: each key is known.
struct Known;

/// Pass 3: each key is present, with a value of its type.
struct Given;

impl Test for Known {
    ghost use Rattle.rly_plan_syntax.specs.DocumentPaths.{item_unknown};

    ghost fault = { item_unknown };

    fn fault(row: Row, item: &Value) -> Option<Spot> {
        match item {
            Value::Table(table) => row_unknown(row, has_folder(table), table),
            _ if has_no_key(item) => None,
            _ => Some(Spot::Whole),
        }
    }
}

/// The first key of a table that is unknown, or has a key in its value.
fn row_unknown(row: Row, folder: bool, table: &Table) -> Option<Spot>
    ensures { result ≡ row_unknown row folder (table_view table.now) }
{
    for (key, value) in table {
        if !(row.has_key(folder, key.as_str()) && has_no_key(value)) {
            return Some(spot_named(key.as_str()));
        }
    }
    None
}

/// The spot of a key: the whole table if no table of a plan has such a key.
fn spot_named(name: &str) -> Spot
    ensures { result ≡ spot_named name.now }
{
    match name {
        "id" => Spot::At(PlanKey::Id),
        "station" => Spot::At(PlanKey::Station),
        "listen" => Spot::At(PlanKey::Listen),
        "remote" => Spot::At(PlanKey::Remote),
        "key" => Spot::At(PlanKey::Key),
        "resend" => Spot::At(PlanKey::Resend),
        "rate" => Spot::At(PlanKey::Rate),
        "lead" => Spot::At(PlanKey::Lead),
        "contacts" => Spot::At(PlanKey::Contacts),
        "destination" => Spot::At(PlanKey::Destination),
        "hop" => Spot::At(PlanKey::Hop),
        "folder" => Spot::At(PlanKey::Folder),
        "limit" => Spot::At(PlanKey::Limit),
        "most" => Spot::At(PlanKey::Most),
        _ => Spot::Whole,
    }
}

/// Where pass 2 has its first fault. A table yields its keys in the order of their bytes, not of the text.
pub fn unknown_place(document: &Table) -> Option<KeyPath>
    ensures place { result ≡ unknown_place (table_view document.now) }
{
    for (key, value) in document {
        if let Some(place) = value_unknown(key.as_str(), value) {
            return Some(place);
        }
    }
    None
}

fn value_unknown(name: &str, value: &Value) -> Option<KeyPath>
    ensures { result ≡ value_unknown name.now (view value.now) }
{
    match name {
        "station" if has_no_key(value) => None,
        "station" => Some(KeyPath::Station),
        "peer" => rows_unknown(Row::Peer, value),
        "hop" => rows_unknown(Row::Hop, value),
        "route" => rows_unknown(Row::Route, value),
        _ => Some(KeyPath::Plan),
    }
}

fn rows_unknown(row: Row, value: &Value) -> Option<KeyPath>
    ensures { result ≡ rows_unknown row (view value.now) }
{
    match value {
        Value::Array(items) => first_item::<Known>(row, items),
        _ if has_no_key(value) => None,
        _ => Some(KeyPath::Array(row)),
    }
}

impl Test for Given {
    ghost use Rattle.rly_plan_syntax.specs.DocumentPaths.{item_lacks};

    ghost fault = { item_lacks };

    fn fault(row: Row, item: &Value) -> Option<Spot> {
        match item {
            Value::Table(table) => table_lacks(row, table),
            _ => Some(Spot::Whole),
        }
    }
}

fn table_lacks(row: Row, table: &Table) -> Option<Spot>
    ensures { result ≡ table_lacks row (table_view table.now) }
{
    match row {
        Row::Peer => neighbour_lacks(table),
        Row::Hop => hop_lacks(table),
        Row::Route => route_lacks(table),
    }
}

fn neighbour_lacks(table: &Table) -> Option<Spot>
    ensures { result ≡ neighbour_lacks (table_view table.now) }
{
    if integer(table, "id").is_none() {
        return Some(Spot::At(PlanKey::Id));
    }
    if integer(table, "station").is_none() {
        return Some(Spot::At(PlanKey::Station));
    }
    if has_folder(table) {
        folder_lacks(table)
    } else {
        socket_lacks(table)
    }
}

fn socket_lacks(table: &Table) -> Option<Spot>
    ensures { result ≡ socket_lacks (table_view table.now) }
{
    if text(table, "listen").is_none() {
        return Some(Spot::At(PlanKey::Listen));
    }
    if text(table, "remote").is_none() {
        return Some(Spot::At(PlanKey::Remote));
    }
    if optional_text(table, "key").is_none() {
        return Some(Spot::At(PlanKey::Key));
    }
    None
}

fn folder_lacks(table: &Table) -> Option<Spot>
    ensures { result ≡ folder_lacks (table_view table.now) }
{
    if text(table, "folder").is_none() {
        return Some(Spot::At(PlanKey::Folder));
    }
    if optional_integer(table, "destination").is_none() {
        return Some(Spot::At(PlanKey::Destination));
    }
    if optional_integer(table, "limit").is_none() {
        return Some(Spot::At(PlanKey::Limit));
    }
    if optional_integer(table, "most").is_none() {
        return Some(Spot::At(PlanKey::Most));
    }
    None
}

fn hop_lacks(table: &Table) -> Option<Spot>
    ensures { result ≡ hop_lacks (table_view table.now) }
{
    if let Some(spot) = neighbour_lacks(table) {
        return Some(spot);
    }
    if optional_integer(table, "resend").is_none() {
        return Some(Spot::At(PlanKey::Resend));
    }
    if optional_integer(table, "rate").is_none() {
        return Some(Spot::At(PlanKey::Rate));
    }
    if optional_integer(table, "lead").is_none() {
        return Some(Spot::At(PlanKey::Lead));
    }
    contacts_lack(value_at(table, "contacts"))
}

fn route_lacks(table: &Table) -> Option<Spot>
    ensures { result ≡ route_lacks (table_view table.now) }
{
    if read_destination(table).is_none() {
        return Some(Spot::At(PlanKey::Destination));
    }
    if integer(table, "hop").is_none() {
        return Some(Spot::At(PlanKey::Hop));
    }
    None
}

fn contacts_lack(found: Option<&Value>) -> Option<Spot>
    ensures { result ≡ contacts_lack (option_map (λ v. view v.now) found.entry) }
{
    match found {
        Some(Value::Array(items)) => first_no_contact(items),
        _ => Some(Spot::At(PlanKey::Contacts)),
    }
}

/// The first item that isn't two whole numbers.
fn first_no_contact(items: &Array) -> Option<Spot>
    ensures { result ≡ first_no_contact 1 (array_view items.now) }
{
    for (index, item) in items.iter().enumerate() {
        if read_contact(item).is_none() {
            return Some(Spot::Contact(index as u64 + 1));
        }
    }
    None
}

/// Where pass 3 has its first fault. Takes no memory. Called for a document from which `PlanDraft::read` returned
/// no draft.
pub fn missing_place(document: &Table) -> Option<KeyPath>
    ensures place { result ≡ missing_place (table_view document.now) }
{
    if integer(document, "station").is_none() {
        return Some(KeyPath::Station);
    }
    let peers = rows_lack(Row::Peer, value_at(document, "peer"));
    let hops = rows_lack(Row::Hop, value_at(document, "hop"));
    let routes = routes_lack(value_at(document, "route"));
    peers.or(hops).or(routes)
}

fn rows_lack(row: Row, found: Option<&Value>) -> Option<KeyPath>
    ensures { result ≡ rows_lack row (option_map (λ v. view v.now) found.entry) }
{
    match found {
        Some(Value::Array(items)) => first_item::<Given>(row, items),
        _ => Some(KeyPath::Array(row)),
    }
}

fn routes_lack(found: Option<&Value>) -> Option<KeyPath>
    ensures { result ≡ routes_lack (option_map (λ v. view v.now) found.entry) }
{
    match found {
        Some(_) => rows_lack(Row::Route, found),
        None => None,
    }
}
