//! What is said of a plan's first fault: what is there, and what to write.

ghost use Rattle.std.specs.Prelude.{◌≡◌, ◌++◌, ◌-◌, IfOk, OnOk, option_and_then, option_map, string_bytes};
ghost use Rattle.std.specs.List.{list_all};
ghost use Rattle.toml.specs.Data.{as_array, at, get_member};
ghost use Rattle.toml.specs.View.{array_view, table_view, view};
ghost use Rattle.rly_plan_syntax.specs.PathText.{row_text};
ghost use Rattle.rly_plan_show.specs.PlanAdvice.{array_wanted, before_text, contact_advice, contact_there, count_of};
ghost use Rattle.rly_plan_show.specs.PlanAdvice.{destination_unit, is_bare, is_conflict, is_known, is_plain, item_advice};
ghost use Rattle.rly_plan_show.specs.PlanAdvice.{key_advice, key_wanted, keys_text, limits_text, number_there};
ghost use Rattle.rly_plan_show.specs.PlanAdvice.{order_advice, place_advice, plain_text, plan_advice, spot_advice};
ghost use Rattle.rly_plan_show.specs.PlanAdvice.{stranger, string_text, twin, twin_place, unknown_text, value_text};
ghost use Rattle.rly_plan_show.specs.PlanAdvice.{whole_advice};

use rly_core::Refusal;
use rly_core::limits::{MAX_CONTACTS, MAX_HOPS, MAX_PEERS, MAX_RESEND, MIN_RESEND, MOMENT_LIMIT};
use rly_plan::{KeyPath, MAX_FILES, MAX_LEAD, MAX_LIMIT, MAX_RATE, PlanKey, Row, Spot};
use rly_plan_syntax::{read_contact, value_at};
use std::alloc::{AllocError, Global};
use toml::value::Array;
use toml::{Table, Value};

/// The greatest number of a station.
const MAX_STATION: u64 = 65_535;

/// The greatest length of a key's name that is printed.
const MAX_NAME: usize = 64;

/// What is said of a fault of a plan's text, at the location where `Plan::read` found it: what is there, and what to
/// write. It follows the location on a line. `Err`: out of memory.
#[tactic(auto, unfolding(crate::specs::PlanAdvice::plan_advice))]
pub fn plan_advice_of(
    alloc: Global,
    text: &str,
    refusal: Refusal,
    place: KeyPath,
) -> Result<String, AllocError>
    ensures advice { IfOk result (λ told. string_bytes told ≡ plan_advice text.now refusal place) }
{
    let document = match toml::table_from_str(alloc, text) {
        Ok(document) => document,
        Err(error) => {
            return match error.span() {
                Some(_) => String::from_str(alloc, "not TOML from here on"),
                None => Err(AllocError),
            };
        }
    };
    let mut told = String::new(alloc);
    write_place(&mut told, refusal, &document, place)?;
    Ok(told)
}

/// Appends what is said of a location.
fn write_place(
    told: &mut String,
    refusal: Refusal,
    document: &Table,
    place: KeyPath,
) -> Result<(), AllocError>
    ensures { OnOk result (string_bytes told.new
        ≡ string_bytes told.old ++ place_advice refusal (table_view document.now) place) }
{
    match place {
        KeyPath::Text(_) => told.push_str("not TOML from here on"),
        KeyPath::Plan => write_unknown(
            told,
            keys_text(None, false),
            stranger(None, false, document),
        ),
        KeyPath::Station => {
            write_value(told, value_at(document, "station"))?;
            write_limits(told, 1, MAX_STATION, "")
        }
        KeyPath::Array(row) => {
            write_value(told, value_at(document, row.text()))?;
            write_array(told, row)
        }
        KeyPath::In(row, number, spot) => {
            let item = table_there(document, row, number);
            write_item(told, refusal, document, row, number, spot, item)
        }
    }
}

/// The table of a number in an array.
fn table_there<'a>(document: &'a Table, row: Row, number: u64) -> Option<&'a Value>
    ensures { option_map (λ v. view v.now) result
        ≡ option_and_then (at (number - 1)) (get_member (row_text row) (table_view document.now)) }
{
    match value_at(document, row.text()) {
        Some(tables) => tables.get(number.saturating_sub(1) as usize),
        None => None,
    }
}

/// Appends what is said of a location in a table.
fn write_item(
    told: &mut String,
    refusal: Refusal,
    document: &Table,
    row: Row,
    number: u64,
    spot: Spot,
    item: Option<&Value>,
) -> Result<(), AllocError>
    ensures { OnOk result (string_bytes told.new ≡ string_bytes told.old
        ++ item_advice refusal (table_view document.now) row number spot (option_map (λ v. view v.now) item.entry)) }
{
    match item {
        Some(item) => match spot {
            Spot::Whole => write_whole(told, row, item),
            Spot::Contact(contact) => write_contact(told, refusal, item, contact),
            Spot::At(key) => write_at(told, refusal, document, row, number, item, key),
        },
        None => told.push_str("missing"),
    }
}

/// Appends what is said of a table with a key that isn't known, or of an item that is no table.
fn write_whole(told: &mut String, row: Row, item: &Value) -> Result<(), AllocError>
    ensures { OnOk result (string_bytes told.new ≡ string_bytes told.old ++ whole_advice row (view item.now)) }
{
    match item.as_table() {
        Some(table) => {
            let folder = value_at(table, "folder").is_some();
            write_unknown(
                told,
                keys_text(Some(row), folder),
                stranger(Some(row), folder, table),
            )
        }
        None => {
            write_value(told, Some(item))?;
            write!(told, "; write a table [[{}]]", row.text())
        }
    }
}

/// Appends what is said of a key of a table.
fn write_at(
    told: &mut String,
    refusal: Refusal,
    document: &Table,
    row: Row,
    number: u64,
    table: &Value,
    key: PlanKey,
) -> Result<(), AllocError>
    ensures { OnOk result (string_bytes told.new ≡ string_bytes told.old
        ++ spot_advice refusal (table_view document.now) row number (view table.now) (Spot.At key)) }
{
    let folder = table.get("folder").is_some();
    if is_known(Some(row), folder, key.text()) {
        write_key(
            told,
            refusal,
            document,
            row,
            number,
            key,
            table.get(key.text()),
        )
    } else {
        write_unknown(told, keys_text(Some(row), folder), key.text())
    }
}

/// Appends what is said of the value at a known key of a table.
fn write_key(
    told: &mut String,
    refusal: Refusal,
    document: &Table,
    row: Row,
    number: u64,
    key: PlanKey,
    value: Option<&Value>,
) -> Result<(), AllocError>
    ensures { OnOk result (string_bytes told.new ≡ string_bytes told.old
        ++ key_advice refusal (table_view document.now) row number key (option_map (λ v. view v.now) value.entry)) }
{
    write_value(told, value)?;
    if is_conflict(refusal) {
        let place = twin_place(document, row, number, key, value);
        write!(told, ", the same as {place}; write another")
    } else {
        let hops = count_of(value_at(document, "hop"));
        write_wanted(told, row, number, hops, key)
    }
}

/// Whether a refusal is of two contacts or two tables that aren't allowed beside one another.
fn is_conflict(refusal: Refusal) -> bool
    ensures { result ≡ is_conflict refusal }
{
    match refusal {
        Refusal::Unsorted | Refusal::Overlap => true,
        _ => false,
    }
}

/// Appends what is said of a contact.
fn write_contact(
    told: &mut String,
    refusal: Refusal,
    table: &Value,
    number: u64,
) -> Result<(), AllocError>
    ensures { OnOk result
        (string_bytes told.new ≡ string_bytes told.old ++ contact_advice refusal (view table.now) number) }
{
    if is_conflict(refusal) {
        return write_order(told, table, number);
    }
    write_value(told, contact_there(table, number))?;
    write!(
        told,
        "; write [BEGIN, END] in microseconds since 1970, 0 <= BEGIN < END < {MOMENT_LIMIT}"
    )
}

/// Appends what is said of a contact that begins before the one before it ends.
fn write_order(told: &mut String, table: &Value, number: u64) -> Result<(), AllocError>
    ensures { OnOk result (string_bytes told.new ≡ string_bytes told.old ++ order_advice (view table.now) number) }
{
    write_value(told, contact_there(table, number))?;
    write_before(told, contact_there(table, number.saturating_sub(1)))
}

/// Appends the contact before one.
fn write_before(told: &mut String, before: Option<&Value>) -> Result<(), AllocError>
    ensures { OnOk result (string_bytes told.new
        ≡ string_bytes told.old ++ before_text (option_map (λ v. view v.now) before.entry)) }
{
    write!(told, " begins before ")?;
    write_value(told, before)?;
    write!(told, " ends; write contacts in order")?;
    Ok(())
}

/// The contact of a number in a table.
fn contact_there(table: &Value, number: u64) -> Option<&Value>
    ensures { option_map (λ v. view v.now) result ≡ contact_there (view table.now) number }
{
    match table.get("contacts") {
        Some(contacts) => contacts.get(number.saturating_sub(1) as usize),
        None => None,
    }
}

/// Appends a value, or that it is missing.
fn write_value(told: &mut String, value: Option<&Value>) -> Result<(), AllocError>
    ensures { OnOk result (string_bytes told.new
        ≡ string_bytes told.old ++ value_text (option_map (λ v. view v.now) value.entry)) }
{
    let Some(value) = value else {
        return told.push_str("missing");
    };
    match read_contact(value) {
        Some(contact) => write!(told, "[{}, {}]", contact.begin, contact.end),
        None => write_plain(told, value),
    }
}

/// Appends a value that is no contact.
fn write_plain(told: &mut String, value: &Value) -> Result<(), AllocError>
    ensures { OnOk result (string_bytes told.new ≡ string_bytes told.old ++ plain_text (view value.now)) }
{
    match value {
        Value::Integer(number) => write!(told, "{number}"),
        Value::String(text) => write_string(told, text.as_str()),
        Value::Array(_) => write!(told, "an array of {}", count_of(Some(value))),
        _ => write!(told, "a value of type {}", value.type_str()),
    }
}

/// Appends a text: what isn't `"rest"` isn't printed.
fn write_string(told: &mut String, text: &str) -> Result<(), AllocError>
    ensures { OnOk result (string_bytes told.new ≡ string_bytes told.old ++ string_text text.now) }
{
    if text == "rest" {
        told.push_str("\"rest\"")
    } else {
        told.push_str("a value of type string")
    }
}

/// Appends limits of a number.
fn write_limits(told: &mut String, least: u64, most: u64, unit: &str) -> Result<(), AllocError>
    ensures { OnOk result (string_bytes told.new ≡ string_bytes told.old ++ limits_text least most unit.now) }
{
    write!(told, "; write {least} to {most}{unit}")
}

/// Appends what an array is to be.
fn write_array(told: &mut String, row: Row) -> Result<(), AllocError>
    ensures { OnOk result (string_bytes told.new ≡ string_bytes told.old ++ array_wanted row) }
{
    match row {
        Row::Peer => write_limits(told, 1, MAX_PEERS, " tables [[peer]]"),
        Row::Hop => write_limits(told, 1, MAX_HOPS, " tables [[hop]]"),
        Row::Route => told.push_str("; write tables [[route]]"),
    }
}

/// Appends what the value at a key is to be.
fn write_wanted(
    told: &mut String,
    row: Row,
    number: u64,
    hops: u64,
    key: PlanKey,
) -> Result<(), AllocError>
    ensures { OnOk result (string_bytes told.new ≡ string_bytes told.old ++ key_wanted row number hops key) }
{
    match key {
        PlanKey::Id => write!(told, "; write {number}"),
        PlanKey::Station => write_limits(told, 1, MAX_STATION, ""),
        PlanKey::Listen => {
            told.push_str("; write an address with a port, such as \"0.0.0.0:4001\"")
        }
        PlanKey::Remote => {
            told.push_str("; write an address with a port, such as \"10.0.0.3:4001\"")
        }
        PlanKey::Key => told.push_str("; write the path of a key's file, such as \"link.key\""),
        PlanKey::Resend => write_limits(told, MIN_RESEND, MAX_RESEND, " (milliseconds)"),
        PlanKey::Rate => write_limits(told, 1, MAX_RATE, " (bytes a second)"),
        PlanKey::Lead => write_limits(told, 0, MAX_LEAD, " (seconds)"),
        PlanKey::Contacts => write!(
            told,
            "; write an array of at most {MAX_CONTACTS} contacts [BEGIN, END]"
        ),
        PlanKey::Destination => write_limits(told, 1, MAX_STATION, destination_unit(row)),
        PlanKey::Hop => write_limits(told, 1, hops, ", the id of a hop"),
        PlanKey::Folder => told.push_str("; write the path of a folder, such as \"out\""),
        PlanKey::Limit => write_limits(told, 1, MAX_LIMIT, " (milliseconds)"),
        PlanKey::Most => write_limits(told, 1, MAX_FILES, " (files)"),
    }
}

/// What else a destination may be.
fn destination_unit(row: Row) -> &'static str
    ensures { result.now ≡ destination_unit row }
{
    match row {
        Row::Route => ", or \"rest\"",
        Row::Peer | Row::Hop => "",
    }
}

/// The number of the items of an array: 0 if it is none.
#[tactic(auto, using(crate::proofs::Counts::counted))]
fn count_of(found: Option<&Value>) -> u64
    ensures { result ≡ count_of (option_map (λ v. view v.now) found.entry) }
{
    match items_of(found) {
        Some(items) => items.len() as u64,
        None => 0,
    }
}

/// The array that a value is.
fn items_of(found: Option<&Value>) -> Option<&Array>
    ensures { option_map (λ v. array_view v.now) result
        ≡ option_and_then as_array (option_map (λ v. view v.now) found.entry) }
{
    match found {
        Some(value) => value.as_array(),
        None => None,
    }
}

/// The location of the next table that has the same at a key.
fn twin_place(
    document: &Table,
    row: Row,
    number: u64,
    key: PlanKey,
    value: Option<&Value>,
) -> KeyPath
    ensures { result
        ≡ twin_place (table_view document.now) row number key (option_map (λ v. view v.now) value.entry) }
{
    let twin = match items_of(value_at(document, row.text())) {
        Some(tables) => twin(key.text(), number_there(value), number, tables),
        None => 0,
    };
    KeyPath::In(row, twin, Spot::At(key))
}

/// The number of the first table after one that has this number at a key: 0 if there is none.
fn twin(key: &str, wanted: i64, after: u64, tables: &Array) -> u64
    ensures { result ≡ twin key.now wanted after 1 (array_view tables.now) }
{
    for (index, table) in tables.iter().enumerate() {
        let number = index as u64 + 1;
        if after < number && number_there(table.get(key)) == wanted {
            return number;
        }
    }
    0
}

/// The number that no other table is to have: 0 for `"rest"`.
fn number_there(found: Option<&Value>) -> i64
    ensures { result ≡ number_there (option_map (λ v. view v.now) found.entry) }
{
    match found {
        Some(Value::Integer(number)) => *number,
        _ => 0,
    }
}

/// Whether a table of an array may have the key, or the plan itself.
fn is_known(row: Option<Row>, folder: bool, name: &str) -> bool
    ensures { result ≡ is_known row folder name.now }
{
    match row {
        Some(row) => row.has_key(folder, name),
        None => match name {
            "station" | "peer" | "hop" | "route" => true,
            _ => false,
        },
    }
}

/// The keys that a table of an array may have, or the plan itself.
fn keys_text(row: Option<Row>, folder: bool) -> &'static str
    ensures { result.now ≡ keys_text row folder }
{
    match (row, folder) {
        (None, _) => "station, peer, hop, route",
        (Some(Row::Peer), true) => "id, station, folder, destination, limit",
        (Some(Row::Peer), false) => "id, station, listen, remote, key",
        (Some(Row::Hop), true) => "id, station, folder, most, lead, contacts",
        (Some(Row::Hop), false) => {
            "id, station, listen, remote, key, resend, rate, lead, contacts"
        }
        (Some(Row::Route), _) => "destination, hop",
    }
}

/// The first key of a table that isn't known.
fn stranger<'a>(row: Option<Row>, folder: bool, table: &'a Table) -> &'a str
    ensures { result.now ≡ stranger row folder (table_view table.now) }
{
    for (key, _value) in table {
        if !is_known(row, folder, key.as_str()) {
            return key.as_str();
        }
    }
    ""
}

/// Appends what is said of a key that isn't known: its name, if it is plain, and the keys that are.
fn write_unknown(told: &mut String, keys: &str, name: &str) -> Result<(), AllocError>
    ensures { OnOk result (string_bytes told.new ≡ string_bytes told.old ++ unknown_text keys.now name.now) }
{
    if is_plain(name) {
        write!(told, "unknown key {name}; write {keys}")
    } else {
        write!(told, "unknown key; write {keys}")
    }
}

/// Whether a name has 1 to 64 bytes, and none of them needs quotes.
#[tactic(auto, unfolding(crate::specs::PlanAdvice::is_plain))]
fn is_plain(name: &str) -> bool
    ensures { result ≡ is_plain name.now }
{
    let length = name.len();
    1 <= length && length <= MAX_NAME && is_bare_text(name.as_bytes())
}

fn is_bare_text(bytes: &[u8]) -> bool
    ensures { result ≡ list_all is_bare bytes.now }
{
    bytes.iter().all(|byte| is_bare(*byte))
}

/// Whether a byte needs no quotes in a key.
fn is_bare(byte: u8) -> bool
    ensures { result ≡ is_bare byte }
{
    byte.is_ascii_alphanumeric() || byte == b'_' || byte == b'-'
}
