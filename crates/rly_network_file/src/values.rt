//! The values at the keys of a table.

ghost use Rattle.std.specs.Prelude.{◌≡◌, IfOk, Some};
ghost use Rattle.toml.specs.Parse.{parse_document};
ghost use Rattle.toml.specs.View.{table_view};

use crate::fault::{NetworkFault, fault_at, fault_of_key};
use rly_plan_syntax::position_after;
use std::alloc::Global;
use toml::{Table, Value};

/// The table of a text, or the place from which on it isn't TOML.
pub(crate) fn document_of(alloc: Global, text: &str) -> Result<Table, NetworkFault>
    ensures { IfOk result (λ document. parse_document text.now ≡ Some (table_view document)) }
{
    match toml::table_from_str(alloc, text) {
        Ok(document) => Ok(document),
        Err(error) => match error.span() {
            Some(span) => {
                let position = position_after(text, span.start);
                let (line, column) = (position.line, position.column);
                let text = format!(in alloc;
                    "line {line}, column {column}: not TOML from here on\n"
                )?;
                Err(NetworkFault::Found(text))
            }
            None => Err(NetworkFault::Memory),
        },
    }
}

/// Refuses a key that isn't one of these.
pub(crate) fn check_keys(
    alloc: Global,
    table: &Table,
    place: &str,
    keys: &[&str],
) -> Result<(), NetworkFault> {
    for (key, _value) in table {
        if !is_one_of(key.as_str(), keys) {
            return refuse_key(alloc, place, key.as_str(), keys);
        }
    }
    Ok(())
}

fn is_one_of(key: &str, keys: &[&str]) -> bool {
    for known in keys {
        if *known == key {
            return true;
        }
    }
    false
}

fn refuse_key(alloc: Global, place: &str, key: &str, keys: &[&str]) -> Result<(), NetworkFault> {
    let mut text = String::from_str(alloc, "unknown key; write")?;
    for known in keys {
        text.push_str(" ")?;
        text.push_str(*known)?;
    }
    if is_plain(key) {
        Err(fault_of_key(alloc, place, key, text.as_str()))
    } else {
        Err(fault_at(alloc, place, text.as_str()))
    }
}

/// The array of tables at a key: none if it isn't there.
pub(crate) fn tables_at<'a>(
    alloc: Global,
    document: &'a Table,
    key: &str,
) -> Result<&'a [Value], NetworkFault> {
    match document.get(key) {
        Some(Value::Array(values)) => Ok(values),
        Some(_) => Err(fault_at(alloc, key, "write an array of tables")),
        None => Ok(&[]),
    }
}

/// The table at a place.
pub(crate) fn table_of<'a>(
    alloc: Global,
    value: &'a Value,
    place: &str,
) -> Result<&'a Table, NetworkFault> {
    match value.as_table() {
        Some(table) => Ok(table),
        None => Err(fault_at(alloc, place, "write a table")),
    }
}

/// The whole number at a key, if it is there.
pub(crate) fn number_at(
    alloc: Global,
    table: &Table,
    place: &str,
    key: &str,
    least: u64,
    most: u64,
) -> Result<Option<u64>, NetworkFault> {
    let number = match table.get(key) {
        Some(Value::Integer(number)) => u64::try_from(*number).ok(),
        Some(_) => None,
        None => return Ok(None),
    };
    match number {
        Some(number) if least <= number && number <= most => Ok(Some(number)),
        _ => {
            let text = format!(in alloc; "write a whole number, {least} to {most}")?;
            Err(fault_of_key(alloc, place, key, text.as_str()))
        }
    }
}

/// The port or the number of a station at a key, if it is there.
pub(crate) fn port_at(
    alloc: Global,
    table: &Table,
    place: &str,
    key: &str,
) -> Result<Option<u16>, NetworkFault> {
    match number_at(alloc, table, place, key, 1, 65_535)? {
        Some(number) => Ok(u16::try_from(number).ok()),
        None => Ok(None),
    }
}

/// The truth value at a key, if it is there.
pub(crate) fn flag_at(
    alloc: Global,
    table: &Table,
    place: &str,
    key: &str,
) -> Result<Option<bool>, NetworkFault> {
    match table.get(key) {
        Some(Value::Boolean(flag)) => Ok(Some(*flag)),
        Some(_) => Err(fault_of_key(alloc, place, key, "write true or false")),
        None => Ok(None),
    }
}

/// The text at a key, if it is there. Plans quote it as it is, so it has only visible ASCII characters and spaces, and
/// neither quotes nor backslashes.
pub(crate) fn text_at(
    alloc: Global,
    table: &Table,
    place: &str,
    key: &str,
) -> Result<Option<String>, NetworkFault> {
    match table.get(key) {
        Some(Value::String(text)) if is_plain(text.as_str()) => Ok(Some(text.clone()?)),
        Some(_) => Err(fault_of_key(
            alloc,
            place,
            key,
            "write a text of ASCII characters, without quotes and backslashes",
        )),
        None => Ok(None),
    }
}

pub(crate) fn is_plain(text: &str) -> bool {
    for byte in text.as_bytes() {
        if !(b' '..=b'~').contains(byte) || *byte == b'"' || *byte == b'\\' {
            return false;
        }
    }
    !text.is_empty()
}

/// The name at a key, if it is there: letters, digits, `_` and `-`.
pub(crate) fn name_at(
    alloc: Global,
    table: &Table,
    place: &str,
    key: &str,
) -> Result<Option<String>, NetworkFault> {
    match text_at(alloc, table, place, key)? {
        Some(name) if is_name(name.as_str()) => Ok(Some(name)),
        Some(_) => Err(fault_of_key(
            alloc,
            place,
            key,
            "write a name of letters, digits, - and _, at most 64, with a letter",
        )),
        None => Ok(None),
    }
}

/// Whether a text is a name: up to 64 letters, digits, `-` and `_`, one of them a letter.
pub(crate) fn is_name(text: &str) -> bool {
    let mut has_letter = false;
    for byte in text.as_bytes() {
        if byte.is_ascii_alphabetic() {
            has_letter = true;
        } else if !byte.is_ascii_digit() && *byte != b'-' && *byte != b'_' {
            return false;
        }
    }
    has_letter && text.len() <= 64
}
