//! The numbers of stations and applications by their names.

use crate::fault::{NetworkFault, fault_at, fault_of_key};
use crate::values::is_plain;
use std::alloc::Global;
use toml::{Table, Value};

/// A name of a station, or of an application.
#[derive(Drop)]
pub(crate) struct Name {
    pub name: String,
    pub number: u16,
}

/// The number of a name.
pub(crate) fn number_of(names: &[Name], name: &str) -> Option<u16> {
    for entry in names {
        if entry.name.as_str() == name {
            return Some(entry.number);
        }
    }
    None
}

/// The name of a number.
pub(crate) fn name_of(names: &[Name], number: u16) -> Option<&str> {
    for entry in names {
        if entry.number == number {
            return Some(entry.name.as_str());
        }
    }
    None
}

/// Appends a name, which no other number may have.
pub(crate) fn push_name(
    alloc: Global,
    names: &mut Vec<Name>,
    place: &str,
    name: &str,
    number: u16,
) -> Result<(), NetworkFault> {
    match number_of(names, name) {
        Some(other) if other != number => {
            Err(fault_at(alloc, place, "another number has this name"))
        }
        Some(_) => Ok(()),
        None => {
            let name = String::from_str(alloc, name)?;
            names.push(Name { name, number })?;
            Ok(())
        }
    }
}

/// The number that a value means: a number of 1 to 65,535, or a name.
pub(crate) fn named(
    alloc: Global,
    names: &[Name],
    value: &Value,
    place: &str,
) -> Result<u16, NetworkFault> {
    let found = match value {
        Value::Integer(number) => u16::try_from(*number).ok(),
        Value::String(name) => named_by_text(names, name.as_str()),
        _ => None,
    };
    match (found, value) {
        (Some(number), _) if number > 0 => Ok(number),
        (_, Value::String(name)) if is_plain(name.as_str()) => {
            let text = format!(in alloc; "nothing is called {name}")?;
            Err(fault_at(alloc, place, text.as_str()))
        }
        _ => Err(fault_at(alloc, place, "write a number, 1 to 65535, or a name")),
    }
}

/// The number that a text means: a name, or digits, as a key of a table has them.
pub(crate) fn named_by_text(names: &[Name], text: &str) -> Option<u16> {
    match number_of(names, text) {
        Some(number) => Some(number),
        None => text.parse::<u16>().ok(),
    }
}

/// The numbers that the value at a key means: one, or an array of them. `missing` is the text of the fault if the key
/// isn't there.
pub(crate) fn numbers_at(
    alloc: Global,
    names: &[Name],
    table: &Table,
    place: &str,
    key: &str,
    missing: &str,
) -> Result<Vec<u16>, NetworkFault> {
    let Some(value) = table.get(key) else {
        return Err(fault_of_key(alloc, place, key, missing));
    };
    let place = format!(in alloc; "{place}.{key}")?;
    numbers_of(alloc, names, value, place.as_str())
}

/// The numbers that a value means: one, or an array of them.
pub(crate) fn numbers_of(
    alloc: Global,
    names: &[Name],
    value: &Value,
    place: &str,
) -> Result<Vec<u16>, NetworkFault> {
    let mut numbers = Vec::new(alloc);
    match value {
        Value::Array(values) => {
            for value in values {
                numbers.push(named(alloc, names, value, place)?)?;
            }
        }
        _ => numbers.push(named(alloc, names, value, place)?)?,
    }
    Ok(numbers)
}

/// The number that the value at a key means, if it is there.
pub(crate) fn station_at(
    alloc: Global,
    names: &[Name],
    table: &Table,
    place: &str,
    key: &str,
) -> Result<Option<u16>, NetworkFault> {
    let Some(value) = table.get(key) else {
        return Ok(None);
    };
    let place = format!(in alloc; "{place}.{key}")?;
    Ok(Some(named(alloc, names, value, place.as_str())?))
}
