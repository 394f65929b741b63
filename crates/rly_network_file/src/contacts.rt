//! The contacts of links and folders: those that have a name, and those that one table gives.

use crate::fault::{NetworkFault, fault_at, fault_of_key};
use crate::passes::{PassFile, read_passes};
use crate::values::is_name;
use rly_plan_syntax::{ContactDraft, read_contact};
use std::alloc::Global;
use toml::{Table, Value};

/// The last moment that a contact may end at.
const LAST: u64 = 4_503_599_627_370_495;

/// Contacts in order, as a plan writes them.
#[derive(Drop)]
pub(crate) struct Contacts {
    /// Their name, or the path of their file; empty if one table alone has them.
    pub name: String,
    /// The array of a plan.
    pub text: String,
    /// The number of contacts.
    pub count: u64,
    /// The first moment, and the one after the last, in microseconds since the Unix epoch.
    pub begin: u64,
    pub end: u64,
    /// How long they last in all, in microseconds.
    pub open: u64,
}

/// No contacts yet.
pub(crate) fn none(alloc: Global, name: &str) -> Result<Contacts, NetworkFault> {
    Ok(Contacts {
        name: String::from_str(alloc, name)?,
        text: String::new(alloc),
        count: 0,
        begin: 0,
        end: 0,
        open: 0,
    })
}

/// The contacts of the files of passes, and those of `[contacts]`, each with its name. The first ones last always.
pub(crate) fn read_all(
    alloc: Global,
    document: &Table,
    passes: &[PassFile],
) -> Result<Vec<Contacts>, NetworkFault> {
    let mut always = none(alloc, "")?;
    push_contact(&mut always, 0, LAST)?;
    let mut all = Vec::new(alloc);
    all.push(always)?;
    for file in passes {
        all.push(read_passes(alloc, file)?)?;
    }
    let table = match document.get("contacts") {
        Some(Value::Table(table)) => table,
        Some(_) => return Err(fault_at(alloc, "contacts", "write a table of arrays")),
        None => return Ok(all),
    };
    for (name, value) in table {
        if !is_name(name.as_str()) {
            let text = "a name has letters, digits, - and _, at most 64, and a letter";
            return Err(fault_at(alloc, "contacts", text));
        }
        let place = format!(in alloc; "contacts.{name}")?;
        all.push(read_one(alloc, name.as_str(), value, place.as_str())?)?;
    }
    Ok(all)
}

/// Contacts that a value gives.
fn read_one(
    alloc: Global,
    name: &str,
    value: &Value,
    place: &str,
) -> Result<Contacts, NetworkFault> {
    let Some(values) = value.as_array() else {
        return Err(fault_at(alloc, place, "write an array of contacts"));
    };
    let mut contacts = none(alloc, name)?;
    for (index, value) in values.iter().enumerate() {
        let place = format!(in alloc; "{place}[{}]", index.saturating_add(1))?;
        match read_contact(value) {
            Some(contact) => push_draft(alloc, &mut contacts, contact, place.as_str())?,
            None => return Err(fault_at(alloc, place.as_str(), "write two whole numbers")),
        }
    }
    check_count(alloc, &contacts, place)?;
    Ok(contacts)
}

pub(crate) fn check_count(
    alloc: Global,
    contacts: &Contacts,
    place: &str,
) -> Result<(), NetworkFault> {
    if contacts.count > 4_096 {
        return Err(fault_at(alloc, place, "a hop has at most 4096 contacts"));
    }
    Ok(())
}

/// Appends a contact that is in its limits, and behind the ones before it.
pub(crate) fn push_draft(
    alloc: Global,
    contacts: &mut Contacts,
    contact: ContactDraft,
    place: &str,
) -> Result<(), NetworkFault> {
    let begin = u64::try_from(contact.begin).unwrap_or(LAST);
    let end = u64::try_from(contact.end).unwrap_or(0);
    if begin >= end || end > LAST {
        let text =
            "a contact is [from, to] in microseconds since the Unix epoch, from before to, below 2^52";
        return Err(fault_at(alloc, place, text));
    }
    if begin < contacts.end {
        let text = "it begins before the one before it ends; write contacts in order";
        return Err(fault_at(alloc, place, text));
    }
    push_contact(contacts, begin, end)
}

fn push_contact(contacts: &mut Contacts, begin: u64, end: u64) -> Result<(), NetworkFault> {
    if contacts.count == 0 {
        contacts.begin = begin;
    } else {
        contacts.text.push_str(", ")?;
    }
    write!(&mut contacts.text, "[{begin}, {end}]")?;
    contacts.count = contacts.count.saturating_add(1);
    contacts.end = end;
    contacts.open = contacts.open.saturating_add(end.saturating_sub(begin));
    Ok(())
}

/// The index of the contacts of a table: those of the name, the file or the array at its `contacts`, or those that last always.
pub(crate) fn contacts_at(
    alloc: Global,
    all: &mut Vec<Contacts>,
    table: &Table,
    place: &str,
) -> Result<usize, NetworkFault> {
    match table.get("contacts") {
        Some(Value::String(name)) => match index_of(all, name.as_str()) {
            Some(index) => Ok(index),
            None => Err(fault_of_key(
                alloc,
                place,
                "contacts",
                "no contacts of [contacts] have this name",
            )),
        },
        Some(value) => {
            let place = format!(in alloc; "{place}.contacts")?;
            let contacts = read_one(alloc, "", value, place.as_str())?;
            all.push(contacts)?;
            Ok(all.len().saturating_sub(1))
        }
        None => Ok(0),
    }
}

fn index_of(all: &[Contacts], name: &str) -> Option<usize> {
    for (index, contacts) in all.iter().enumerate() {
        if contacts.name.as_str() == name && !name.is_empty() {
            return Some(index);
        }
    }
    None
}
