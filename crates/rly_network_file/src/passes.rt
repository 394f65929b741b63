//! Contacts from files of passes: CSV, as `examples/contacts` reads it for one hop.

use crate::contacts::{Contacts, check_count, none, push_draft};
use crate::fault::{NetworkFault, fault_at};
use crate::values::{is_name, is_plain};
use csv::{ReaderBuilder, StringRecord, Trim};
use jiff::Timestamp;
use rly_plan_syntax::ContactDraft;
use std::alloc::{AllocError, Global};
use toml::{Table, Value};

/// A file of passes that a network file names.
#[derive(Drop)]
pub struct PassFile {
    /// The first key that names it, as `link[3].contacts`.
    pub place: String,
    /// Its path, from the network file's folder.
    pub path: String,
    /// Its text; `None` if it isn't there.
    pub text: Option<String>,
}

/// The files of passes that a network file names, each once, without their texts: none if it isn't TOML.
pub fn pass_files(alloc: Global, text: &str) -> Result<Vec<PassFile>, AllocError> {
    let mut files = Vec::new(alloc);
    if let Ok(document) = toml::table_from_str(alloc, text) {
        push_named(alloc, &mut files, &document, "link")?;
        push_named(alloc, &mut files, &document, "folder")?;
    }
    Ok(files)
}

fn push_named(
    alloc: Global,
    files: &mut Vec<PassFile>,
    document: &Table,
    key: &str,
) -> Result<(), AllocError> {
    let Some(Value::Array(values)) = document.get(key) else {
        return Ok(());
    };
    for (index, value) in values.iter().enumerate() {
        if let Some(path) = path_in(value) {
            let place = format!(in alloc; "{key}[{}].contacts", index.saturating_add(1))?;
            push_file(alloc, files, place, path)?;
        }
    }
    Ok(())
}

/// The path at the `contacts` of a table: a text that is no name.
fn path_in(value: &Value) -> Option<&str> {
    match value.as_table()?.get("contacts")? {
        Value::String(path) if is_plain(path.as_str()) && !is_name(path.as_str()) => {
            Some(path.as_str())
        }
        _ => None,
    }
}

fn push_file(
    alloc: Global,
    files: &mut Vec<PassFile>,
    place: String,
    path: &str,
) -> Result<(), AllocError> {
    for file in files.iter() {
        if file.path.as_str() == path {
            return Ok(());
        }
    }
    files.push(PassFile {
        place,
        path: String::from_str(alloc, path)?,
        text: None,
    })?;
    Ok(())
}

/// The contacts that a file of passes gives.
pub(crate) fn read_passes(alloc: Global, file: &PassFile) -> Result<Contacts, NetworkFault> {
    let (place, path) = (file.place.as_str(), file.path.as_str());
    let whole = format!(in alloc; "{place}: {path}")?;
    let Some(text) = &file.text else {
        return Err(fault_at(alloc, whole.as_str(), "not there"));
    };
    let mut passes = Passes {
        columns: None,
        hop: String::new(alloc),
        contacts: none(alloc, path)?,
    };
    for (index, line) in text.as_str().lines().enumerate() {
        let place = format!(in alloc; "{place}: {path}:{}", index.saturating_add(1))?;
        passes.push_line(alloc, line, place.as_str())?;
    }
    if passes.contacts.count == 0 {
        return Err(fault_at(alloc, whole.as_str(), "no pass follows"));
    }
    check_count(alloc, &passes.contacts, whole.as_str())?;
    Ok(passes.contacts)
}

/// The indexes of the columns of a pass.
#[derive(Clone, Copy)]
struct Columns {
    hop: Option<usize>,
    begin: usize,
    end: usize,
    count: usize,
}

/// The passes of a file, up to one of its lines.
#[derive(Drop)]
struct Passes {
    columns: Option<Columns>,
    /// The hop that each row names, if one does.
    hop: String,
    contacts: Contacts,
}

impl Passes {
    /// Reads a line: the first one names the columns, and one that is empty or a comment is left out.
    fn push_line(&mut self, alloc: Global, line: &str, place: &str) -> Result<(), NetworkFault> {
        if line.is_empty() || line.starts_with('#') {
            return Ok(());
        }
        let row = row_of(alloc, line)?;
        match self.columns {
            Some(columns) => self.push_row(alloc, columns, &row, place),
            None => {
                self.columns = Some(columns_of(alloc, &row, place)?);
                Ok(())
            }
        }
    }

    fn push_row(
        &mut self,
        alloc: Global,
        columns: Columns,
        row: &StringRecord,
        place: &str,
    ) -> Result<(), NetworkFault> {
        if row.len() != columns.count {
            return Err(fault_at(alloc, place, "write a cell for each column"));
        }
        if let Some(index) = columns.hop {
            self.check_hop(alloc, cell_of(row, index), place)?;
        }
        let begin = moment_of(cell_of(row, columns.begin));
        let end = moment_of(cell_of(row, columns.end));
        match (begin, end) {
            (Some(begin), Some(end)) => {
                push_draft(
                    alloc,
                    &mut self.contacts,
                    ContactDraft { begin, end },
                    place,
                )
            }
            _ => {
                let text = "write times with Z or an offset, or microseconds since the Unix epoch";
                Err(fault_at(alloc, place, text))
            }
        }
    }

    /// Refuses a row of another hop than those before it.
    fn check_hop(&mut self, alloc: Global, hop: &str, place: &str) -> Result<(), NetworkFault> {
        if self.hop.is_empty() {
            self.hop.push_str(hop)?;
        }
        if self.hop.as_str() != hop {
            return Err(fault_at(alloc, place, "it is of another hop; write a file for each"));
        }
        Ok(())
    }
}

/// The cells of a line, without the spaces around them.
fn row_of(alloc: Global, line: &str) -> Result<StringRecord, NetworkFault> {
    let mut reader = ReaderBuilder::new()
        .has_headers(false)
        .trim(Trim::All)
        .from_reader(alloc, line.as_bytes());
    let mut row = StringRecord::new(alloc);
    // Of a line in memory, the first record, only memory may be refused.
    match reader.read_record(&mut row) {
        Ok(_) => Ok(row),
        Err(_) => Err(NetworkFault::Memory),
    }
}

fn columns_of(alloc: Global, row: &StringRecord, place: &str) -> Result<Columns, NetworkFault> {
    match (column_of(row, "begin"), column_of(row, "end")) {
        (Some(begin), Some(end)) => Ok(Columns {
            hop: column_of(row, "hop"),
            begin,
            end,
            count: row.len(),
        }),
        _ => Err(fault_at(alloc, place, "name the columns begin and end")),
    }
}

/// The index of the column of a name.
fn column_of(row: &StringRecord, name: &str) -> Option<usize> {
    for index in 0..row.len() {
        if cell_of(row, index) == name {
            return Some(index);
        }
    }
    None
}

fn cell_of(row: &StringRecord, index: usize) -> &str {
    row.get(index).unwrap_or("")
}

/// The microseconds since the Unix epoch that a cell means: a whole number, or a time of ISO 8601 with Z or an offset.
fn moment_of(cell: &str) -> Option<i64> {
    match cell.parse::<i64>() {
        Ok(moment) => Some(moment),
        Err(_) => match cell.parse::<Timestamp>() {
            Ok(time) => Some(time.as_microsecond()),
            Err(_) => None,
        },
    }
}
