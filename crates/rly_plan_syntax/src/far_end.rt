ghost use Rattle.std.specs.Prelude.{◌≡◌, IfOk, option_copied};
ghost use Rattle.toml.specs.View.{table_view};
ghost use Rattle.rly_plan_syntax.specs.Draft.{far_end_of, folder_of, socket_of};
ghost use Rattle.rly_plan_syntax.specs.Keys.{has_folder};

use crate::addresses::Addresses;
use crate::draft::{integer_or, optional_integer, optional_text, text, value_at};
use crate::plan_path::PlanPath;
use std::alloc::{AllocError, Global};
use toml::Table;

/// The number of files in a hop's folder at which it is full, if the table omits it.
const DEFAULT_MOST: i64 = 1_024;

/// The far end of the link with a neighbour, as its table gives it.
#[derive(Drop)]
pub enum FarEndDraft {
    /// A station that is reached through a socket.
    Socket(SocketEnd),
    /// A folder that plays the neighbour station.
    Folder(FolderDraft),
}

/// The socket of a link, and the file of its key.
#[derive(Drop)]
pub struct SocketEnd {
    /// The addresses of the link.
    pub addresses: Addresses,
    /// The file of the link's key, if the table names one.
    pub key: Option<PlanPath>,
}

/// The folder of a link. Its numbers aren't checked yet.
#[derive(Drop)]
pub struct FolderDraft {
    /// The path of the folder.
    pub path: PlanPath,
    /// The destination of a peer's files, if the table gives one.
    pub destination: Option<i64>,
    /// The age limit of a peer's files in milliseconds, if the table gives one.
    pub limit: Option<i64>,
    /// The number of files at which a hop's folder is full.
    pub most: i64,
}

/// Whether the far end of a table's link is a folder.
pub(crate) fn has_folder(table: &Table) -> bool
    ensures { result ≡ has_folder (table_view table.now) }
{
    value_at(table, "folder").is_some()
}

/// The far end of a table's link: `None` if a key of it is missing or has a value of another type.
pub(crate) fn read_far_end(alloc: Global, table: &Table) -> Result<Option<FarEndDraft>, AllocError>
    ensures { IfOk result (λ found. found ≡ far_end_of (table_view table.now)) }
{
    if has_folder(table) {
        read_folder(alloc, table)
    } else {
        read_socket(alloc, table)
    }
}

fn read_socket(alloc: Global, table: &Table) -> Result<Option<FarEndDraft>, AllocError>
    ensures { IfOk result (λ found. found ≡ socket_of (table_view table.now)) }
{
    let Some(listen) = text(table, "listen") else {
        return Ok(None);
    };
    let Some(remote) = text(table, "remote") else {
        return Ok(None);
    };
    let Some(key) = optional_text(table, "key") else {
        return Ok(None);
    };
    Ok(Some(FarEndDraft::Socket(SocketEnd {
        addresses: Addresses::copy(alloc, listen, remote)?,
        key: path_of(alloc, key)?,
    })))
}

/// The path in an optional text.
fn path_of(alloc: Global, text: Option<&str>) -> Result<Option<PlanPath>, AllocError>
    ensures { IfOk result (λ path. path ≡ option_copied text.entry) }
{
    match text {
        Some(text) => Ok(Some(PlanPath::copy(alloc, text)?)),
        None => Ok(None),
    }
}

fn read_folder(alloc: Global, table: &Table) -> Result<Option<FarEndDraft>, AllocError>
    ensures { IfOk result (λ found. found ≡ folder_of (table_view table.now)) }
{
    let Some(path) = text(table, "folder") else {
        return Ok(None);
    };
    let Some(destination) = optional_integer(table, "destination") else {
        return Ok(None);
    };
    let Some(limit) = optional_integer(table, "limit") else {
        return Ok(None);
    };
    let Some(most) = integer_or(table, "most", DEFAULT_MOST) else {
        return Ok(None);
    };
    Ok(Some(FarEndDraft::Folder(FolderDraft {
        path: PlanPath::copy(alloc, path)?,
        destination,
        limit,
        most,
    })))
}
