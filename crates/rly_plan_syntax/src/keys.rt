//! Pass 2: whether each key of a document is known in its table.

ghost use Rattle.std.specs.Prelude.{◌≡◌, ◌∷◌, [], codes, false, true};
ghost use Rattle.std.specs.List.{list_any};
ghost use Rattle.std.specs.Str.{bytes_eq};
ghost use Rattle.toml.specs.View.{table_view, view};
ghost use Rattle.rly_plan_syntax.specs.Keys.{has_key, has_no_key, keys_are_known};

use crate::document_paths::unknown_place;
use crate::key_path::Row;
use toml::{Table, Value};

impl Row {
    ghost use Rattle.std.specs.Prelude.{◌≡◌};
    ghost use Rattle.rly_plan_syntax.specs.Keys.{has_key};

    /// Whether a table of the array may have the key. A table whose link leads to a folder has keys of its own.
    pub fn has_key(self, folder: bool, key: &str) -> bool
        ensures known { result ≡ has_key self folder key.now }
    {
        match self {
            Row::Peer if folder => is_incoming_key(key),
            Row::Peer => is_socket_key(key),
            Row::Hop if folder => is_outgoing_key(key),
            Row::Hop => is_socket_key(key) || is_link_key(key),
            Row::Route => key == "destination" || key == "hop",
        }
    }
}

/// Whether a peer that is a folder has the key.
fn is_incoming_key(key: &str) -> bool
    ensures { result ≡ has_key Row.Peer true key.now }
{
    match key {
        "id" | "station" | "folder" | "destination" | "limit" => true,
        _ => false,
    }
}

/// Whether a hop that is a folder has the key.
fn is_outgoing_key(key: &str) -> bool
    ensures { result ≡ has_key Row.Hop true key.now }
{
    match key {
        "id" | "station" | "folder" | "most" | "lead" | "contacts" => true,
        _ => false,
    }
}

/// Whether a key is one that a hop at a socket has and a peer doesn't.
fn is_link_key(key: &str) -> bool
    ensures { result
        ≡ list_any (bytes_eq key.now) (codes "resend" ∷ codes "rate" ∷ codes "lead" ∷ codes "contacts" ∷ []) }
{
    match key {
        "resend" | "rate" | "lead" | "contacts" => true,
        _ => false,
    }
}

fn is_socket_key(key: &str) -> bool
    ensures { result ≡ has_key Row.Peer false key.now }
{
    match key {
        "id" | "station" | "listen" | "remote" | "key" => true,
        _ => false,
    }
}

/// Pass 2: whether each key of the document is known in its table. A document without keys passes.
pub fn keys_are_known(document: &Table) -> bool
    ensures known { result ≡ keys_are_known (table_view document.now) }
{
    unknown_place(document).is_none()
}

/// Whether the value has no key at any depth.
pub(crate) fn has_no_key(value: &Value) -> bool
    ensures { result ≡ has_no_key (view value.now) }
{
    match value {
        Value::Array(items) => {
            for item in items {
                if !has_no_key(item) {
                    return false;
                }
            }
            true
        }
        Value::Table(table) => table.is_empty(),
        _ => true,
    }
}
