ghost use Rattle.std.specs.Prelude.{◌≡◌};
ghost use Rattle.toml.specs.Data.{get_member};
ghost use Rattle.toml.specs.View.{table_view, view};
ghost use Rattle.rly_plan_syntax.specs.Draft.{destination_draft_of, destination_in, route_in};

use crate::draft::{integer, value_at};
use toml::{Table, Value};

/// The destination of a `[[route]]` table.
#[derive(Clone, Copy)]
pub enum DestinationDraft {
    /// A station's number.
    Station(i64),
    /// `"rest"`: each destination without a route of its own, and payloads too short to name one.
    Rest,
}

/// A `[[route]]` table.
#[derive(Clone, Copy)]
pub struct RouteDraft {
    /// The destination.
    pub destination: DestinationDraft,
    /// The id of the next hop on the way to it.
    pub hop: i64,
}

/// Reads a `[[route]]` table: `None` if a key is missing or its value has another type.
pub(crate) fn read_route(table: &Table) -> Option<RouteDraft>
    ensures { result ≡ route_in (table_view table.now) }
{
    let destination = read_destination(table)?;
    match integer(table, "hop") {
        Some(hop) => Some(RouteDraft { destination, hop }),
        None => None,
    }
}

/// Reads the destination of a `[[route]]` table: `None` if it is missing, or neither a whole number nor `"rest"`.
pub(crate) fn read_destination(table: &Table) -> Option<DestinationDraft>
    ensures { result ≡ destination_in (table_view table.now) }
{
    match value_at(table, "destination") {
        Some(value) => destination_of(value),
        None => None,
    }
}

fn destination_of(value: &Value) -> Option<DestinationDraft>
    ensures { result ≡ destination_draft_of (view value.now) }
{
    match value {
        Value::Integer(number) => Some(DestinationDraft::Station(*number)),
        Value::String(text) if text.as_str() == "rest" => Some(DestinationDraft::Rest),
        _ => None,
    }
}
