//! Stations' numbers in TOML, of which contracts speak.

ghost use Rattle.std.specs.Prelude.{◌≡◌, IfOk, Some, codes, option_map};
ghost use Rattle.toml.specs.Data.{get_member};
ghost use Rattle.toml.specs.View.{array_view, table_view, view};
ghost use Rattle.rly_network_file.specs.NetworkText.{number_in, station_in};
ghost use Rattle.rly_plan_syntax.specs.Draft.{each_item, items_at};

use crate::fault::{NetworkFault, fault_at, fault_of_key};
use rly_plan_syntax::value_at;
use std::alloc::Global;
use toml::value::Array;
use toml::{Table, Value};

/// An item of an array.
pub(crate) trait Item: Drop {
    ghost use Rattle.std.specs.Prelude.{◌≡◌, IfOk, Option, Some};
    ghost use Rattle.toml.specs.Data.{Data};
    ghost use Rattle.toml.specs.View.{view};

    ghost shape: { Data → Option Self };

    /// Reads the value at a place.
    fn read(alloc: Global, value: &Value, place: &str) -> Result<Self, NetworkFault>
        ensures { IfOk result (λ item. shape (view value.now) ≡ Some item) };
}

impl Item for u16 {
    ghost use Rattle.rly_network_file.specs.NetworkText.{station_in};

    ghost shape = { station_in };

    fn read(alloc: Global, value: &Value, place: &str) -> Result<u16, NetworkFault> {
        match station_in(value) {
            Some(number) => Ok(number),
            None => Err(fault_at(alloc, place, "write a number, 1 to 65535")),
        }
    }
}

/// The number of a station that a value is.
fn station_in(value: &Value) -> Option<u16>
    ensures { result ≡ station_in (view value.now) }
{
    let Some(number) = value.as_integer() else {
        return None;
    };
    match u16::try_from(number) {
        Ok(number) if number > 0 => Some(number),
        _ => None,
    }
}

/// The number of a station, at the key `number` of its table.
pub(crate) fn number_in(alloc: Global, table: &Table, place: &str) -> Result<u16, NetworkFault>
    ensures { IfOk result (λ number. number_in (table_view table.now) ≡ Some number) }
{
    match value_at(table, "number") {
        Some(value) => match station_in(value) {
            Some(number) => Ok(number),
            None => Err(fault_of_key(alloc, place, "number", "write a whole number, 1 to 65535")),
        },
        None => Err(fault_of_key(alloc, place, "number", "missing; write 1 to 65535")),
    }
}

/// The items of the array at a key, which has this place.
pub(crate) fn items_at<I: Item>(
    alloc: Global,
    table: &Table,
    key: &str,
    place: &str,
) -> Result<Vec<I>, NetworkFault>
    ensures { IfOk result (λ items. items_at I.shape (get_member key.now (table_view table.now)) ≡ Some items.items) }
{
    let Some(value) = value_at(table, key) else {
        return Err(fault_at(alloc, place, "missing; write an array"));
    };
    match value.as_array() {
        Some(values) => read_each(alloc, values, place),
        None => Err(fault_at(alloc, place, "write an array")),
    }
}

fn read_each<I: Item>(alloc: Global, values: &Array, place: &str) -> Result<Vec<I>, NetworkFault>
    ensures { IfOk result (λ items. each_item I.shape (array_view values.now) ≡ Some items.items) }
{
    let mut items = Vec::new(alloc);
    let mut number: u64 = 0;
    for value in values {
        number = number.saturating_add(1);
        let place = format!(in alloc; "{place}[{number}]")?;
        let item = I::read(alloc, value, place.as_str())?;
        items.push(item)?;
    }
    Ok(items)
}
