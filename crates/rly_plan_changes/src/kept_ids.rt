//! The ids that are kept of a device.

ghost use Rattle.std.specs.Prelude.{◌≡◌, ◌≢◌, IfErr, IfOk, option_copied, option_map};
ghost use Rattle.toml.specs.Data.{get_member};
ghost use Rattle.toml.specs.View.{array_view, table_view, view};
ghost use Rattle.rly_plan_syntax.specs.Draft.{each_item, items_at};
ghost use Rattle.rly_plan_changes.specs.PlanIds.{ids_in_text, ids_to_keep, station_in};

use crate::plan_ids::{OtherStation, PlanIds, other_of};
use rly_plan::Plan;
use rly_plan_syntax::value_at;
use std::alloc::{AllocError, Global};
use toml::value::Array;
use toml::{Table, Value};

/// Why a plan can't be served on a device by the ids that are kept of it.
#[derive(Clone, Copy, PartialEq, Eq)]
pub enum IdsFault {
    /// An id means another station in the plan.
    Renumbered(OtherStation),
    /// The text keeps no ids.
    Broken,
    /// A growth of memory was refused.
    OutOfMemory,
}

impl From<AllocError> for IdsFault {
    ghost use Rattle.std.specs.Prelude.{◌≡◌};
    ghost use Rattle.rly_plan_changes.specs.declared.kept_ids.IdsFault.TheVariants.{OutOfMemory};

    ghost from_gives = { λ _ fault. fault ≡ OutOfMemory };

    fn from(_refused: AllocError) -> IdsFault {
        IdsFault::OutOfMemory
    }
}

/// The ids to keep of a device that serves a plan, after those in the text that is kept so far: `None` if none is. A plan in
/// which an id names another station than in the text is refused, unless `renumber` allows it. Ids that the plan doesn't have
/// keep their station.
pub fn ids_to_keep(
    alloc: Global,
    kept: Option<&str>,
    plan: &Plan,
    renumber: bool,
) -> Result<PlanIds, IdsFault>
    ensures ids { IfOk result (λ ids. ids_to_keep (option_copied kept.entry) plan.now renumber ≡ Ok ids) }
    ensures fault { IfErr result
        (λ fault. fault ≢ IdsFault.OutOfMemory → ids_to_keep (option_copied kept.entry) plan.now renumber ≡ Err fault) }
{
    let mut ids = PlanIds::of(alloc, plan)?;
    let Some(text) = kept else {
        return Ok(ids);
    };
    let Some(kept) = read_ids(alloc, text)? else {
        return Err(IdsFault::Broken);
    };
    match other_of(&kept, &ids) {
        Some(other) if !renumber => Err(IdsFault::Renumbered(other)),
        _ => {
            ids.keep(&kept)?;
            Ok(ids)
        }
    }
}

/// The ids that a text keeps: `None` if it keeps none.
fn read_ids(alloc: Global, text: &str) -> Result<Option<PlanIds>, AllocError>
    ensures { IfOk result (λ ids. ids ≡ ids_in_text text.now) }
{
    let document = match toml::table_from_str(alloc, text) {
        Ok(document) => document,
        Err(error) => match error.span() {
            Some(_) => return Ok(None),
            None => return Err(AllocError),
        },
    };
    let Some(peers) = stations_at(alloc, &document, "peers")? else {
        return Ok(None);
    };
    let Some(hops) = stations_at(alloc, &document, "hops")? else {
        return Ok(None);
    };
    Ok(Some(PlanIds { peers, hops }))
}

/// The stations in the array at a key: `None` if there is no array of stations.
fn stations_at(alloc: Global, table: &Table, key: &str) -> Result<Option<Vec<u16>>, AllocError>
    ensures { IfOk result (λ stations. option_map (λ v. v.items) stations
        ≡ items_at station_in (get_member key.now (table_view table.now))) }
{
    let Some(value) = value_at(table, key) else {
        return Ok(None);
    };
    match value.as_array() {
        Some(values) => each_station(alloc, values),
        None => Ok(None),
    }
}

fn each_station(alloc: Global, values: &Array) -> Result<Option<Vec<u16>>, AllocError>
    ensures { IfOk result
        (λ stations. option_map (λ v. v.items) stations ≡ each_item station_in (array_view values.now)) }
{
    let mut stations = Vec::new(alloc);
    for value in values {
        let Some(station) = station_in(value) else {
            return Ok(None);
        };
        stations.push(station)?;
    }
    Ok(Some(stations))
}

/// A station's number: `None` if the value is none.
fn station_in(value: &Value) -> Option<u16>
    ensures { result ≡ station_in (view value.now) }
{
    let Some(number) = value.as_integer() else {
        return None;
    };
    match u16::try_from(number) {
        Ok(0) | Err(_) => None,
        Ok(station) => Some(station),
    }
}
