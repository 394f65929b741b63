//! The paths of a network file, as a table of next hops.

use crate::fault::{NetworkFault, fault_at, fault_of_key};
use crate::names::{Name, named, named_by_text, numbers_of};
use crate::stations::{Station, find};
use crate::values::{check_keys, table_of, tables_at};
use std::alloc::Global;
use toml::{Table, Value};

/// Where a station sends what goes to a destination.
#[derive(Clone, Copy)]
pub(crate) struct Step {
    /// The number of its table, from 1.
    pub table: usize,
    pub station: u16,
    /// `None` for the rest.
    pub destination: Option<u16>,
    /// The neighbour.
    pub next: u16,
}

/// The steps of all paths, and those by which ways end.
#[derive(Drop)]
struct Steps {
    all: Vec<Step>,
    /// From the last station of each way to the destination itself: taken unless another way leads on from there.
    ends: Vec<Step>,
}

/// The steps of all paths, in the file's order, and then those from the last station of a way to the destination.
pub(crate) fn read_paths(
    alloc: Global,
    document: &Table,
    names: &[Name],
    stations: &[Station],
) -> Result<Vec<Step>, NetworkFault> {
    let mut steps = Steps {
        all: Vec::new(alloc),
        ends: Vec::new(alloc),
    };
    let values = tables_at(alloc, document, "path")?;
    for (index, value) in values.iter().enumerate() {
        let number = index.saturating_add(1);
        let place = format!(in alloc; "path[{number}]")?;
        let table = table_of(alloc, value, place.as_str())?;
        check_keys(alloc, table, place.as_str(), &["to", "via", "next"])?;
        let destinations = read_destinations(alloc, names, table, place.as_str())?;
        for destination in &destinations {
            let path = Path {
                table: number,
                destination: *destination,
            };
            path.push_ways(alloc, &mut steps, names, table, place.as_str())?;
            path.push_next(alloc, &mut steps, names, table, place.as_str())?;
        }
    }
    let Steps { mut all, ends } = steps;
    push_ends(&mut all, &ends)?;
    check_steps(alloc, &all, stations)?;
    Ok(all)
}

/// Refuses a way on which another than a station sends.
fn check_steps(alloc: Global, steps: &[Step], stations: &[Station]) -> Result<(), NetworkFault> {
    for step in steps {
        if find(stations, step.station).is_none() {
            let (table, number) = (step.table, step.station);
            return Err(NetworkFault::Found(format!(in alloc;
                "path[{table}]: {number} isn't a station, so nothing goes on from it\n"
            )?));
        }
    }
    Ok(())
}

fn push_ends(steps: &mut Vec<Step>, ends: &[Step]) -> Result<(), NetworkFault> {
    for end in ends {
        if step_of(steps, end.station, end.destination).is_none() {
            steps.push(*end)?;
        }
    }
    Ok(())
}

/// The destinations of a path: `None` is the rest.
fn read_destinations(
    alloc: Global,
    names: &[Name],
    table: &Table,
    place: &str,
) -> Result<Vec<Option<u16>>, NetworkFault> {
    let mut destinations = Vec::new(alloc);
    match table.get("to") {
        Some(Value::String(text)) if text.as_str() == "rest" => destinations.push(None)?,
        Some(value) => {
            let place = format!(in alloc; "{place}.to")?;
            let numbers = numbers_of(alloc, names, value, place.as_str())?;
            for number in &numbers {
                destinations.push(Some(*number))?;
            }
        }
        None => return Err(fault_of_key(alloc, place, "to", "missing; write a destination")),
    }
    Ok(destinations)
}

/// A table of paths to one destination.
#[derive(Clone, Copy)]
struct Path {
    table: usize,
    destination: Option<u16>,
}

impl Path {
    /// Appends the steps of a table of next hops.
    fn push_next(
        self,
        alloc: Global,
        steps: &mut Steps,
        names: &[Name],
        table: &Table,
        place: &str,
    ) -> Result<(), NetworkFault> {
        let next = match table.get("next") {
            Some(Value::Table(next)) => next,
            Some(_) => return Err(fault_of_key(alloc, place, "next", "write a table of stations")),
            None => return Ok(()),
        };
        for (key, value) in next {
            let Some(station) = named_by_text(names, key.as_str()) else {
                let text = "a key is neither a name nor a number";
                return Err(fault_of_key(alloc, place, "next", text));
            };
            let place = format!(in alloc; "{place}.next.{key}")?;
            let next = named(alloc, names, value, place.as_str())?;
            self.push_step(alloc, steps, station, next, place.as_str())?;
        }
        Ok(())
    }

    fn push_ways(
        self,
        alloc: Global,
        steps: &mut Steps,
        names: &[Name],
        table: &Table,
        place: &str,
    ) -> Result<(), NetworkFault> {
        let ways = match table.get("via") {
            Some(Value::Array(ways)) => ways,
            Some(_) => {
                let text = "write an array of arrays of stations";
                return Err(fault_of_key(alloc, place, "via", text));
            }
            None => return Ok(()),
        };
        for (index, way) in ways.iter().enumerate() {
            let place = format!(in alloc; "{place}.via[{}]", index.saturating_add(1))?;
            match way {
                Value::Array(way) => self.push_way(alloc, steps, names, way, place.as_str())?,
                _ => return Err(fault_at(alloc, place.as_str(), "write an array of stations")),
            }
        }
        Ok(())
    }

    /// Appends the steps from each station of a way to the next one. Its first item may be an array of stations, each
    /// of which sends to the second. Its last station sends to the destination itself, unless it is that or another
    /// way leads on from it.
    fn push_way(
        self,
        alloc: Global,
        steps: &mut Steps,
        names: &[Name],
        way: &[Value],
        place: &str,
    ) -> Result<(), NetworkFault> {
        let mut before: Vec<u16> = Vec::new(alloc);
        for stations in way {
            let at = numbers_of(alloc, names, stations, place)?;
            match at.first() {
                Some(_) if at.len() > 1 && !before.is_empty() => {
                    let text = "two next hops; only a way's first station may be an array";
                    return Err(fault_at(alloc, place, text));
                }
                Some(next) => {
                    for station in &before {
                        self.push_step(alloc, steps, *station, *next, place)?;
                    }
                }
                None => return Err(fault_at(alloc, place, "an array without stations")),
            }
            before = at;
        }
        self.push_end(steps, &before)
    }

    fn push_end(self, steps: &mut Steps, last: &[u16]) -> Result<(), NetworkFault> {
        let Some(next) = self.destination else {
            return Ok(());
        };
        for station in last {
            if *station != next {
                steps.ends.push(Step {
                    table: self.table,
                    station: *station,
                    destination: Some(next),
                    next,
                })?;
            }
        }
        Ok(())
    }

    fn push_step(
        self,
        alloc: Global,
        steps: &mut Steps,
        station: u16,
        next: u16,
        place: &str,
    ) -> Result<(), NetworkFault> {
        match step_of(&steps.all, station, self.destination) {
            Some(other) if other.next != next => {
                let (number, first) = (other.table, other.next);
                let text = format!(in alloc;
                    "two next hops of station {station}: {next}, and {first} by path[{number}]"
                )?;
                Err(fault_at(alloc, place, text.as_str()))
            }
            Some(_) => Ok(()),
            None => {
                let Path { table, destination } = self;
                steps.all.push(Step {
                    table,
                    station,
                    destination,
                    next,
                })?;
                Ok(())
            }
        }
    }
}

/// The step of a station to a destination, or to the rest.
pub(crate) fn step_of(steps: &[Step], station: u16, destination: Option<u16>) -> Option<Step> {
    for step in steps {
        if step.station == station && step.destination == destination {
            return Some(*step);
        }
    }
    None
}
