//! Whether no neighbour has two ids.

ghost use Rattle.std.specs.Prelude.{◌≡◌, ◌==◌, map};
ghost use Rattle.std.specs.List.{list_any};
ghost use Rattle.rly_plan.specs.Passes.{repeats};
ghost use Rattle.rly_network_file.specs.Ids.{are_distinct, rows_repeat};

use crate::ids::StationIds;

/// Whether no station is there twice, and no neighbour of a station has two ids.
pub(crate) fn are_distinct(stations: &[StationIds]) -> bool
    ensures { result ≡ are_distinct stations.now }
{
    !numbers_repeat(stations) && !rows_repeat(stations)
}

fn numbers_repeat(stations: &[StationIds]) -> bool
    ensures { result ≡ repeats (map (λ s. s.number) stations.now) }
{
    for index in 0..stations.len() {
        let station = &stations[index];
        let later = &stations[index + 1..];
        if is_there(later, station.number) {
            return true;
        }
    }
    false
}

fn rows_repeat(stations: &[StationIds]) -> bool
    ensures { result ≡ rows_repeat stations.now }
{
    for station in stations {
        if repeats(&station.peers) || repeats(&station.hops) {
            return true;
        }
    }
    false
}

/// Whether a number occurs twice.
fn repeats(numbers: &[u16]) -> bool
    ensures { result ≡ repeats numbers.now }
{
    for index in 0..numbers.len() {
        if has(&numbers[index + 1..], numbers[index]) {
            return true;
        }
    }
    false
}

fn has(numbers: &[u16], number: u16) -> bool
    ensures { result ≡ list_any (λ y. y == number) numbers.now }
{
    for other in numbers {
        if *other == number {
            return true;
        }
    }
    false
}

/// Whether a station is there.
pub(crate) fn is_there(stations: &[StationIds], number: u16) -> bool
    ensures { result ≡ list_any (λ y. y == number) (map (λ s. s.number) stations.now) }
{
    for station in stations {
        if station.number == number {
            return true;
        }
    }
    false
}
