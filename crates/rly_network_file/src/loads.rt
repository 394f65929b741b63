//! Whether links carry what their applications give.

use crate::fault::NetworkFault;
use crate::folders::Folder;
use crate::links::Link;
use crate::network_file::NetworkFile;
use crate::paths::step_of;
use std::alloc::Global;

/// Refuses a link whose rate, in the time that its contacts are open, carries less than what comes to it.
pub(crate) fn check_loads(alloc: Global, file: &NetworkFile) -> Result<(), NetworkFault> {
    let mut lines = String::new(alloc);
    for link in &file.links {
        if let Some(rate) = link.settings.rate {
            let load = load_of(file, link);
            if !is_carried(file, link, rate, load) {
                let table = link.table;
                let (from, to) = (link.from, link.to);
                writeln!(
                    &mut lines,
                    "link[{table}].rate: {load} bytes a second go from station {from} to {to}, and contacts at this rate carry less"
                )?;
            }
        }
    }
    if lines.is_empty() {
        Ok(())
    } else {
        Err(NetworkFault::Found(lines))
    }
}

/// Whether a rate carries a load in the seconds that the link is open, from its first contact to its last.
fn is_carried(file: &NetworkFile, link: &Link, rate: u64, load: u64) -> bool {
    match file.contacts.get(link.settings.contacts) {
        Some(contacts) => {
            let span = contacts.end.saturating_sub(contacts.begin) / 1_000_000;
            let open = contacts.open / 1_000_000;
            load.saturating_mul(span) <= rate.saturating_mul(open)
        }
        None => true,
    }
}

/// What the applications give whose way leads over a link, in bytes a second.
fn load_of(file: &NetworkFile, link: &Link) -> u64 {
    let mut load: u64 = 0;
    for folder in &file.folders {
        if let (Some(given), Some(destination)) = (
            folder.settings.load,
            folder.settings.destination,
        ) {
            if leads_over(file, folder, destination, link) {
                load = load.saturating_add(given);
            }
        }
    }
    load
}

/// Whether the way of what a folder gives leads over a link.
fn leads_over(file: &NetworkFile, folder: &Folder, destination: u16, link: &Link) -> bool {
    let mut station = folder.station;
    for _ in 0..file.stations.len() {
        let step = match step_of(&file.steps, station, Some(destination)) {
            Some(step) => Some(step),
            None => step_of(&file.steps, station, None),
        };
        match step {
            Some(step) if station == link.from && step.next == link.to => return true,
            Some(step) => station = step.next,
            None => return false,
        }
    }
    false
}
