//! A network as its file gives it.

ghost use Rattle.std.specs.Prelude.{◌≡◌, option_map, true, IfOk};
ghost use Rattle.toml.specs.Parse.{parse_document};
ghost use Rattle.toml.specs.View.{view};
ghost use Rattle.rly_network_file.specs.NetworkText.{HasStations, is_array, is_network};

use crate::contacts::{Contacts, read_all};
use crate::fault::NetworkFault;
use crate::folders::{Folder, read_folders, read_names};
use crate::links::{Link, read_links};
use crate::names::Name;
use crate::passes::PassFile;
use crate::paths::{Step, read_paths};
use crate::stations::{Station, StationNumber, numbers_in, read_stations};
use crate::values::{check_keys, document_of};
use rly_plan_syntax::value_at;
use std::alloc::Global;
use toml::Value;

/// A network as its file gives it: its stations, links, applications, and the next hop of each destination. `write`
/// checks where they lead together.
#[derive(Drop)]
pub struct NetworkFile {
    /// The numbers of its stations, in the file's order.
    pub numbers: Vec<StationNumber>,
    pub(crate) names: Vec<Name>,
    pub(crate) stations: Vec<Station>,
    pub(crate) contacts: Vec<Contacts>,
    pub(crate) links: Vec<Link>,
    pub(crate) folders: Vec<Folder>,
    pub(crate) steps: Vec<Step>,
}

const KEYS: [&str; 9] = [
    "port", "step", "key", "device", "contacts", "station", "link", "folder", "path",
];

impl NetworkFile {
    /// Reads a network file (`docs/NETWORK.md`, "A network file") with the files of passes that it names. The first fault is
    /// returned with its place.
    pub fn from_toml(
        alloc: Global,
        text: &str,
        passes: &[PassFile],
    ) -> Result<NetworkFile, NetworkFault>
        ensures stations { IfOk result (λ file. HasStations text.now file.numbers.items) }
    {
        let document = document_of(alloc, text)?;
        check_keys(alloc, &document, "the top", &KEYS)?;
        let mut names = Vec::new(alloc);
        let stations = read_stations(alloc, &document, &mut names)?;
        let numbers = numbers_in(alloc, &document)?;
        read_names(alloc, &document, &mut names)?;
        let mut contacts = read_all(alloc, &document, passes)?;
        let links = read_links(alloc, &document, &names, &stations, &mut contacts)?;
        let folders = read_folders(alloc, &document, &names, &stations, &links, &mut contacts)?;
        let steps = read_paths(alloc, &document, &names, &stations)?;
        Ok(NetworkFile {
            numbers,
            names,
            stations,
            contacts,
            links,
            folders,
            steps,
        })
    }
}

/// Whether a text is a network file and no plan: TOML whose `station` is an array. A plan's is a number.
/// False also if memory was refused.
pub fn is_network(alloc: Global, text: &str) -> bool
    ensures network { result ≡ true → is_network (parse_document text.now) ≡ true }
{
    match toml::table_from_str(alloc, text) {
        Ok(document) => is_array(value_at(&document, "station")),
        Err(_) => false,
    }
}

fn is_array(found: Option<&Value>) -> bool
    ensures { result ≡ is_array (option_map (λ v. view v.now) found.entry) }
{
    match found {
        Some(value) => value.is_array(),
        None => false,
    }
}
