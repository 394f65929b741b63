//! A picture of a network.

ghost use Rattle.std.specs.Prelude.{◌≡◌, ◌++◌, ℕ, IfOk, List, OnOk, length, string_bytes};
ghost use Rattle.rly_network_file.specs.Picture.{HasStationLines, station_line, station_lines};

use crate::fault::NetworkFault;
use crate::folders::Folder;
use crate::links::Link;
use crate::names::name_of;
use crate::network_file::NetworkFile;
use crate::stations::find;
use std::alloc::{AllocError, Global};

/// A graph of the network in the language of Graphviz: stations, applications, and links with their rate, their
/// contacts and the destinations that are led over them.
pub fn draw(alloc: Global, file: &NetworkFile) -> Result<String, NetworkFault>
    ensures stations { IfOk result (λ text. HasStationLines file.now.numbers.items (string_bytes text)) }
{
    let mut text = String::from_str(
        alloc,
        "digraph network {\n    rankdir = LR;\n    node [shape = box, style = rounded];\n",
    )?;
    draw_stations(&mut text, file)?;
    let rest = folders_and_links(alloc, file)?;
    text.push_str(rest.as_str())?;
    Ok(text)
}

fn draw_stations(text: &mut String, file: &NetworkFile) -> Result<(), AllocError>
    ensures { OnOk result ((names : List (List ℕ)) × (length names ≡ length file.now.numbers.items)
        × (string_bytes text.new ≡ string_bytes text.old ++ station_lines file.now.numbers.items names)) }
{
    for number in &file.numbers {
        let name = match find(&file.stations, number.0) {
            Some(station) => station.name.as_str(),
            None => "",
        };
        draw_station(text, number.0, name)?;
    }
    Ok(())
}

fn draw_station(text: &mut String, number: u16, name: &str) -> Result<(), AllocError>
    ensures { OnOk result (string_bytes text.new ≡ string_bytes text.old ++ station_line number name.now) }
{
    writeln!(text, "    s{number} [label = \"{name}\\n{number}\"];")
}

fn folders_and_links(alloc: Global, file: &NetworkFile) -> Result<String, NetworkFault> {
    let mut text = String::new(alloc);
    for (index, folder) in file.folders.iter().enumerate() {
        draw_folder(&mut text, file, folder, index)?;
    }
    for link in &file.links {
        draw_link(&mut text, file, link)?;
    }
    text.push_str("}\n")?;
    Ok(text)
}

fn draw_folder(
    text: &mut String,
    file: &NetworkFile,
    folder: &Folder,
    index: usize,
) -> Result<(), NetworkFault> {
    let (number, station) = (folder.number, folder.station);
    if number != station {
        let name = name_of(&file.names, number).unwrap_or("");
        writeln!(
            text,
            "    f{index} [shape = folder, style = \"\", label = \"{name}\\n{number}\"];"
        )?;
    } else {
        writeln!(
            text,
            "    f{index} [shape = folder, style = \"\", label = \"\"];"
        )?;
    }
    if folder.incoming.is_some() {
        writeln!(text, "    f{index} -> s{station};")?;
    }
    if folder.outgoing.is_some() {
        writeln!(text, "    s{station} -> f{index};")?;
    }
    Ok(())
}

fn draw_link(text: &mut String, file: &NetworkFile, link: &Link) -> Result<(), NetworkFault> {
    let (from, to) = (link.from, link.to);
    write!(text, "    s{from} -> s{to} [label = \"")?;
    if let Some(rate) = link.settings.rate {
        write!(text, "{rate} B/s\\n")?;
    }
    let index = link.settings.contacts;
    match file.contacts.get(index) {
        // The first contacts last always.
        Some(contacts) if index > 0 => {
            let (name, count) = (contacts.name.as_str(), contacts.count);
            write!(text, "{name} {count} contacts\\n")?;
        }
        _ => (),
    }
    draw_destinations(text, file, link)?;
    text.push_str("\"];\n")?;
    Ok(())
}

/// The destinations that are led over a link.
fn draw_destinations(
    text: &mut String,
    file: &NetworkFile,
    link: &Link,
) -> Result<(), NetworkFault> {
    for step in &file.steps {
        if step.station == link.from && step.next == link.to {
            match step.destination {
                Some(number) => match name_of(&file.names, number) {
                    Some(name) => write!(text, "to {name}\\n")?,
                    None => write!(text, "to {number}\\n")?,
                },
                None => text.push_str("to the rest\\n")?,
            }
        }
    }
    Ok(())
}
