//! The lines for standard error of a command's fault: those of the fault, with the file, the option or the key that it
//! is about, and what to do.

use crate::file_look::{Look, look_at};
use crate::program_fault::ProgramFault;
use rly_core::Refusal;
use rly_daemon_args::Settings;
use rly_daemon_commands::{CommandFault, FileDisk, OptionFault, format_fault, params_fault};
use rly_daemon_folder::FolderCommandFault;
use rly_link::Worker;
use rly_network_command::{NetworkCommandFault, plan_and_device};
use rly_plan::KeyPath;
use rly_plan_show::{plan_advice_of, room_text_of};
use rly_segment::read_header;
use rly_station::{
    Cause, FileFault, FilePart, KeyFault, KeyWord, ServeFault, SystemWord, WorkerName, read_plan,
};
use std::alloc::{AllocError, Global};
use std::fs;
use std::fs::{File, Files};
use std::io::ErrorKind;

/// The order of the files of `serve`.
const ORDER: &str = "`rly serve FILE PLAN` has the device first";

/// The front of a line on the folder of `put` or `get`.
const FOLDER: &str = "rly: folder: ";

/// The limits on threads and on open files.
const THREADS: &str = "`ulimit -u`, or `TasksMax=` of its unit, limits threads";

const FILES: &str = "`ulimit -n`, or `LimitNOFILE=` of its unit, limits open files";

/// The lines of a fault of the program, each with its newline.
pub(crate) fn complaint_of<H: AllocGlobal + Files<File = File>>(
    rt: &H,
    settings: &Settings<'_>,
    fault: &ProgramFault,
) -> Result<String, AllocError> {
    match fault {
        ProgramFault::Command(fault) => command_complaint(rt, settings, fault),
        ProgramFault::Folder(fault) => folder_complaint(rt.alloc(), settings, fault),
        ProgramFault::Network(fault) => network_complaint(rt, settings, fault),
        // The output has it.
        ProgramFault::Disagreement => Ok(String::new(rt.alloc())),
    }
}

/// The lines of the fault of `network`. A plan that was refused has those of `plan`.
fn network_complaint<H: AllocGlobal + Files<File = File>>(
    rt: &H,
    settings: &Settings<'_>,
    fault: &NetworkCommandFault,
) -> Result<String, AllocError> {
    match (settings, fault) {
        (Settings::NetworkCheck { names }, NetworkCommandFault::Plan(index, fault))
            if *index < names.len() => {
            let (plan, device) = plan_and_device(names[*index]);
            let settings = Settings::Plan {
                plan,
                at: None,
                device,
                was: None,
            };
            command_complaint(rt, &settings, fault)
        }
        // Its lines have their newlines.
        (
            Settings::NetworkWrite { file, .. } | Settings::NetworkDraw { file },
            NetworkCommandFault::Found(lines),
        ) => format!(in rt.alloc(); "rly: network failed\nrly: network: {file}: {lines}"),
        _ => format!(in rt.alloc(); "{fault}\n"),
    }
}

/// The lines of the fault of `put` or `get`, with the path of its folder.
fn folder_complaint(
    alloc: Global,
    settings: &Settings<'_>,
    fault: &FolderCommandFault,
) -> Result<String, AllocError> {
    let text = format!(in alloc; "{fault}\n")?;
    match (settings, text.split_once(FOLDER)) {
        (Settings::Put { folder, .. } | Settings::Get { folder, .. }, Some((front, rest))) => {
            format!(in alloc; "{front}{FOLDER}{folder}: {rest}")
        }
        _ => Ok(text),
    }
}

/// The lines of the fault of a command that uses no folder.
fn command_complaint<H: AllocGlobal + Files<File = File>>(
    rt: &H,
    settings: &Settings<'_>,
    fault: &CommandFault,
) -> Result<String, AllocError> {
    let device = device_of(settings).unwrap_or("");
    match fault {
        CommandFault::Refused(refusal, Cause::Options) => {
            options_complaint(rt.alloc(), settings, *refusal)
        }
        CommandFault::Refused(refusal, cause) => device_complaint(rt, settings, *refusal, cause),
        CommandFault::Live(count) => format!(in rt.alloc();
            "refused 23 device\nrly: device: {device}: live datagrams: {count}; --force formats it, and they are lost\n"
        ),
        CommandFault::Serve(fault) => serve_complaint(rt, settings, fault),
        CommandFault::NoThread(worker) => thread_complaint(rt.alloc(), *worker),
        fault => format!(in rt.alloc(); "{fault}\n"),
    }
}

/// The lines of a thread that there wasn't: for a worker, or for the reports or the events.
fn thread_complaint(alloc: Global, worker: Option<Worker>) -> Result<String, AllocError> {
    match worker {
        Some(worker) => format!(in alloc;
            "rly: worker failed\nrly: {}: no thread for it; {THREADS}\n",
            WorkerName(worker)
        ),
        None => format!(in alloc;
            "rly: worker failed\nrly: reports or events: no thread; {THREADS}\n"
        ),
    }
}

/// The lines of the fault of a relay, of its plan or of its keys.
fn serve_complaint<H: AllocGlobal + Files<File = File>>(
    rt: &H,
    settings: &Settings<'_>,
    fault: &ServeFault,
) -> Result<String, AllocError> {
    match fault {
        ServeFault::Refused(refusal, Cause::Plan) => room_complaint(rt, settings, *refusal),
        ServeFault::Refused(refusal, cause @ (Cause::Header | Cause::System(_))) => {
            device_complaint(rt, settings, *refusal, cause)
        }
        ServeFault::Plan(_) | ServeFault::SpecialPlan => plan_complaint(rt, settings, fault),
        ServeFault::Refused(refusal, Cause::At(place)) => {
            place_complaint(rt, settings, *refusal, *place, fault)
        }
        ServeFault::Worker => format!(in rt.alloc(); "{fault}\nrly: no eventfd for it; {FILES}\n"),
        ServeFault::Key(key) => key_complaint(rt.alloc(), key),
        fault => format!(in rt.alloc(); "{fault}\n"),
    }
}

/// The lines of options that are out of their limits: the first of them.
fn options_complaint(
    alloc: Global,
    settings: &Settings<'_>,
    refusal: Refusal,
) -> Result<String, AllocError> {
    match option_fault_of(settings) {
        Some(fault) => format!(in alloc; "{refusal}\n{fault}\n"),
        None => format!(in alloc; "{refusal}{}\n", Cause::Options),
    }
}

/// The first option of a command that is out of its limits.
fn option_fault_of(settings: &Settings<'_>) -> Option<OptionFault> {
    match settings {
        Settings::Sim { params } => params_fault(params).err(),
        Settings::Format {
            params,
            segments,
            length,
            ..
        } => format_fault(params, *segments, *length).err(),
        _ => None,
    }
}

/// The lines of a device that was refused, or of which a call failed.
fn device_complaint<H: AllocGlobal + Files<File = File>>(
    rt: &H,
    settings: &Settings<'_>,
    refusal: Refusal,
    cause: &Cause,
) -> Result<String, AllocError> {
    let alloc = rt.alloc();
    let Some(file) = device_of(settings) else {
        return format!(in alloc; "{refusal}{cause}\n");
    };
    match (refusal, cause) {
        (_, Cause::System(fault)) => {
            let FileFault { part, word } = fault;
            let advice = advice_for(settings, fault);
            format!(in alloc; "{refusal}\nrly: {part}: {file}: {word}{advice}\n")
        }
        (_, Cause::Header) => format!(in alloc;
            "{refusal}\nrly: device: {file}: header value out of limits, or file too short\n"
        ),
        (Refusal::NotADevice, _) => {
            let word = foreign_word(look_at(rt, file));
            format!(in alloc; "{refusal}\nrly: device: {file}: {word}\n")
        }
        (Refusal::Damaged(place), _) => {
            format!(in alloc; "{refusal}\nrly: device: {file}: damaged at byte {place}\n")
        }
        _ => format!(in alloc; "{refusal}{cause}\n"),
    }
}

/// What a file is that is no device.
fn foreign_word(look: Look) -> &'static str {
    match look {
        Look::Text => "a text, not a device; `rly serve FILE PLAN` has the device first",
        Look::Device | Look::Other => "not a device; `rly format` makes one",
    }
}

/// What to do about the file of a device.
fn advice_for(settings: &Settings<'_>, fault: &FileFault) -> &'static str {
    let SystemWord(error) = fault.word;
    match (settings, fault.part) {
        (Settings::Format { .. }, FilePart::Device) if error.kind() == ErrorKind::NotFound => {
            "; its folder has to be there"
        }
        (_, FilePart::Device) if error.kind() == ErrorKind::NotFound => "; `rly format` makes it",
        (Settings::Audit { copy: true, .. }, FilePart::Permission) => {
            "; its user has to be able to read it"
        }
        (_, FilePart::Permission) => "; its user has to be able to read and write it",
        _ => "",
    }
}

/// The lines of a plan that has more neighbours than the device: all four numbers, if both can be read.
fn room_complaint<H: AllocGlobal + Files<File = File>>(
    rt: &H,
    settings: &Settings<'_>,
    refusal: Refusal,
) -> Result<String, AllocError> {
    match room_text(rt, settings)? {
        Some(text) => format!(in rt.alloc(); "{refusal}\n{text}"),
        None => format!(in rt.alloc(); "{refusal}{}\n", Cause::Plan),
    }
}

/// The line with all four numbers.
fn room_text<H: AllocGlobal + Files<File = File>>(
    rt: &H,
    settings: &Settings<'_>,
) -> Result<Option<String>, AllocError> {
    let (Some(file), Some(path)) = (device_of(settings), plan_of(settings)) else {
        return Ok(None);
    };
    let (Ok(mut disk), Ok(plan)) = (FileDisk::open_copy(rt, file), read_plan(rt, path)) else {
        return Ok(None);
    };
    match read_header(&mut disk) {
        Ok(geometry) => Ok(Some(room_text_of(rt.alloc(), &plan, &geometry.params)?)),
        Err(_) => Ok(None),
    }
}

/// The lines of a plan that can't be read: it may be the device.
fn plan_complaint<H: AllocGlobal + Files<File = File>>(
    rt: &H,
    settings: &Settings<'_>,
    fault: &ServeFault,
) -> Result<String, AllocError> {
    let alloc = rt.alloc();
    let path = plan_of(settings).unwrap_or("");
    let word = match fault {
        ServeFault::SpecialPlan => {
            return format!(in alloc; "rly: plan failed\nrly: plan: {path}: not a regular file\n");
        }
        ServeFault::Plan(word) => Some(word),
        _ => None,
    };
    match (word, look_at(rt, path)) {
        (_, Look::Device) => format!(in alloc;
            "rly: plan failed\nrly: plan: {path}: a device, not a plan; {ORDER}\n"
        ),
        (Some(word), _) => format!(in alloc; "rly: plan failed\nrly: plan: {path}: {word}\n"),
        (None, _) => format!(in alloc; "{fault}\n"),
    }
}

/// The lines of a plan that was refused: what is at the location of its first fault, and what to write there.
fn place_complaint<H: AllocGlobal + Files<File = File>>(
    rt: &H,
    settings: &Settings<'_>,
    refusal: Refusal,
    place: KeyPath,
    fault: &ServeFault,
) -> Result<String, AllocError> {
    let path = plan_of(settings).unwrap_or("");
    if let Look::Device = look_at(rt, path) {
        return plan_complaint(rt, settings, fault);
    }
    match fs::read_to_string(rt, path) {
        Ok(text) => {
            let advice = plan_advice_of(rt.alloc(), text.as_str(), refusal, place)?;
            format!(in rt.alloc(); "{fault}: {advice}\n")
        }
        Err(_) => format!(in rt.alloc(); "{fault}\n"),
    }
}

/// The lines of a key's file: permissions of others are taken away by one command.
fn key_complaint(alloc: Global, key: &KeyFault) -> Result<String, AllocError> {
    let path = key.path.as_str();
    match key.word {
        KeyWord::Shared(_) => format!(in alloc; "rly: key failed\nrly: {key}: chmod 600 {path}\n"),
        KeyWord::Form => format!(in alloc; "rly: key failed\nrly: {key}; `rly key` makes one\n"),
        KeyWord::System(_) | KeyWord::Special => {
            format!(in alloc; "rly: key failed\nrly: {key}\n")
        }
    }
}

/// The path of a command's device.
fn device_of<'a>(settings: &Settings<'a>) -> Option<&'a str> {
    match *settings {
        Settings::Format { file, .. }
        | Settings::Play { file, .. }
        | Settings::Audit { file, .. }
        | Settings::Serve { file, .. } => Some(file),
        Settings::Plan { device, .. } => device,
        _ => None,
    }
}

/// The path of a command's plan.
fn plan_of<'a>(settings: &Settings<'a>) -> Option<&'a str> {
    match *settings {
        Settings::Serve { plan, .. } | Settings::Plan { plan, .. } => Some(plan),
        _ => None,
    }
}
