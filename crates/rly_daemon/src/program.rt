//! The program: its command line, its commands and its status.

ghost use Rattle.std.specs.Prelude.{◌≡◌, ◌≤◌, ◌⊎◌, [], Err, IfErr, IfOk, OnOk, if◌then◌else◌, map, true};
ghost use denote.Ref.{Bor};
ghost use Rattle.rly_daemon_args.specs.CommandLine.{AsksHelp, IsSettings, asked_of, kinds_at};
ghost use Rattle.rly_daemon_args.specs.declared.given.Settings.{Settings as ASettings};
ghost use Rattle.rly_daemon_commands.specs.NewKey.{HasKey};
ghost use Rattle.rly_daemon.specs.Helpers.{WasAsked};
ghost use Rattle.rly_daemon.specs.Program.{IsDone, IsOutOfLimits, Waits, is_wait_over};

use crate::complaint::complaint_of;
use crate::folder_commands::{get_files, put_files};
use crate::network_commands::{check_network, draw_network, write_network};
use crate::program_fault::ProgramFault;
use crate::serve_command::run_serving;
use rly_core::Refusal;
use rly_daemon_args::{Settings, SettingsFault, settings};
use rly_daemon_commands::{
    CommandFault, run_audit, run_format, run_plan, run_play, run_sim, write_key,
};
use rly_daemon_folder::Form;
use rly_daemon_lines::TextFault;
use rly_daemon_serve::RelaySettings;
use rly_station::Cause;
use std::alloc::{AllocError, Global};
use std::convert::AsStr;
use std::env::Env;
use std::fmt::Display;
use std::fs::{File, Files};
use std::io::{Read, Write};
use std::net::Net;
use std::random::RandomSource;
use std::sync::Wait;
use std::thread::Threads;
use std::time::{Clock, Duration};

/// The requirements of the program on its runtime. Only `rly serve` starts threads and waits for them; it, `rly put` and
/// `rly get` use the network, only `rly key` and `rly network write` use randomness, and only `rly serve` reads the
/// environment.
pub trait Host: AllocGlobal
    + Files<File = File>
    + Net
    + Threads
    + Wait
    + Clock
    + RandomSource
    + Env
    + Sync {}

impl<
    H: AllocGlobal + Files<File = File> + Net + Threads + Wait + Clock + RandomSource + Env + Sync,
> Host for H {}

/// Runs the program on a command line, the program's name first, and returns its exit status: 0, even if reply
/// lines are refusals; 1 if a command failed, or a journal ended broken; 2 for a bad command line; 3 if a put has no
/// custody yet after its wait. Replies, help and version go to `writer`, errors to `errors`.
pub fn run<H: Host, S: AsStr, R: Read, W: Write + Send, E: Write>(
    rt: &H,
    words: &[S],
    reader: &mut R,
    writer: &mut W,
    errors: &mut E,
) -> u8
where
    H::Dir: Send + Sync,
    H::Stream: Send + Sync,
    H::Listener: Send + Sync,
    ensures status { result ≤ 3 }
    // A bad command line is refused before anything is read, and writes only the reason.
    ensures bad { result ≡ 2 → (reader.new ≡ reader.old) × (writer.new ≡ writer.old) }
    // If it succeeds, the words ask for help or the version, or their command was executed.
    ensures done { result ≡ 0 → (AsksHelp (map S.text words.now) × (reader.new ≡ reader.old))
        ⊎ ((settings : ASettings) × IsSettings (asked_of (map S.text words.now)) settings
        × (kinds_at (map S.text words.now) ≡ [])
        × IsDone (Bor H) settings reader.old reader.new (R.remaining reader.old) (W.contents writer.old)
        (W.contents writer.new) (E.contents errors.old) (E.contents errors.new)) }
    // Only a put waits for custody.
    ensures over { result ≡ 3 → (settings : ASettings) × IsSettings (asked_of (map S.text words.now)) settings
        × Waits settings }
{
    match texts_of(rt.alloc(), words) {
        Ok(texts) => run_texts(rt, texts.as_slice(), reader, writer, errors),
        Err(_refused) => fail(&SettingsFault::OutOfMemory, errors),
    }
}

/// The texts of words.
fn texts_of<'a, S: AsStr>(alloc: Global, words: &'a [S]) -> Result<Vec<&'a str>, AllocError>
    ensures { IfOk result (λ texts. map (λ s. s.now) texts.items ≡ map S.text words.now) }
{
    let mut texts = Vec::new(alloc);
    for word in words {
        texts.push(word.as_str())?;
    }
    Ok(texts)
}

/// Runs the program on the texts of a command line's words.
fn run_texts<'a, H: Host, R: Read, W: Write + Send, E: Write>(
    rt: &H,
    words: &'a [&'a str],
    reader: &mut R,
    writer: &mut W,
    errors: &mut E,
) -> u8
where
    H::Dir: Send + Sync,
    H::Stream: Send + Sync,
    H::Listener: Send + Sync,
    ensures status { result ≤ 3 }
    ensures bad { result ≡ 2 → (reader.new ≡ reader.old) × (writer.new ≡ writer.old) }
    ensures done { result ≡ 0 → (AsksHelp (map (λ s. s.now) words.now) × (reader.new ≡ reader.old))
        ⊎ ((settings : ASettings) × IsSettings (asked_of (map (λ s. s.now) words.now)) settings
        × (kinds_at (map (λ s. s.now) words.now) ≡ [])
        × IsDone (Bor H) settings reader.old reader.new (R.remaining reader.old) (W.contents writer.old)
        (W.contents writer.new) (E.contents errors.old) (E.contents errors.new)) }
    ensures over { result ≡ 3 → (settings : ASettings)
        × IsSettings (asked_of (map (λ s. s.now) words.now)) settings × Waits settings }
{
    match settings(rt.alloc(), words) {
        Ok(settings) => match obey(rt, settings, reader, writer, errors) {
            Ok(()) => 0,
            Err(fault) => report_fault(rt, &settings, &fault, errors),
        },
        Err(fault) => report_settings_fault(rt.alloc(), &fault, writer, errors),
    }
}

/// Writes the reason why a command line gives no settings, or the requested help, and returns the status.
fn report_settings_fault<W: Write, E: Write>(
    alloc: Global,
    fault: &SettingsFault,
    writer: &mut W,
    errors: &mut E,
) -> u8
    ensures status { result ≤ 2 }
    ensures bad { result ≡ 2 → writer.new ≡ writer.old }
    ensures asked { result ≡ 0 → WasAsked fault.now }
{
    match fault {
        SettingsFault::Asked(text) => show(text, writer, errors),
        SettingsFault::CommandLine(text) => complain(alloc, text, errors),
        SettingsFault::OutOfMemory => fail(fault, errors),
    }
}

/// Runs one command.
fn obey<H: Host, R: Read, W: Write + Send, E: Write>(
    rt: &H,
    settings: Settings<'_>,
    reader: &mut R,
    writer: &mut W,
    errors: &mut E,
) -> Result<(), ProgramFault>
where
    H::Dir: Send + Sync,
    H::Stream: Send + Sync,
    H::Listener: Send + Sync,
    ensures done { OnOk result
        (IsDone (Bor H) settings.entry reader.old reader.new (R.remaining reader.old) (W.contents writer.old)
        (W.contents writer.new)
        (E.contents errors.old) (E.contents errors.new)) }
    ensures over { IfErr result (λ fault. is_wait_over fault ≡ true → Waits settings.entry) }
    ensures refused { IsOutOfLimits settings.entry
        → (result ≡ Err (ProgramFault.Command (CommandFault.Refused Refusal.BadGeometry Cause.Options)))
        × (reader.new ≡ reader.old) × (writer.new ≡ writer.old) }
{
    match settings {
        Settings::Sim { params } => {
            ProgramFault::of(run_sim(rt.alloc(), params, reader, writer))
        }
        Settings::Format {
            file,
            params,
            segments,
            length,
            force,
            allocate,
        } => ProgramFault::of(run_format(
            rt, file, params, segments, length, force, allocate, writer,
        )),
        Settings::Play { file, batch } => {
            ProgramFault::of(run_play(rt, file, batch, reader, writer))
        }
        Settings::Audit { file, made, copy } => {
            ProgramFault::of(run_audit(rt, file, made, copy, writer))
        }
        Settings::Serve {
            file,
            plan,
            turns,
            report,
            gather,
            events,
            renumber,
            patient,
        } => {
            let settings = RelaySettings {
                turns,
                gather: Duration::from_millis(gather),
                is_patient: patient,
            };
            ProgramFault::of(run_serving(
                rt, file, plan, renumber, settings, report, events, writer, errors,
            ))
        }
        Settings::Key => ProgramFault::of(new_key(rt, writer)),
        Settings::Plan {
            plan,
            at,
            device,
            was,
        } => ProgramFault::of(run_plan(rt, plan, at, device, was, writer, errors)),
        Settings::Put {
            folder,
            lines,
            destination,
            limit,
            wait,
        } => put_files(rt, folder, lines, destination, limit, wait, reader),
        Settings::Get {
            folder,
            lines,
            raw,
            count,
            follow,
        } => get_files(rt, folder, Form { raw, lines }, count, follow, writer),
        Settings::NetworkCheck { names } => check_network(rt, names, writer),
        Settings::NetworkWrite {
            file,
            folder,
            changed,
        } => write_network(rt, file, folder, changed, writer),
        Settings::NetworkDraw { file } => draw_network(rt, file, writer),
    }
}

/// Writes a new key.
fn new_key<H: Host, W: Write>(rt: &H, writer: &mut W) -> Result<(), CommandFault>
    ensures written { OnOk result (HasKey (W.contents writer.old) (W.contents writer.new)) }
{
    write_key(rt, writer)?;
    Ok(())
}

/// Writes help or the version, and returns the status.
fn show<T: Display, W: Write, E: Write>(text: &T, writer: &mut W, errors: &mut E) -> u8
    ensures { result ≤ 1 }
{
    let shown = write!(writer, "{text}").and_then(|()| writer.flush());
    match shown {
        Ok(()) => 0,
        Err(_) => fail(&TextFault::Output, errors),
    }
}

/// Writes the fault of a command line, and returns the status.
fn complain<T: Display, E: Write>(alloc: Global, text: &T, errors: &mut E) -> u8
    ensures { result ≡ 2 }
{
    match format!(in alloc; "{text}") {
        Ok(lines) => write_lines(&lines, errors),
        Err(_refused) => {
            let _status = fail(&SettingsFault::OutOfMemory, errors);
        }
    }
    2
}

/// Writes the error of the program, and returns its status.
fn report_fault<H: Host, E: Write>(
    rt: &H,
    settings: &Settings<'_>,
    fault: &ProgramFault,
    errors: &mut E,
) -> u8
    ensures { result ≡ (if is_wait_over fault.now then 3 else 1) }
{
    match complaint_of(rt, settings, fault) {
        Ok(lines) => write_lines(&lines, errors),
        Err(_refused) => {
            let _status = fail(fault, errors);
        }
    }
    if fault.is_wait_over() { 3 } else { 1 }
}

/// Writes lines to standard error.
fn write_lines<E: Write>(lines: &String, errors: &mut E) {
    // Ignore errors: nowhere left to report.
    let _told = errors.write_all(lines.as_bytes());
}

/// Writes the error of a command, and returns its status.
fn fail<F: Display, E: Write>(fault: &F, errors: &mut E) -> u8
    ensures { result ≡ 1 }
{
    // Ignore errors: nowhere left to report.
    let _told = writeln!(errors, "{fault}");
    1
}
