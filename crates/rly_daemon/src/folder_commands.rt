//! `rly put` and `rly get`, by the settings of a command line.
ghost use Rattle.std.specs.Prelude.{◌≡◌, ◌<◌, ◌-◌, ◌^◌, IfErr, IfOk, OnOk, false, unwrap_or};
ghost use denote.Ref.{Bor};
ghost use Rattle.rly_daemon_folder.specs.FolderCommands.{HasPrinted, HasPut};
ghost use Rattle.rly_daemon.specs.Program.{get_form, is_wait_over, put_form, put_limit};

use crate::program::Host;
use crate::program_fault::ProgramFault;
use rly_core::Refusal;
use rly_daemon_commands::CommandFault;
use rly_daemon_folder::{Form, GetSettings, InputForm, PutSettings, run_get, run_put};
use rly_station::Cause;
use std::io::{Read, Write};

/// The longest age limit, in milliseconds.
const LONGEST_LIMIT: u64 = 1_099_511_627;

/// A millisecond in microseconds.
const MILLISECOND: u64 = 1_000;

/// Puts the input into a folder.
pub(crate) fn put_files<H: Host, R: Read>(
    rt: &H,
    folder: &str,
    lines: bool,
    destination: Option<u64>,
    limit: Option<u64>,
    wait: Option<u64>,
    reader: &mut R,
) -> Result<(), ProgramFault>
    ensures put { OnOk result (HasPut (Bor H) folder.now (put_form lines destination) (put_limit limit)
        (R.remaining reader.old)) }
{
    let form = input_form(lines, destination)?;
    let limit = limit_in(limit)?;
    let settings = PutSettings { form, limit, wait };
    match run_put(rt, folder, settings, reader) {
        Ok(()) => Ok(()),
        Err(fault) => Err(ProgramFault::Folder(fault)),
    }
}

/// The form of an input. `Err` for a number that no station has, which the command line refuses already.
fn input_form(lines: bool, destination: Option<u64>) -> Result<InputForm, ProgramFault>
    ensures { IfOk result (λ form. form ≡ put_form lines destination) }
{
    let Some(number) = destination else {
        let destination = None;
        return Ok(InputForm { lines, destination });
    };
    match u16::try_from(number) {
        Ok(station) => {
            let destination = Some(station);
            Ok(InputForm { lines, destination })
        }
        Err(_) => Err(ProgramFault::Command(CommandFault::Refused(
            Refusal::BadGeometry,
            Cause::Options,
        ))),
    }
}

/// The age limit in microseconds, from that in milliseconds; 0 for none. `Err` for one that is too long, which the command
/// line refuses already.
fn limit_in(limit: Option<u64>) -> Result<u64, ProgramFault>
    ensures limit { IfOk result (λ micros. micros ≡ put_limit limit) }
    ensures fits { IfOk result (λ micros. micros < 2 ^ 40) }
{
    let millis = limit.unwrap_or(0);
    if millis > LONGEST_LIMIT {
        return Err(ProgramFault::Command(CommandFault::Refused(
            Refusal::BadGeometry,
            Cause::Options,
        )));
    }
    Ok(millis * MILLISECOND)
}

/// Prints the files of a folder, and removes them.
pub(crate) fn get_files<H: Host, W: Write>(
    rt: &H,
    folder: &str,
    form: Form,
    count: Option<u64>,
    follow: bool,
    writer: &mut W,
) -> Result<(), ProgramFault>
    ensures printed { OnOk result (HasPrinted (Bor H) folder.now form (unwrap_or count (2 ^ 64 - 1)) follow
        (W.contents writer.old) (W.contents writer.new)) }
    ensures over { IfErr result (λ fault. is_wait_over fault ≡ false) }
{
    let settings = GetSettings {
        form,
        count,
        follow,
    };
    match run_get(rt, folder, settings, writer) {
        Ok(()) => Ok(()),
        Err(fault) => Err(ProgramFault::Folder(fault)),
    }
}
