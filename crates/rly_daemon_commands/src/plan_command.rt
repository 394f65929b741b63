//! `rly plan`: prints a plan with the state of its links, or what differs from another plan.

ghost use Rattle.std.specs.Prelude.{◌≡◌, ◌≢◌, ◌<◌, IfErr, IfOk, IfSome, None, OnOk, Some, is_some, min, string_bytes, ◌-◌};
ghost use Rattle.std.specs.Io.KnownBytes.{Appends};
ghost use Rattle.rly_core.specs.declared.limits.TheConstants.{MOMENT_LIMIT};
ghost use Rattle.rly_core.specs.declared.refusal.Refusal.{Refusal as ARefusal};
ghost use Rattle.rly_daemon_commands.specs.PlanCommand.{AreLinesOfPlan, HasShownPlan, IsCodelOfDevice, IsCodelText};
ghost use Rattle.rly_daemon_commands.specs.PlanCommand.{IsToldOfPlan, planned_moment};
ghost use Rattle.rly_plan_changes.specs.PlanChanges.{plan_changes};
ghost use Rattle.rly_plan_changes.specs.PlanIds.{ids_of, other_station};
ghost use Rattle.rly_plan_changes.specs.declared.plan_ids.OtherStation.{OtherStation as AnOtherStation};
ghost use Rattle.rly_plan_show.specs.PlanWarnings.{plan_warnings, warning_lines};
ghost use Rattle.rly_station.specs.declared.serve_fault.ServeFault.{ServeFault as AServeFault};

use crate::command_fault::CommandFault;
use crate::commands::refusal_with_cause;
use crate::file_disk::FileDisk;
use rly_core::Refusal;
use rly_core::limits::MOMENT_LIMIT;
use rly_daemon_lines::TextFault;
use rly_plan::Plan;
use rly_plan_changes::{OtherStation, changes_of, other_station};
use rly_plan_show::{codel_text_of, lines_of, text_of, warnings_of};
use rly_segment::{HeaderFault, read_header};
use rly_station::{moment_of, read_keys, read_plan};
use std::alloc::{AllocError, Global};
use std::fs::{File, Files};
use std::io::Write;
use std::time::Clock;

/// Prints a plan at a moment, or now, or with `was` what differs from the plan in that file; and then to `errors` its
/// warnings, and what CoDel of a device does at its hops, if a device is given. A plan, a key or a device that `serve` would
/// refuse is refused before anything is printed. `Renumbered`: all was printed, and an id of both plans names another
/// station.
pub fn run_plan<H: AllocGlobal + Files<File = File> + Clock, W: Write, E: Write>(
    rt: &H,
    path: &str,
    at: Option<u64>,
    device: Option<&str>,
    was: Option<&str>,
    writer: &mut W,
    errors: &mut E,
) -> Result<(), CommandFault>
    ensures told { OnOk result (HasShownPlan at (is_some device.entry) (is_some was.entry) None (W.contents writer.old)
        (W.contents writer.new) (E.contents errors.old) (E.contents errors.new)) }
    ensures renumbered { IfErr result (λ fault. (other : AnOtherStation) → fault ≡ CommandFault.Renumbered other
        → HasShownPlan at (is_some device.entry) (is_some was.entry) (Some other) (W.contents writer.old)
        (W.contents writer.new) (E.contents errors.old) (E.contents errors.new)) }
    ensures silent { IfErr result (λ fault. (cause : AServeFault) → fault ≡ CommandFault.Serve cause
        → (writer.new ≡ writer.old) × (errors.new ≡ errors.old)) }
{
    let plan = read_plan(rt, path)?;
    let _keys = read_keys(rt, &plan, path)?;
    let moment = moment_at(rt, at);
    let (text, other) = told_of(rt, &plan, moment, was)?;
    let lines = lines_for(rt, &plan, moment, device)?;
    put(writer, text.as_str())?;
    put(errors, lines.as_str())?;
    match other {
        Some(other) => Err(CommandFault::Renumbered(other)),
        None => Ok(()),
    }
}

/// The text of a plan at a moment; with `was` what differs from the plan in that file, and the first id that names another
/// station.
fn told_of<H: AllocGlobal + Files<File = File>>(
    rt: &H,
    plan: &Plan,
    moment: u64,
    was: Option<&str>,
) -> Result<(String, Option<OtherStation>), CommandFault>
    requires { moment < MOMENT_LIMIT }
    ensures text { IfOk result
        (λ told. IsToldOfPlan (is_some was.entry) plan.now moment (string_bytes told.0) told.1) }
    ensures fault { IfErr result (λ fault. (other : AnOtherStation) → fault ≢ CommandFault.Renumbered other) }
{
    let Some(was) = was else {
        return match text_of(rt.alloc(), plan, moment) {
            Ok(text) => Ok((text, None)),
            Err(refused) => Err(CommandFault::Serve(refused.into())),
        };
    };
    let old = match read_plan(rt, was) {
        Ok(old) => old,
        Err(fault) => return Err(CommandFault::Was(fault)),
    };
    match changes_between(rt.alloc(), &old, plan) {
        Ok(told) => Ok(told),
        Err(refused) => Err(CommandFault::Serve(refused.into())),
    }
}

/// What differs between two plans, and the first id that names another station.
fn changes_between(
    alloc: Global,
    old: &Plan,
    new: &Plan,
) -> Result<(String, Option<OtherStation>), AllocError>
    ensures text { IfOk result (λ told. string_bytes told.0 ≡ plan_changes old.now new.now) }
    ensures other { IfOk result (λ told. told.1 ≡ other_station (ids_of old.now) (ids_of new.now)) }
{
    let text = changes_of(alloc, old, new)?;
    Ok((text, other_station(alloc, old, new)?))
}

/// The lines of a plan's warnings at a moment, and of what CoDel of a device does at its hops, if one is given.
fn lines_for<H: AllocGlobal + Files<File = File>>(
    rt: &H,
    plan: &Plan,
    moment: u64,
    device: Option<&str>,
) -> Result<String, CommandFault>
    requires { moment < MOMENT_LIMIT }
    ensures lines { IfOk result
        (λ lines. AreLinesOfPlan (is_some device.entry) plan.now moment (string_bytes lines)) }
    ensures fault { IfErr result (λ fault. (other : AnOtherStation) → fault ≢ CommandFault.Renumbered other) }
{
    let mut lines = match warning_lines_of(rt.alloc(), plan, moment) {
        Ok(lines) => lines,
        Err(refused) => return Err(CommandFault::Serve(refused.into())),
    };
    let codel = codel_of(rt, plan, device)?;
    if let Err(refused) = lines.push_str(codel.as_str()) {
        return Err(CommandFault::Serve(refused.into()));
    }
    Ok(lines)
}

fn warning_lines_of(alloc: Global, plan: &Plan, moment: u64) -> Result<String, AllocError>
    ensures { IfOk result (λ lines. string_bytes lines ≡ warning_lines (plan_warnings plan.now moment)) }
{
    let warnings = warnings_of(alloc, plan, moment)?;
    lines_of(alloc, &warnings)
}

/// The lines of what CoDel of the device in a file does at the hops of a plan, if one is given.
fn codel_of<H: AllocGlobal + Files<File = File>>(
    rt: &H,
    plan: &Plan,
    device: Option<&str>,
) -> Result<String, CommandFault>
    ensures text { IfOk result (λ text. IsCodelText (is_some device.entry) plan.now (string_bytes text)) }
    ensures fault { IfErr result (λ fault. (other : AnOtherStation) → fault ≢ CommandFault.Renumbered other) }
{
    match device {
        Some(file) => codel_of_file(rt, plan, file),
        None => Ok(String::new(rt.alloc())),
    }
}

/// The lines of what CoDel of the device in a file does at the hops of a plan. The device is only read, without a lock,
/// so a station may serve it.
fn codel_of_file<H: AllocGlobal + Files<File = File>>(
    rt: &H,
    plan: &Plan,
    file: &str,
) -> Result<String, CommandFault>
    ensures text { IfOk result (λ text. IsCodelOfDevice plan.now (string_bytes text)) }
    ensures fault { IfErr result (λ fault. (other : AnOtherStation) → fault ≢ CommandFault.Renumbered other) }
{
    let mut disk = FileDisk::open_copy(rt, file)?;
    let geometry = match read_header(&mut disk) {
        Ok(geometry) => geometry,
        Err(HeaderFault::NotADevice) => return Err(refusal_with_cause(Refusal::NotADevice, &disk)),
        Err(HeaderFault::BadGeometry) => return Err(refusal_with_cause(
            Refusal::BadGeometry,
            &disk,
        )),
        Err(HeaderFault::Device) => return Err(refusal_with_cause(Refusal::Device, &disk)),
    };
    match codel_text_of(rt.alloc(), plan, &geometry.params) {
        Ok(text) => Ok(text),
        Err(_refused) => Err(refusal_with_cause(Refusal::OutOfMemory, &disk)),
    }
}

/// Writes a text, and all of it before it returns.
fn put<W: Write>(writer: &mut W, text: &str) -> Result<(), TextFault>
    ensures { OnOk result (Appends (W.contents writer.old) (W.contents writer.new) text.now) }
{
    writer
        .write_all(text.as_bytes())
        .map_err(|_| TextFault::Output)?;
    writer.flush().map_err(|_| TextFault::Output)
}

/// The requested moment, or now by the system's clock, up to the last moment of a plan.
fn moment_at<H: Clock>(rt: &H, at: Option<u64>) -> u64
    ensures given { IfSome at (λ moment. result ≡ planned_moment moment) }
    ensures bounded { result < MOMENT_LIMIT }
{
    let moment = match at {
        Some(moment) => moment,
        None => moment_of(rt.since_1970().ok()),
    };
    moment.min(MOMENT_LIMIT - 1)
}
