//! `rly serve`: the relay of a plan on the device in a file, with reports and events or without.

ghost use Rattle.std.specs.Prelude.{◌≡◌, ◌⊎◌, IfOk, None, OnOk, false};
ghost use Rattle.std.specs.Io.KnownBytes.{Appends};
ghost use Rattle.rly_plan.specs.Sound.{IsSoundPlan};
ghost use Rattle.rly_station.specs.Warnings.{AreReadsLogged};
ghost use Rattle.rly_daemon.specs.Program.{HasServed, HasServedReporting, HasServedWith, ended_line};

use crate::counted_disk::CountedDisk;
use crate::gate_tally::GateTally;
use crate::program::Host;
use rly_core::{HopId, PeerId, Refusal};
use rly_daemon_commands::{CommandFault, FileDisk, open_journal, open_served, refusal_with_cause};
use rly_daemon_events::{HopLines, Rests, SharedOutput};
use rly_daemon_lines::TextFault;
use rly_daemon_reporter::{Counters, ReportClock, Reported, ReporterEnd, Tally};
use rly_daemon_serve::{
    Events, RelaySettings, Reports, Served, serve, serve_reporting, serve_with_events,
};
use rly_disk::Disk;
use rly_journal::Journal;
use rly_link::{Link, Turn, Waker, Worker};
use rly_plan::Plan;
use rly_segment::read_header;
use rly_station::{ErrorLines, LineForm, ServeFault, read_keys, read_plan};
use rly_threads::{Ended, Relayed};
use std::alloc::{AllocError, Global};
use std::fs::{File, Files};
use std::io::Write;
use std::sync::{Arc, OnceLock};

/// Runs the relay of a plan, with a report at once and every `report` seconds, or without reports if that is 0, and
/// with the events of its hops if they are asked for. The plan and its keys are read before the file is touched. A plan in
/// which an id means another station than in the ids that are kept of the device is refused, unless `renumber` allows it.
pub(crate) fn run_serving<H: Host, W: Write + Send, E: Write>(
    rt: &H,
    file: &str,
    path: &str,
    renumber: bool,
    settings: RelaySettings,
    seconds: u64,
    events: bool,
    writer: &mut W,
    errors: &mut E,
) -> Result<(), CommandFault>
where
    H::Dir: Send + Sync,
    H::Stream: Send + Sync,
    H::Listener: Send + Sync,
    ensures served { OnOk result
        (HasServedWith settings.turns seconds events (W.contents writer.old) (W.contents writer.new)
        (E.contents errors.new)) }
{
    let plan = read_plan(rt, path)?;
    if events {
        watch_plan(
            rt, file, path, &plan, renumber, settings, seconds, writer, errors,
        )
    } else if seconds == 0 {
        serve_plan(rt, file, path, &plan, renumber, settings, errors)
    } else {
        report_plan(
            rt, file, path, &plan, renumber, settings, seconds, writer, errors,
        )
    }
}

/// Runs the relay of a plan on the device in a file.
fn serve_plan<H: Host, E: Write>(
    rt: &H,
    file: &str,
    path: &str,
    plan: &Plan,
    renumber: bool,
    settings: RelaySettings,
    errors: &mut E,
) -> Result<(), CommandFault>
where
    H::Dir: Send + Sync,
    H::Stream: Send + Sync,
    H::Listener: Send + Sync,
    requires { IsSoundPlan plan.now }
    ensures served { OnOk result (HasServed settings.turns (E.contents errors.new)) }
{
    let keys = read_keys(rt, plan, path)?;
    let lines = shared_lines(rt)?;
    let (journal, size) = open_file(rt, file, plan, renumber, &lines)?;
    match serve(rt, journal, plan, keys, settings, size, lines, errors) {
        Ok(served) => relay_ended(settings.turns, plan, served, errors),
        Err(failed) => Err(fault_of(failed)),
    }
}

/// The same, with a report at once and every `report` seconds.
fn report_plan<H: Host, W: Write + Send, E: Write>(
    rt: &H,
    file: &str,
    path: &str,
    plan: &Plan,
    renumber: bool,
    settings: RelaySettings,
    seconds: u64,
    writer: &mut W,
    errors: &mut E,
) -> Result<(), CommandFault>
where
    H::Dir: Send + Sync,
    H::Stream: Send + Sync,
    H::Listener: Send + Sync,
    requires { IsSoundPlan plan.now }
    ensures served { OnOk result
        (HasServedReporting settings.turns (W.contents writer.old) (W.contents writer.new) (E.contents errors.new)) }
{
    let keys = read_keys(rt, plan, path)?;
    let lines = shared_lines(rt)?;
    let (journal, size, tally) = open_tallied(rt, file, plan, renumber, None, &lines)?;
    let stop_flag = OnceLock::new();
    let reports = Reports {
        seconds,
        tally,
        stop_flag: &stop_flag,
    };
    match serve_reporting(
        rt, journal, plan, keys, settings, size, lines, reports, writer, errors,
    ) {
        Ok(served) => reported_ended(settings.turns, plan, served, false, errors),
        Err(failed) => Err(counted_fault_of(failed)),
    }
}

/// The same, with the events of the hops, and a report at once and every `report` seconds unless that is 0.
fn watch_plan<H: Host, W: Write + Send, E: Write>(
    rt: &H,
    file: &str,
    path: &str,
    plan: &Plan,
    renumber: bool,
    settings: RelaySettings,
    seconds: u64,
    writer: &mut W,
    errors: &mut E,
) -> Result<(), CommandFault>
where
    H::Dir: Send + Sync,
    H::Stream: Send + Sync,
    H::Listener: Send + Sync,
    requires { IsSoundPlan plan.now }
    ensures served { OnOk result (HasServedReporting settings.turns None None (E.contents errors.new)) }
{
    let keys = read_keys(rt, plan, path)?;
    let lines = shared_lines(rt)?;
    let (rests, hop_lines) = watch_of(rt.alloc(), plan)?;
    let (journal, size, tally) = open_tallied(rt, file, plan, renumber, Some(&rests), &lines)?;
    let stop_flag = OnceLock::new();
    let output = SharedOutput::new(writer);
    let reports = Reports {
        seconds,
        tally,
        stop_flag: &stop_flag,
    };
    let events = Events {
        rests: &rests,
        output: &output,
        lines: hop_lines,
    };
    match serve_with_events(
        rt, journal, plan, keys, settings, size, lines, reports, events, errors,
    ) {
        Ok(served) => { reported_ended(settings.turns, plan, served, output.has_failed(), errors) }
        Err(failed) => Err(counted_fault_of(failed)),
    }
}

/// The marks of the senders that rest, and the lines of the hops, for a plan.
fn watch_of(alloc: Global, plan: &Plan) -> Result<(Arc<Rests, Global>, HopLines), ServeFault>
    requires { IsSoundPlan plan.now }
{
    let (rests, lines) = match new_watch(alloc, plan) {
        Ok(watch) => watch,
        Err(refused) => return Err(refused.into()),
    };
    match rests {
        Some(rests) => Ok((rests, lines)),
        None => Err(ServeFault::Worker),
    }
}

fn new_watch(
    alloc: Global,
    plan: &Plan,
) -> Result<(Option<Arc<Rests, Global>>, HopLines), AllocError>
    requires { IsSoundPlan plan.now }
{
    let lines = HopLines::new(alloc, plan)?;
    match Rests::open(alloc, plan.hop_count())? {
        Some(rests) => Ok((Some(Arc::new(alloc, rests)?), lines)),
        None => Ok((None, lines)),
    }
}

/// The error of a relay. If its journal broke, it has the system's error of the device.
fn fault_of(failed: (ServeFault, FileDisk)) -> CommandFault {
    let (fault, disk) = failed;
    match fault {
        ServeFault::Refused(Refusal::Broken, _) => refusal_with_cause(Refusal::Broken, &disk),
        fault => CommandFault::Serve(fault),
    }
}

/// The same where the gates of the device are counted.
fn counted_fault_of(failed: (ServeFault, CountedDisk<FileDisk>)) -> CommandFault {
    let (fault, disk) = failed;
    fault_of((fault, disk.into_inner()))
}

/// The first worker of a plan that had no thread, peers before hops.
fn unstarted_of<L: Link, T: Turn, K: Waker>(
    plan: &Plan,
    ended: &[Option<Ended<L, T, K>>],
) -> Option<Worker> {
    let place = ended.iter().position(|worker| worker.is_none())?;
    let peers = plan.peer_count();
    if place < peers {
        let peer = u16::try_from(place).ok()?;
        return Some(Worker::Receiver(PeerId(peer.saturating_add(1))));
    }
    let hop = u16::try_from(place - peers).ok()?;
    Some(Worker::Sender(HopId(hop.saturating_add(1))))
}

/// Logs why a relay ended, or returns its fault.
fn relay_ended<L: Link + Drop, T: Turn + Drop, K: Waker + Drop, E: Write>(
    turns: u64,
    plan: &Plan,
    served: Served<Relayed<FileDisk, L, T, K>>,
    errors: &mut E,
) -> Result<(), CommandFault>
    ensures told { OnOk result (Appends (E.contents errors.old) (E.contents errors.new) (ended_line turns)) }
    ensures well { OnOk result (served.fault ≡ None) }
{
    let Served { end, fault } = served;
    match fault {
        None => report_end(turns, errors),
        Some(ServeFault::Worker) => Err(CommandFault::NoThread(unstarted_of(plan, &end.ended))),
        Some(fault) => Err(fault_of((fault, end.finished.journal.into_disk()))),
    }
}

/// The same of a relay that reports. Returns an error if the output of its reports or events failed.
fn reported_ended<
    L: Link + Drop,
    T: Turn + Drop,
    K: Waker + Drop,
    P: ReportClock + Drop,
    C: Counters + Drop,
    E: Write,
>(
    turns: u64,
    plan: &Plan,
    served: Served<Reported<CountedDisk<FileDisk>, L, T, K, P, C>>,
    has_failed: bool,
    errors: &mut E,
) -> Result<(), CommandFault>
    ensures told { OnOk result (Appends (E.contents errors.old) (E.contents errors.new) (ended_line turns)) }
    ensures well { OnOk result (served.fault ≡ None) }
    ensures end { OnOk result
        ((served.end.watched.end ≡ ReporterEnd.NoneDue) ⊎ (served.end.watched.end ≡ ReporterEnd.Closed)) }
    ensures output { OnOk result (has_failed ≡ false) }
{
    let Served { end, fault } = served;
    match fault {
        None => outputs_ended(turns, end.into_end(), has_failed, errors),
        Some(ServeFault::Worker) => {
            let unstarted = unstarted_of(plan, &end.relayed.ended);
            Err(CommandFault::NoThread(unstarted))
        }
        Some(fault) => Err(counted_fault_of((fault, end.relayed.finished.journal.into_disk()))),
    }
}

/// Logs why a relay whose reporter ended so has ended. Returns an error if an output failed.
fn outputs_ended<E: Write>(
    turns: u64,
    end: ReporterEnd,
    has_failed: bool,
    errors: &mut E,
) -> Result<(), CommandFault>
    ensures told { OnOk result (Appends (E.contents errors.old) (E.contents errors.new) (ended_line turns)) }
    ensures end { OnOk result ((end ≡ ReporterEnd.NoneDue) ⊎ (end ≡ ReporterEnd.Closed)) }
    ensures output { OnOk result (has_failed ≡ false) }
{
    report_end(turns, errors)?;
    match end {
        ReporterEnd::NoneDue | ReporterEnd::Closed if !has_failed => Ok(()),
        ReporterEnd::NoneDue | ReporterEnd::Closed | ReporterEnd::Output => {
            Err(CommandFault::Text(TextFault::Output))
        }
    }
}

/// The log on standard error that the workers and the device share.
fn shared_lines<H: Host>(rt: &H) -> Result<Arc<ErrorLines, Global>, ServeFault> {
    match ErrorLines::new_shared(rt.alloc(), LineForm::of(rt)) {
        Ok(lines) => Ok(lines),
        Err(refused) => Err(refused.into()),
    }
}

/// The counters of a plan's workers, which mark the senders that rest if there are marks.
fn tally_of(
    alloc: Global,
    plan: &Plan,
    rests: Option<&Arc<Rests, Global>>,
) -> Result<Arc<Tally, Global>, ServeFault> {
    match new_tally(alloc, plan, rests) {
        Ok(tally) => Ok(tally),
        Err(refused) => Err(refused.into()),
    }
}

fn new_tally(
    alloc: Global,
    plan: &Plan,
    rests: Option<&Arc<Rests, Global>>,
) -> Result<Arc<Tally, Global>, AllocError> {
    let tally = Tally::new(alloc, plan)?;
    let tally = match rests {
        Some(rests) => tally.with_rests(Arc::try_clone(rests)?),
        None => tally,
    };
    Ok(Arc::new(alloc, tally)?)
}

/// The same disk, which counts its gates if it has a header.
fn with_gate_tally(
    disk: FileDisk,
    tally: &Arc<Tally, Global>,
) -> Result<CountedDisk<FileDisk>, ServeFault> {
    let mut disk = disk;
    match gates_of(&mut disk, tally) {
        Ok(gates) => Ok(CountedDisk::new(disk, gates)),
        Err(refused) => Err(refused.into()),
    }
}

/// The gate counters of a disk, if it has a header.
fn gates_of(
    disk: &mut FileDisk,
    tally: &Arc<Tally, Global>,
) -> Result<Option<GateTally>, AllocError> {
    let Ok(geometry) = read_header(disk) else {
        return Ok(None);
    };
    let tally = Arc::try_clone(tally)?;
    Ok(Some(GateTally::new(&geometry, tally)))
}

/// Logs why a relay ended.
fn report_end<E: Write>(turns: u64, errors: &mut E) -> Result<(), CommandFault>
    ensures { OnOk result (Appends (E.contents errors.old) (E.contents errors.new) (ended_line turns)) }
{
    let told = writeln!(errors, "rly: ended after {turns} turns");
    told.map_err(|_| CommandFault::Serve(ServeFault::Unreported))
}

/// Opens the device in a file to serve a plan on it, which logs its failed reads on the lines.
fn open_disk<H: AllocGlobal + Files<File = File>>(
    rt: &H,
    file: &str,
    plan: &Plan,
    renumber: bool,
    lines: &Arc<ErrorLines, Global>,
) -> Result<FileDisk, CommandFault>
    ensures told { IfOk result (λ disk. AreReadsLogged disk.read_failures) }
{
    let disk = open_served(rt, file, plan, renumber, lines)?;
    match Arc::try_clone(lines) {
        Ok(lines) => Ok(disk.with_warnings(lines)),
        Err(refused) => Err(CommandFault::Serve(refused.into())),
    }
}

/// Opens the journal on the device in a file, and returns the file's size in bytes.
fn open_file<H: AllocGlobal + Files<File = File>>(
    rt: &H,
    file: &str,
    plan: &Plan,
    renumber: bool,
    lines: &Arc<ErrorLines, Global>,
) -> Result<(Journal<FileDisk>, u64), CommandFault>
    ensures whole { IfOk result (λ opened. opened.0.broken ≡ false) }
{
    let disk = open_disk(rt, file, plan, renumber, lines)?;
    let size = disk.size();
    let journal = open_journal(rt.alloc(), disk)?;
    Ok((journal, size))
}

/// The same for a plan whose workers count, and mark the senders that rest if there are marks; the gates of the device
/// are counted too.
fn open_tallied<H: AllocGlobal + Files<File = File>>(
    rt: &H,
    file: &str,
    plan: &Plan,
    renumber: bool,
    rests: Option<&Arc<Rests, Global>>,
    lines: &Arc<ErrorLines, Global>,
) -> Result<(Journal<CountedDisk<FileDisk>>, u64, Arc<Tally, Global>), CommandFault>
    ensures whole { IfOk result (λ opened. opened.0.broken ≡ false) }
{
    let tally = tally_of(rt.alloc(), plan, rests)?;
    let (journal, size) = open_counted(rt, file, plan, renumber, &tally, lines)?;
    Ok((journal, size, tally))
}

/// The journal on the device in a file, which counts its gates.
fn open_counted<H: AllocGlobal + Files<File = File>>(
    rt: &H,
    file: &str,
    plan: &Plan,
    renumber: bool,
    tally: &Arc<Tally, Global>,
    lines: &Arc<ErrorLines, Global>,
) -> Result<(Journal<CountedDisk<FileDisk>>, u64), CommandFault>
    ensures whole { IfOk result (λ opened. opened.0.broken ≡ false) }
{
    let disk = open_disk(rt, file, plan, renumber, lines)?;
    let size = disk.size();
    let disk = with_gate_tally(disk, tally)?;
    match Journal::open(rt.alloc(), disk) {
        Ok(journal) => Ok((journal, size)),
        Err((fault, disk)) => Err(refusal_with_cause(Refusal::from(fault), &disk.into_inner())),
    }
}
