//! The running relay with the events of its hops, and a reporter or none, in parallel.

ghost use Rattle.std.specs.Prelude.{◌≡◌, ◌≤◌, ◌+◌, ◌&&◌, Bool, Err, IfErr, IfOk, None, OnOk, length};
ghost use Rattle.rly_core.specs.declared.refusal.Refusal.TheVariants as refusal;
ghost use Rattle.rly_station.specs.declared.serve_fault.ServeFault.TheVariants as fault;
ghost use Rattle.rly_station.specs.declared.file_fault.Cause.TheVariants as cause;
ghost use Rattle.rly_station.specs.Keys.{AreKeysOf};
ghost use Rattle.rly_station.specs.Workers.{workers_of};
ghost use Rattle.rly_daemon_serve.specs.ReportedRelay.{HasReports};
ghost use Rattle.rly_daemon_serve.specs.ServedRelay.{FitsPlan, HasRunOver, LacksRoom, end_fault};
ghost use Rattle.rly_plan.specs.Sound.{IsSoundPlan};
ghost use Rattle.rly_daemon_reporter.specs.TalliedLink.{link_below};
ghost use Rattle.rly_daemon_reporter.specs.ReporterAtSeat.{HasWatchedAt};
ghost use Rattle.rly_threads.specs.Relay.{IsRelayEnd};
ghost use Rattle.rly_line.specs.EndViews.{names_of};
ghost use Rattle.rly_line.specs.ResponderView.{IsAnsweredBy};

use crate::reported_relay::{Reports, UdpReported, served_of, tallied_start};
use crate::served_relay::{RelaySettings, Served};
use crate::wall_report_clock::WallReportClock;
use rly_daemon_events::{HopLines, OutputShare, Rests, SharedOutput};
use rly_daemon_reporter::{Counters, ReportClock, Reported, run_reported};
use rly_disk::Disk;
use rly_flush::RoundWatch;
use rly_journal::Journal;
use rly_link::{Link, Post, Turn, Waker};
use rly_plan::Plan;
use rly_station::{ErrorLines, PlanKeys, ServeFault, moment_of};
use std::alloc::Global;
use std::fs::{File, Files};
use std::io::Write;
use std::net::Net;
use std::sync::{Arc, OnceLock, Wait};
use std::thread;
use std::thread::{Scope, Threads};
use std::time::{Clock, Duration};

/// The inputs of a station's events.
#[derive(Drop)]
pub struct Events<'e, 'w, W: Write> {
    /// The senders that rest, as the links of the tally mark them.
    pub rests: &'e Rests,
    /// The output of the events and of the reports.
    pub output: &'e SharedOutput<'w, W>,
    /// The lines of the hops: none yet.
    pub lines: HopLines,
}

/// The same as `serve_reporting`, with the events of the plan's hops on the output of the reports: the state of each
/// hop once the startup lines are logged, and then a line at each change, until the relay ends. If the output fails it
/// serves on without them. If the system has no thread for the events, the fault at its end is `Worker`.
pub fn serve_with_events<
    'a,
    'o,
    H: AllocGlobal + Files<File = File> + Clock + Net + Threads + Wait + Sync,
    D: Disk + Drop,
    W: Write + Send,
    E: Write,
>(
    rt: &'a H,
    journal: Journal<D>,
    plan: &Plan,
    keys: PlanKeys<'_>,
    settings: RelaySettings,
    size: u64,
    lines: Arc<ErrorLines, Global>,
    reports: Reports<'o>,
    events: Events<'_, '_, W>,
    errors: &mut E,
) -> Result<Served<UdpReported<'a, 'o, D, H>>, (ServeFault, D)>
where
    H::Dir: Send + Sync,
    H::Stream: Send + Sync,
    H::Listener: Send + Sync,
    requires sound { IsSoundPlan plan.now }
    requires keys { AreKeysOf plan.now keys }
    ensures room { OnOk result (FitsPlan plan.now journal.state.params) }
    ensures lacks { LacksRoom plan.now journal.state.params
        → (result ≡ Err (fault.Refused refusal.BadGeometry cause.Plan, journal.disk)) × (errors.new ≡ errors.old) }
    // On an error the device is as it was: no call of it was made.
    ensures nothing { IfErr result (λ failed. failed.1 ≡ journal.disk) }
    // Each worker of the plan that had a thread did at its post and its seat what the plan says of it, as far as its link
    // tells, and the journal is what its flusher's rounds made of it, also if it broke. The reporter had a seat as well.
    ensures ran { IfOk result
        (λ served. HasRunOver D.state link_below (length (workers_of plan.now) + 1) plan.now keys.entry journal
        settings.turns served.end.relayed) }
    // It ended well exactly if its journal isn't broken, each worker ran until its turns were ended, the reporter and the
    // events had a thread each, and all was told.
    ensures fault { IfOk result (λ served. (events : Bool) × (told : Bool) × (served.fault
        ≡ end_fault served.end.relayed.finished.broken
        ((served.end.relayed.complete && served.end.had_thread) && events) told)) }
    // A relay without a limit of turns never ends well.
    ensures ends { IfOk result (λ served. served.fault ≡ None → 1 ≤ settings.turns) }
    // A report was made at each due moment, of the answers to the reporter's seat. What an output that is shared holds
    // isn't known.
    ensures reported { IfOk result
        (λ served. HasReports plan.now served.end.relayed.finished.last.value.line None None
        served.end.watched.seat.value served.end.watched.end) }
{
    let (posts, mut bell, mut watch, is_told) = match tallied_start(
        rt,
        &journal,
        plan,
        keys,
        settings,
        size,
        lines,
        &reports.tally,
        errors,
    ) {
        Ok(started) => started,
        Err(fault) => return Err((fault, journal.into_disk())),
    };
    let Reports {
        seconds,
        tally,
        stop_flag,
    } = reports;
    let pace = WallReportClock::new(rt, stop_flag, seconds, settings.turns);
    run_with_events(
        rt,
        rt.alloc(),
        journal,
        settings.gather,
        plan,
        posts,
        &mut bell,
        &mut watch,
        pace,
        tally,
        events,
        stop_flag,
        is_told,
    )
}

/// Runs a relay whose workers have these posts, with a reporter and the events of the hops in parallel, and returns its
/// end.
fn run_with_events<
    R: Threads + Wait + Clock + Sync,
    D: Disk + Drop,
    L: Link + Drop + Send,
    T: Turn + Drop + Send,
    K: Waker + Drop + Send,
    P: ReportClock + Drop + Send,
    C: Counters + Drop + Send,
    W: Write + Send,
    B: Waker,
    V: RoundWatch,
>(
    rt: &R,
    alloc: Global,
    journal: Journal<D>,
    gather: Duration,
    plan: &Plan,
    posts: Vec<Post<L, T, K>>,
    bell: &mut B,
    watch: &mut V,
    pace: P,
    counters: C,
    events: Events<'_, '_, W>,
    stop_flag: &OnceLock<bool>,
    is_told: bool,
) -> Result<Served<Reported<D, L, T, K, P, C>>, (ServeFault, D)>
    requires count { (1 ≤ length posts.items) × (length posts.items ≤ 255) }
    requires sound { IsSoundPlan plan.now }
    ensures nothing { IfErr result (λ failed. failed.1 ≡ journal.disk) }
    ensures end { IfOk result (λ served. IsRelayEnd D.state L.heard L.sent T.told T.endless K.woken plan.now journal
        (length posts.items + 1) posts.items served.end.relayed) }
    ensures fault { IfOk result (λ served. (events : Bool) × (served.fault
        ≡ end_fault served.end.relayed.finished.broken
        ((served.end.relayed.complete && served.end.had_thread) && events) is_told)) }
    ensures watched { IfOk result (λ served. HasWatchedAt P.told C.seen plan.now pace counters
        served.end.relayed.finished.last.value.line.of (names_of served.end.relayed.finished.last.value.line.lines)
        None None served.end.watched
        × IsAnsweredBy served.end.relayed.finished.last.value.line served.end.watched.seat.value) }
{
    let (outcome, had_thread) = thread::scope(
        thread::scope_env(),
        rt,
        move |scope| -> (Result<Reported<D, L, T, K, P, C>, Journal<D>>, bool)
            requires count { (1 ≤ length posts.items) × (length posts.items ≤ 255) }
            requires sound { IsSoundPlan plan.now }
            ensures end { IfOk result.0 (λ r. IsRelayEnd D.state L.heard L.sent T.told T.endless K.woken
                plan.entry.now journal (length posts.items + 1) posts.items r.relayed) }
            ensures watched { IfOk result.0 (λ r. HasWatchedAt P.told C.seen plan.entry.now pace counters
                r.relayed.finished.last.value.line.of (names_of r.relayed.finished.last.value.line.lines) None None
                r.watched) }
            ensures known { IfOk result.0 (λ r. IsAnsweredBy r.relayed.finished.last.value.line r.watched.seat.value) }
            ensures refused { IfErr result.0 (λ back. back ≡ journal) }
        {
            relay_in(
                scope, rt, alloc, journal, gather, plan, posts, bell, watch, pace, counters,
                events, stop_flag,
            )
        },
    );
    served_of(outcome, had_thread, is_told)
}

/// Runs the relay and its reporter, with the thread of the events in a scope. Returns whether the system had that
/// thread.
fn relay_in<
    's,
    'w: 's,
    E,
    R: Threads + Wait + Clock + Sync,
    D: Disk + Drop,
    L: Link + Drop + Send,
    T: Turn + Drop + Send,
    K: Waker + Drop + Send,
    P: ReportClock + Drop + Send,
    C: Counters + Drop + Send,
    W: Write + Send + 's,
    B: Waker,
    V: RoundWatch,
>(
    scope: &'s Scope<'s, E>,
    rt: &'s R,
    alloc: Global,
    journal: Journal<D>,
    gather: Duration,
    plan: &'s Plan,
    posts: Vec<Post<L, T, K>>,
    bell: &mut B,
    watch: &mut V,
    pace: P,
    counters: C,
    events: Events<'s, 'w, W>,
    stop_flag: &OnceLock<bool>,
) -> (Result<Reported<D, L, T, K, P, C>, Journal<D>>, bool)
    requires count { (1 ≤ length posts.items) × (length posts.items ≤ 255) }
    requires sound { IsSoundPlan plan.now }
    ensures end { IfOk result.0 (λ r. IsRelayEnd D.state L.heard L.sent T.told T.endless K.woken plan.now journal
        (length posts.items + 1) posts.items r.relayed) }
    ensures watched { IfOk result.0 (λ r. HasWatchedAt P.told C.seen plan.now pace counters
        r.relayed.finished.last.value.line.of (names_of r.relayed.finished.last.value.line.lines) None None r.watched) }
    ensures known { IfOk result.0 (λ r. IsAnsweredBy r.relayed.finished.last.value.line r.watched.seat.value) }
    ensures refused { IfErr result.0 (λ back. back ≡ journal) }
{
    let Events {
        rests,
        output,
        lines,
    } = events;
    let started = scope.spawn(move || tell_events(rt, plan, rests, lines, output));
    let mut share = OutputShare::new(rt, output);
    let outcome = run_reported(
        rt, alloc, journal, gather, plan, posts, bell, watch, pace, counters, &mut share, stop_flag,
    );
    rests.end();
    match started {
        Ok(told) => {
            told.join(rt);
            (outcome, true)
        }
        Err(_) => (outcome, false),
    }
}

/// Writes the lines of a plan's hops, at once, and until the station ends or the output fails.
fn tell_events<R: Wait + Clock, W: Write>(
    rt: &R,
    plan: &Plan,
    rests: &Rests,
    lines: HopLines,
    output: &SharedOutput<'_, W>,
) {
    let mut lines = lines;
    let mut share = OutputShare::new(rt, output);
    for _look in rt.forever() {
        let has_ended = rests.has_ended();
        let resting = rests.now();
        let now = moment_of(rt.since_1970().ok());
        if lines.tell(plan, now, &resting, &mut share).is_err() || has_ended {
            return;
        }
        rests.wait(lines.wait(plan, now, &resting));
    }
}
